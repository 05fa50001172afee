// Where things stand in a row: endpoint, identifier, state, profile; then each field behind a length octet.
use message::limits::{MKI_LIMIT, SALT_LIMIT, WIDTH};

// The longest key of a profile.
pub const KEY_LIMIT: usize = 32;

pub const ENDPOINT: usize = 0;

pub const IDENTIFIER: usize = ENDPOINT + 4;

pub const STATE: usize = IDENTIFIER + WIDTH;

pub const PROFILE: usize = STATE + 1;

pub const MKI: usize = PROFILE + 2;

pub const CLIENT_KEY: usize = MKI + 1 + MKI_LIMIT as usize;

pub const SERVER_KEY: usize = CLIENT_KEY + 1 + KEY_LIMIT;

pub const CLIENT_SALT: usize = SERVER_KEY + 1 + KEY_LIMIT;

pub const SERVER_SALT: usize = CLIENT_SALT + 1 + SALT_LIMIT as usize;

pub const ROW: usize = SERVER_SALT + 1 + SALT_LIMIT as usize;
