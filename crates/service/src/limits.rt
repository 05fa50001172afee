// Lengths of frames.
use message::limits::{BODY_LIMIT, HEADER, MKI_LIMIT, SALT_LIMIT, WIDTH};

// In front of an answer's values: two octets of length, and the kind.
pub const HEAD: usize = 3;

// An endpoint in a request.
pub const ENDPOINT: usize = 4;

// The room that the relay lends its calls: the longest tunnel message.
pub const ROOM: usize = HEADER + BODY_LIMIT as usize;

// The longest request: the kind, and the longest tunnel message.
pub const FRAME_LIMIT: usize = 1 + ROOM;

// The longest answer frame.
pub const ANSWER: usize = HEAD + ROOM;

// The longest field of a record.
pub const FIELD: usize = 32;

// The profile and the key fields of a record, each behind its length octet.
pub const KEYS: usize = 2
    + (1 + MKI_LIMIT as usize)
    + 2 * (1 + FIELD)
    + 2 * (1 + SALT_LIMIT as usize);

// A record: state, identifier, endpoint, and these.
pub const RECORD: usize = 1 + WIDTH + ENDPOINT + KEYS;
