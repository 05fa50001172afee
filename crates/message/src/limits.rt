// The widths and limits of tunnel messages.

// A, the width of an association identifier.
pub const WIDTH: usize = 16;

// The longest body, read or written.
pub const BODY_LIMIT: u16 = 4096;

// What stands before a body: type 1, length 2.
pub const HEADER: usize = 3;

// What stands before the list of a SupportedProfiles: header, version 1, length 2.
pub const BEFORE_LIST: usize = HEADER + 3;

// Where the number of a TunneledDtls's DTLS octets stands: behind header and identifier.
pub const DTLS_LENGTH_AT: usize = HEADER + WIDTH;

// What stands before the DTLS octets in a body: identifier, length 2; and in the message.
pub const BODY_BEFORE_DTLS: usize = WIDTH + 2;

pub const BEFORE_DTLS: usize = HEADER + BODY_BEFORE_DTLS;

// The longest DTLS packet.
pub const DTLS_LIMIT: usize = BODY_LIMIT as usize - BODY_BEFORE_DTLS;

// A whole EndpointDisconnect.
pub const DISCONNECT_LENGTH: usize = HEADER + WIDTH;

// The longest field that one length octet can tell.
pub const MOST_8: usize = 255;

// The longest field that two length octets can tell.
pub const MOST_16: usize = 65535;

// The longest MKI that a table keeps.
pub const MKI_LIMIT: u8 = 16;

// The longest salt that a table keeps.
pub const SALT_LIMIT: u8 = 32;
