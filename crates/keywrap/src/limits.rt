// Limits by name.

// The octets of an AES-128 key.
pub const KEY: usize = 16;
// The longest plaintext.
pub const MOST: usize = 240;
// Its ciphertext, and the registers while it is made: A and 30 of R.
pub const CIPHERTEXT: usize = 248;
