// AES Key Wrap with Padding (RFC 5649) with AES-128, for plaintexts of 1 to 240 octets. No address and no branch depends
// on a key or a plaintext but by what the answer tells: accepted or not, and the length.
#![tactic(auto)]

mod checks;
mod clearing;
mod in_place;
pub mod limits;
mod loading;
mod process;
mod registers;
mod unwrapping;
mod wrapping;

pub use in_place::{unwrap_in_place, wrap_in_place};
pub use unwrapping::unwrap;
pub use wrapping::wrap;
