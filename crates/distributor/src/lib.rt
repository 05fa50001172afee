// Tunnel and table of a media distributor (RFC 9185, section 5; document 01, "The record and its
// calls"), in one block of octets that the caller lends.
#![tactic(auto)]

mod closing;
mod ending;
mod finding;
mod initial;
mod looking;
mod opening;
mod packing;
mod paging;
mod receiving;
mod sending;
mod starting;
mod storing;

pub use block::{BLOCK, PLACES};
pub use closing::close;
pub use ending::end;
pub use initial::first_state;
pub use looking::{Padded, Record, RecordKeys, look};
pub use opening::open;
pub use paging::write_page;
pub use receiving::{Received, tunnel_octets};
pub use sending::booth_packet;
pub use starting::start;
