// Total functions on lent octets, for every crate above: no caller has to look first.
#![tactic(auto)]

mod parts;
mod reading;
mod refusal;
mod writing;

pub use parts::{Bounds, NOWHERE, part, part_in, same};
pub use reading::{holds_octets, number16, number32, octet, within};
pub use refusal::Refusal;
pub use writing::{put_number16, put_octet, put_octets};
