// The status page of a table as bit-packed octets (document 02, order 1): its layout and its reader.
#![tactic(auto)]

mod bits;
mod entries;
mod entry;
mod limits;
mod numbers;
mod reading;

pub use entry::Entry;
pub use limits::{COUNT_BITS, ENDPOINT_BITS, ENTRY_BITS, PLACE_BITS, PLACES, STATE_BITS, STATES};
pub use reading::{read_entry, read_page};
