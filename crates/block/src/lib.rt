// Where rows stand in the block, how they are found, and the index of their endpoints.
#![tactic(auto)]

mod index;
pub mod layout;
mod lookup;
mod moving;
mod search;

pub use index::{put_in, take_out};
pub use layout::{BLOCK, PLACES, is_up, row_at};
pub use lookup::{Lookup, is_served, place_of_endpoint};
pub use search::{is_taken, place_of_identifier, vacant_place};
