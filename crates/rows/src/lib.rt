// One row of the table, as octets: read, and written whole.
#![tactic(auto)]

mod arrays;
pub mod layout;
mod padding;
mod row;
mod state;
mod writing;

pub use arrays::array;
pub use padding::put_padded;
pub use row::{endpoint_of, is_live, is_named, state_of};
pub use state::State;
pub use writing::{ReadKeys, key_row, open_row};
