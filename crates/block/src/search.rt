// The place of a row that passes a test.
ghost use Rattle.std.specs.Prelude.{◌≡◌, ◌||◌};
ghost use Rattle.rules.specs.Table as Spec;
ghost use Rattle.block.specs.InTable.{in_table};

use crate::layout::{BLOCK, PLACES, row_at};
use crate::lookup::is_served;
use rows::{is_live, is_named};

pub fn place_of_identifier(state: &[u8; BLOCK], identifier: &[u8]) -> Option<usize>
    ensures { result ≡ in_table (Spec.place_of_identifier state.now identifier.now) }
{
    (0..PLACES).find(|place| is_named(row_at(state, *place), identifier))
}

// Whether an association has the endpoint or the identifier.
pub fn is_taken(state: &[u8; BLOCK], identifier: &[u8], endpoint: u32) -> bool
    ensures { result ≡ (Spec.serves state.now endpoint || Spec.knows state.now identifier.now) }
{
    is_served(state, endpoint) || place_of_identifier(state, identifier).is_some()
}

pub fn vacant_place(state: &[u8; BLOCK]) -> Option<usize>
    ensures { result ≡ in_table (Spec.vacant_place state.now) }
{
    (0..PLACES).find(|place| !is_live(row_at(state, *place)))
}
