// Where things stand in the block.
ghost use Rattle.std.specs.Prelude.{◌≡◌};
ghost use Rattle.rules.specs.Layout as Spec;
ghost use Rattle.block.specs.RowPart.{RowPart};

use rows::layout::ROW;

// Live associations at most.
pub use status::PLACES;

// Rounds of a search at most: one more than so many places can be halved.
pub(crate) const ROUNDS: usize = 6;

// All but the last halve.
pub(crate) const HALVINGS: usize = ROUNDS - 1;

// The longest good profile list.
pub const LIST_LIMIT: usize = 4;

// The rows, the tunnel, its profile list behind a length octet.
pub const TUNNEL: usize = PLACES * ROW;

pub const LIST: usize = TUNNEL + 1;

// The index: the number of its entries, their places, their endpoints.
pub(crate) const INDEX: usize = LIST + 1 + LIST_LIMIT;

pub(crate) const INDEX_PLACES: usize = INDEX + 2;

pub(crate) const INDEX_ENDPOINTS: usize = INDEX_PLACES + PLACES;

// The length of a block.
pub const BLOCK: usize = INDEX_ENDPOINTS + 4 * PLACES;

pub fn is_up(state: &[u8]) -> bool
    ensures { result ≡ Spec.up state.now }
{
    octets::octet(state, TUNNEL) != 0
}

// The row of a place; a number that is no place has none, and no octets. The test comes first, as `get` would not save it: the
// offset of a great number does not fit.
pub fn row_at(state: &[u8; BLOCK], place: usize) -> &[u8]
    ensures { RowPart state.entry place result }
{
    let s: &[u8] = state;
    if place < PLACES {
        let start = place * ROW;
        return &s[start..start + ROW];
    }
    &s[..0]
}
