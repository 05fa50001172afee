// What a row holds.
ghost use Rattle.std.specs.Prelude.{◌≡◌};
ghost use Rattle.rules.specs.Layout as Spec;
ghost use Rattle.rows.specs.States.{state_in};

use crate::layout::{ENDPOINT, IDENTIFIER, STATE};
use crate::state::State;
use message::limits::WIDTH;

pub fn state_of(row: &[u8]) -> State
    ensures { result ≡ state_in (Spec.state_of row.now) }
{
    State::from(octets::octet(row, STATE))
}

pub fn is_live(row: &[u8]) -> bool
    ensures { result ≡ Spec.live row.now }
{
    octets::octet(row, STATE) != State::Vacant as u8
}

fn identifier_of(row: &[u8]) -> &[u8]
    ensures { result.now ≡ Spec.identifier_of row.now }
{
    octets::part(row, IDENTIFIER, IDENTIFIER + WIDTH)
}

pub fn endpoint_of(row: &[u8]) -> u32
    ensures { result ≡ Spec.endpoint_of row.now }
{
    octets::number32(row, ENDPOINT)
}

// The names are compared first: of most rows that alone is read.
pub fn is_named(row: &[u8], identifier: &[u8]) -> bool
    ensures { result ≡ Spec.named identifier.now row.now }
{
    octets::same(identifier_of(row), identifier) && is_live(row)
}
