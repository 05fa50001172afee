// The association that a call is about: its place, or refusal 6.
ghost use Rattle.rules.specs.Table as Spec;
ghost use Rattle.distributor.specs.Outcomes.{Found};

use block::{BLOCK, PLACES, place_of_endpoint, place_of_identifier};
use octets::Refusal;

// Inlined, here and below: as a function of its own it hands its answer back through memory, and Close took 1.3 times as long.
#[inline(always)]
pub(crate) fn place_named(state: &[u8; BLOCK], identifier: &[u8]) -> Result<usize, Refusal>
    ensures { Found (Spec.place_of_identifier state.now identifier.now) result }
{
    place_of_identifier(state, identifier).ok_or(Refusal::NoAssociation)
}

#[inline(always)]
pub(crate) fn place_served(state: &[u8; BLOCK], endpoint: u32) -> Result<usize, Refusal>
    ensures { Found (Spec.place_of_endpoint state.now endpoint) result }
{
    place_of_endpoint(state, endpoint)
        .place
        .filter(|place| *place < PLACES)
        .ok_or(Refusal::NoAssociation)
}
