// Open.
ghost use Rattle.std.specs.Prelude.{◌≡◌, cond};
ghost use Rattle.octets.specs.Refusal.{number_of};
ghost use Rattle.rules.specs.Call as Call;
ghost use Rattle.rules.specs.Table as Spec;
ghost use Rattle.distributor.specs.Outcomes.{Checks, Does, opened_of};

use crate::storing::put_open;
use block::{BLOCK, is_taken, is_up, place_of_identifier, vacant_place};
use message::limits::WIDTH;
use octets::Refusal;

// The identifier or the endpoint is taken; the identifier's refusal comes first.
fn taken(state: &[u8; BLOCK], identifier: &[u8]) -> Refusal
    ensures { number_of result ≡ cond (Spec.knows state.now identifier.now) 11 12 }
{
    match place_of_identifier(state, identifier) {
        Some(_) => Refusal::IdentifierLive,
        None => Refusal::EndpointLive,
    }
}

fn check_open(state: &[u8; BLOCK], identifier: &[u8], endpoint: u32) -> Result<usize, Refusal>
    ensures { Checks (Spec.open_verdict state.now identifier.now endpoint) (Spec.vacant_place state.now) result }
{
    if !is_up(state) {
        return Err(Refusal::TunnelDown);
    }
    if identifier.len() != WIDTH {
        return Err(Refusal::IdentifierLength);
    }
    if is_taken(state, identifier, endpoint) {
        return Err(taken(state, identifier));
    }
    vacant_place(state).ok_or(Refusal::TableFull)
}

// An association at the lowest free place; refusals 1, 20, 11, 12, 10.
pub fn open(state: &mut [u8; BLOCK], identifier: &[u8], endpoint: u32) -> Result<usize, Refusal>
    ensures { Does (Call.opening identifier.now endpoint) state.old state.new (λ a. opened_of result ≡ a) }
{
    let place = check_open(state, identifier, endpoint)?;
    put_open(state, place, identifier, endpoint);
    Ok(place)
}
