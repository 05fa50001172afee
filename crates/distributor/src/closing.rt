// Close.
ghost use Rattle.std.specs.Prelude.{length};
ghost use Rattle.rules.specs.Call as Call;
ghost use Rattle.rules.specs.Table as Spec;
ghost use Rattle.distributor.specs.Outcomes.{Checks, Does, Sends};

use crate::finding::place_named;
use crate::storing::put_vacant;
use block::{BLOCK, is_up};
use message::limits::{DISCONNECT_LENGTH, WIDTH};
use octets::Refusal;

fn check_close(state: &[u8; BLOCK], identifier: &[u8], room: usize) -> Result<usize, Refusal>
    ensures { Checks (Spec.close_verdict state.now identifier.now room) (Spec.place_of_identifier state.now identifier.now) result }
{
    if !is_up(state) {
        return Err(Refusal::TunnelDown);
    }
    if identifier.len() != WIDTH {
        return Err(Refusal::IdentifierLength);
    }
    let place = place_named(state, identifier)?;
    if room < DISCONNECT_LENGTH {
        return Err(Refusal::NoRoom);
    }
    Ok(place)
}

// Writes EndpointDisconnect and removes the record; refusals 1, 20, 6, 13.
pub fn close(state: &mut [u8; BLOCK], identifier: &[u8], out: &mut [u8]) -> Result<usize, Refusal>
    ensures { Does (Call.close identifier.now (length out.old)) state.old state.new (λ a. Sends a out.old out.new result) }
{
    let place = check_close(state, identifier, out.len())?;
    let count = writers::write_endpoint_disconnect(identifier, out)?;
    put_vacant(state, place);
    Ok(count)
}
