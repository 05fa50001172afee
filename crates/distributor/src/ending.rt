// End.
ghost use Rattle.std.specs.Prelude.{◌≡◌};
ghost use Rattle.rules.specs.Call as Call;
ghost use Rattle.distributor.specs.Outcomes.{Does, ended_of};

use crate::storing::put_down;
use block::{BLOCK, is_up};
use octets::Refusal;

// Tunnel down, table empty; refusal 1.
pub fn end(state: &mut [u8; BLOCK]) -> Result<(), Refusal>
    ensures { Does Call.end state.old state.new (λ a. ended_of result ≡ a) }
{
    if !is_up(state) {
        return Err(Refusal::TunnelDown);
    }
    put_down(state);
    Ok(())
}
