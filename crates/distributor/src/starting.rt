// Start.
ghost use Rattle.std.specs.Prelude.{◌≡◌, false, not, length};
ghost use Rattle.message.specs.Profiles.{good_list};
ghost use Rattle.rules.specs.Call as Call;
ghost use Rattle.rules.specs.Layout as Layout;
ghost use Rattle.rules.specs.Orders.{start_order};
ghost use Rattle.rules.specs.Refusals.{no_room, start_message};
ghost use Rattle.distributor.specs.Outcomes.{Checks, Does, Sends};

use crate::storing::put_up;
use block::{BLOCK, is_up};
use message::limits::BEFORE_LIST;
use octets::Refusal;

// A list and the room for its message, with the tunnel down.
fn check_start(list: &[u8], room: usize) -> Result<(), Refusal>
    ensures { Checks (start_order false (not (good_list list.now)) (no_room (start_message list.now) room)) tt result }
{
    if !message::good_list(list) {
        return Err(Refusal::BadProfileList);
    }
    if room < BEFORE_LIST + list.len() {
        return Err(Refusal::NoRoom);
    }
    Ok(())
}

// What `start` does while the tunnel is down. Never inlined: so refusal 17, which comes before, keeps no registers and
// takes no longer than its test.
#[inline(never)]
fn start_down(state: &mut [u8; BLOCK], list: &[u8], out: &mut [u8]) -> Result<usize, Refusal>
    requires { Layout.up state.old ≡ false }
    ensures { Does (Call.start list.now (length out.old)) state.old state.new (λ a. Sends a out.old out.new result) }
{
    check_start(list, out.len())?;
    let count = writers::write_supported_profiles(0, list, out)?;
    put_up(state, list);
    Ok(count)
}

// Writes SupportedProfiles; tunnel up, table empty. Refusals 17, 16, 13.
pub fn start(state: &mut [u8; BLOCK], list: &[u8], out: &mut [u8]) -> Result<usize, Refusal>
    ensures { Does (Call.start list.now (length out.old)) state.old state.new (λ a. Sends a out.old out.new result) }
{
    if is_up(state) {
        return Err(Refusal::TunnelUp);
    }
    start_down(state, list, out)
}
