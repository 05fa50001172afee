// Booth packet.
ghost use Rattle.std.specs.Prelude.{◌≡◌, not, cond, ◌+◌, ltb, length};
ghost use Rattle.octets.specs.Refusal.{number_of};
ghost use Rattle.message.specs.Limits.{header, width};
ghost use Rattle.rules.specs.Call as Call;
ghost use Rattle.rules.specs.Layout.{block_length};
ghost use Rattle.rules.specs.Refusals.{not_dtls, too_long};
ghost use Rattle.rules.specs.Table as Spec;
ghost use Rattle.rules.specs.Verdict.{allowed, refuse};
ghost use Rattle.distributor.specs.Outcomes.{Checks, Sends};

use crate::finding::place_served;
use block::{BLOCK, is_served, is_up, row_at};
use demux::Kind;
use message::limits::{BEFORE_DTLS, DTLS_LIMIT, WIDTH};
use octets::Refusal;
use rows::layout::IDENTIFIER;

#[tactic(auto, using(crate::proofs::SortLaws::dtls_kind), unfolding(rules::specs::Refusals::not_dtls))]
fn is_dtls(packet: &[u8]) -> bool
    ensures { not result ≡ not_dtls packet.now }
{
    demux::sort(packet).is_ok_and(|kind| kind == Kind::Dtls)
}

// A packet by itself.
fn check_alone(packet: &[u8], room: usize) -> Result<(), Refusal>
    ensures { Checks (refuse (not_dtls packet.now) 14 (refuse (too_long packet.now) 15 (refuse (ltb room (header + width + 2 + length packet.now)) 13 allowed))) tt result }
{
    if !is_dtls(packet) {
        return Err(Refusal::NotDtls);
    }
    if packet.len() <= DTLS_LIMIT {
        if BEFORE_DTLS + packet.len() <= room {
            return Ok(());
        }
        return Err(Refusal::NoRoom);
    }
    Err(Refusal::PacketTooLong)
}

// A packet that is refused by itself. Without an association for its endpoint the refusal is 6, which comes first.
fn earlier(state: &[u8; BLOCK], endpoint: u32, refusal: Refusal) -> Refusal
    ensures { number_of result ≡ cond (Spec.serves state.now endpoint) (number_of refusal) 6 }
{
    if is_served(state, endpoint) {
        refusal
    } else {
        Refusal::NoAssociation
    }
}

// The search comes last: fewer values are kept in registers beside it. The block's length is told on: by it the identifier
// of the row has its width.
fn check_packet(
    state: &[u8; BLOCK],
    endpoint: u32,
    packet: &[u8],
    room: usize,
) -> Result<usize, Refusal>
    ensures { (length state.now ≡ block_length) × Checks (Spec.packet_verdict state.now endpoint packet.now room) (Spec.place_of_endpoint state.now endpoint) result }
{
    if !is_up(state) {
        return Err(Refusal::TunnelDown);
    }
    match check_alone(packet, room) {
        Ok(()) => place_served(state, endpoint),
        Err(refusal) => Err(earlier(state, endpoint, refusal)),
    }
}

// Writes TunneledDtls for an endpoint's association; refusals 1, 6, 14, 15, 13. The block is lent to be read.
pub fn booth_packet(
    state: &[u8; BLOCK],
    endpoint: u32,
    packet: &[u8],
    out: &mut [u8],
) -> Result<usize, Refusal>
    ensures { Sends (Spec.answer state.now (Call.booth_packet endpoint packet.now (length out.old))) out.old out.new result }
{
    let place = check_packet(state, endpoint, packet, out.len())?;
    let identifier = rows::array::<WIDTH>(row_at(state, place), IDENTIFIER);
    writers::write_tunneled_dtls(&identifier, packet, out)
}
