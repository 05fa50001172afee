// Write page (document 02, order 1).
ghost use Rattle.std.specs.Prelude.{◌≡◌, cond, ◌+◌, ◌*◌, ◌^◌, ◌≤◌, ◌<◌, length};
ghost use Rattle.status.specs.Limits.{state_bits, entry_bits, page_bits};
ghost use Rattle.status.specs.Bits.{octets_for};
ghost use Rattle.status.specs.Entries as Entries;
ghost use Rattle.status.specs.Entries.{bits_of_entry, bits_of_entries};
ghost use Rattle.status.specs.Places.{entries_of};
ghost use Rattle.rules.specs.Call as Call;
ghost use Rattle.rules.specs.Layout as Layout;
ghost use Rattle.rules.specs.Limits.{places};
ghost use Rattle.rules.specs.Table as Spec;
ghost use Rattle.distributor.specs.Outcomes.{Pages};
ghost use Rattle.distributor.specs.Packing.{Puts, Room, Moved, shown_to};

use crate::packing::{Packing, finish, put};
use block::{BLOCK, PLACES, is_up, row_at};
use octets::Refusal;
use rows::layout::STATE;
use rows::{State, endpoint_of};
use status::{COUNT_BITS, ENDPOINT_BITS, ENTRY_BITS, Entry, PLACE_BITS, STATE_BITS, STATES};

// The rows that a page shows: none while the tunnel is down.
fn shown_rows(state: &[u8; BLOCK]) -> usize
    ensures { result ≡ cond (Layout.up state.now) places 0 }
{
    if is_up(state) {
        return PLACES;
    }
    0
}

// The state as its octet, of which the rules of a page speak (`shown_as`): `State` would be no plainer, told back at each test.
fn state_at(state: &[u8; BLOCK], place: usize) -> u8
    ensures { result ≡ Layout.state_of (Layout.row_of state.now place) }
{
    octets::octet(row_at(state, place), STATE)
}

fn endpoint_at(state: &[u8; BLOCK], place: usize) -> u32
    ensures { result ≡ Layout.endpoint_of (Layout.row_of state.now place) }
{
    endpoint_of(row_at(state, place))
}

// The number of live places.
fn live_count(state: &[u8; BLOCK], shown: usize) -> usize
    requires { shown ≤ places }
    ensures { result ≡ length (entries_of (shown_to state.now shown)) }
{
    let mut n = 0;
    for place in 0..shown {
        if state_at(state, place) != State::Vacant as u8 {
            n += 1;
        }
    }
    n
}

// Octets of a page with so many entries: a shorter output is refusal 13. By a sum: `div_ceil` keeps quotient and rest
// apart beside the loop over the places, and Write page took 1.2 times as long.
fn page_octets(count: usize) -> usize
    requires { count ≤ places }
    ensures { result ≡ octets_for (page_bits count) }
{
    (COUNT_BITS + count * ENTRY_BITS + 7) / 8
}

// Place and state of a live place as one number; 1 is keyed.
fn head(place: usize, keyed: bool) -> u64
    requires { place < places }
    ensures { result ≡ place * 2 ^ state_bits + Entries.state_of keyed }
{
    place as u64 * STATES + u64::from(keyed)
}

// The entry of a live place.
fn put_entry(out: &mut [u8], w: Packing, entry: Entry) -> Packing
    requires { Room out.old w entry_bits × (entry.place < places) }
    ensures { Moved w entry_bits result × Puts out.old w (bits_of_entry entry) out.new result }
{
    let v = put(
        out,
        w,
        PLACE_BITS + STATE_BITS,
        head(entry.place, entry.keyed),
    );
    put(out, v, ENDPOINT_BITS, entry.endpoint as u64)
}

// The live places, lowest first.
fn put_places(state: &[u8; BLOCK], shown: usize, out: &mut [u8], start: Packing) -> Packing
    requires { (shown ≤ places) × Room out.old start (length (entries_of (shown_to state.now shown)) * entry_bits) }
    ensures { Moved start (length (entries_of (shown_to state.now shown)) * entry_bits) result × Puts out.old start (bits_of_entries (entries_of (shown_to state.now shown))) out.new result }
{
    let mut w = start;
    for place in 0..shown {
        let s = state_at(state, place);
        if s != State::Vacant as u8 {
            let entry = Entry {
                place,
                keyed: s != State::Open as u8,
                endpoint: endpoint_at(state, place),
            };
            w = put_entry(out, w, entry);
        }
    }
    w
}

// Writes the status page; refusal 13, whatever the tunnel. The block is lent to be read: of its rows the states and the
// endpoints are.
pub fn write_page(state: &[u8; BLOCK], out: &mut [u8]) -> Result<usize, Refusal>
    ensures { Pages (Spec.answer state.now (Call.write_page (length out.old))) out.old out.new result }
{
    let shown = shown_rows(state);
    let count = live_count(state, shown);
    let octets = page_octets(count);
    if out.len() < octets {
        return Err(Refusal::NoRoom);
    }
    let none = Packing {
        at: 0,
        pending: 0,
        bits: 0,
    };
    let start = put(out, none, COUNT_BITS, count as u64);
    let w = put_places(state, shown, out, start);
    finish(out, w, octets);
    Ok(octets)
}
