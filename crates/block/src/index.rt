// Entries of the index put in and taken out. Places and endpoints stand in two lists of the lent block, which is octets
// alone: no memory but the caller's.
ghost use Rattle.std.specs.Prelude.{◌≡◌, ◌+◌, ◌*◌, ◌≤◌, ◌<◌, length};
ghost use Rattle.octets.specs.Number.{octets_of_16};
ghost use Rattle.octets.specs.Write.{over};
ghost use Rattle.rules.specs.Limits as Limits;
ghost use Rattle.rules.specs.Layout as Layout;
ghost use Rattle.rules.specs.Index as Spec;

use crate::layout::{BLOCK, INDEX, INDEX_ENDPOINTS, INDEX_PLACES, PLACES};
use crate::lookup::{count, spot_of};
use crate::moving::shift;

fn enter(out: &mut [u8], from: usize, to: usize, q: &[u8])
    requires { (from ≤ to) × (to ≤ from + 4 * Limits.places) × (to + length q.now ≤ length out.old) }
    ensures { out.new ≡ Spec.entered out.old from to q.now }
{
    shift(out, from, to - from, from + q.len());
    octets::put_octets(out, from, q);
}

fn withdraw(out: &mut [u8], from: usize, to: usize, q: &[u8])
    requires { (from + length q.now ≤ to) × (to ≤ from + 4 * Limits.places) × (to ≤ length out.old) }
    ensures { out.new ≡ Spec.withdrawn out.old from to q.now }
{
    shift(out, from + q.len(), to - (from + q.len()), from);
    octets::put_octets(out, to - q.len(), q);
}

fn put_count(state: &mut [u8; BLOCK], n: usize)
    requires { n ≤ Limits.places }
    ensures { state.new ≡ over state.old Layout.index_at (octets_of_16 n) }
{
    octets::put_number16(state, INDEX, n as u16);
}

fn insert_at(state: &mut [u8; BLOCK], at: usize, endpoint: u32, place: u8)
    requires { (at ≤ Spec.count_of state.old) × (Spec.count_of state.old < Limits.places) }
    ensures { state.new ≡ Spec.inserted_at state.old at endpoint place }
{
    let n = count(state);
    enter(state, INDEX_PLACES + at, INDEX_PLACES + n, &[place]);
    enter(
        state,
        INDEX_ENDPOINTS + 4 * at,
        INDEX_ENDPOINTS + 4 * n,
        &endpoint.to_le_bytes(),
    );
    put_count(state, n + 1);
}

fn remove_at(state: &mut [u8; BLOCK], at: usize)
    requires { (at < Spec.count_of state.old) × (Spec.count_of state.old ≤ Limits.places) }
    ensures { state.new ≡ Spec.removed_at state.old at }
{
    let n = count(state);
    withdraw(state, INDEX_PLACES + at, INDEX_PLACES + n, &[0]);
    withdraw(
        state,
        INDEX_ENDPOINTS + 4 * at,
        INDEX_ENDPOINTS + 4 * n,
        &[0, 0, 0, 0],
    );
    put_count(state, n - 1);
}

// An endpoint put in where it is missing.
pub fn put_in(state: &mut [u8; BLOCK], endpoint: u32, place: u8)
    ensures { state.new ≡ Spec.with_entry state.old endpoint place }
{
    if let Err(at) = spot_of(state, endpoint) {
        if count(state) < PLACES {
            insert_at(state, at, endpoint, place);
        }
    }
}

// An endpoint taken out where it stands.
pub fn take_out(state: &mut [u8; BLOCK], endpoint: u32)
    ensures { state.new ≡ Spec.without_entry state.old endpoint }
{
    if let Ok(at) = spot_of(state, endpoint) {
        remove_at(state, at);
    }
}
