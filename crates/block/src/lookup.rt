// The search for an endpoint in the index: the endpoints of the live rows, rising, and beside them the rows' places.
ghost use Rattle.std.specs.Prelude.{◌≡◌, cond, leb, ◌-◌, ◌≤◌, ◌<◌, unwrap_or};
ghost use Rattle.rules.specs.Limits as Limits;
ghost use Rattle.rules.specs.Halving as Halving;
ghost use Rattle.rules.specs.Index as Spec;
ghost use Rattle.rules.specs.Table as Table;
ghost use Rattle.block.specs.InTable.{found_at};
ghost use Rattle.block.specs.Spots.{spot_of};

use crate::layout::{BLOCK, HALVINGS, INDEX, INDEX_ENDPOINTS, INDEX_PLACES, PLACES};

// The position in the index that halving leaves, and how many endpoints it looked at.
#[derive(Clone, Copy)]
pub struct Halved {
    pub at: usize,
    pub looked: usize,
}

// The place of an endpoint's row, as the index has it: a number of the table on every block that calls lead to. And the rounds
// that the search took, each of which compared one stored endpoint.
#[derive(Clone, Copy)]
pub struct Lookup {
    pub place: Option<usize>,
    pub rounds: usize,
}

// The number of entries.
#[tactic(auto, using(octets::proofs::Tests::tests), unfolding(rules::specs::Index::count_of))]
pub(crate) fn count(state: &[u8; BLOCK]) -> usize
    ensures { result ≡ Spec.count_of state.now }
{
    (octets::number16(state, INDEX) as usize).min(PLACES)
}

// Four octets, the lowest first, and no test for the end: a compiler makes this one load on x86-64.
#[tactic(auto, using(crate::proofs::WordLaws::quad_is), unfolding(rules::specs::Index::index_endpoint))]
fn endpoint_at(state: &[u8; BLOCK], at: usize) -> u32
    requires { at < Limits.places }
    ensures { result ≡ Spec.index_endpoint state.now at }
{
    let i = INDEX_ENDPOINTS + 4 * at;
    u32::from_le_bytes([state[i], state[i + 1], state[i + 2], state[i + 3]])
}

#[tactic(auto, unfolding(rules::specs::Index::index_place))]
fn place_at(state: &[u8; BLOCK], at: usize) -> usize
    requires { at < Limits.places }
    ensures { result ≡ Spec.index_place state.now at }
{
    state[INDEX_PLACES + at] as usize
}

// Where the half that is left begins: with the endpoint seen, or where it began.
#[tactic(auto, using(octets::proofs::Tests::tests), unfolding(rules::specs::Halving::nearer))]
fn nearer(seen: u32, endpoint: u32, lo: usize, middle: usize) -> usize
    ensures { result ≡ Halving.nearer seen endpoint lo middle }
{
    if seen <= endpoint { middle } else { lo }
}

// A fixed number of turns with one choice in each: a compiler unrolls them and makes each choice a conditional move, so
// that no jump hangs on an endpoint. The library's binary_search has such jumps, and promises no number of rounds.
fn halve(state: &[u8; BLOCK], endpoint: u32, n: usize) -> Halved
    requires { (0 < n) × (n ≤ Limits.places) }
    ensures { (result.at ≡ Halving.halved (Limits.rounds - 1) (Spec.index_endpoint state.now) endpoint 0 n) × (result.looked ≡ Limits.rounds - 1) }
{
    let mut lo = 0;
    let mut left = n;
    let mut looked = 0;
    for _turn in 0..HALVINGS {
        let half = left / 2;
        let middle = lo + half;
        lo = nearer(endpoint_at(state, middle), endpoint, lo, middle);
        left -= half;
        looked += 1;
    }
    Halved { at: lo, looked }
}

// One endpoint needs no halving.
fn nearest(state: &[u8; BLOCK], endpoint: u32, n: usize) -> Halved
    requires { (0 < n) × (n ≤ Limits.places) }
    ensures { (result.at ≡ Halving.halved (Limits.rounds - 1) (Spec.index_endpoint state.now) endpoint 0 n) × (result.looked ≡ cond (leb n 1) 0 (Limits.rounds - 1)) × (result.looked < Limits.rounds) }
{
    if n <= 1 {
        return Halved { at: 0, looked: 0 };
    }
    halve(state, endpoint, n)
}

pub fn place_of_endpoint(state: &[u8; BLOCK], endpoint: u32) -> Lookup
    ensures { (unwrap_or result.place Limits.places ≡ Table.place_of_endpoint state.now endpoint) × (result.rounds ≡ Halving.rounds_for Limits.rounds (Spec.count_of state.now)) × (result.rounds ≤ Limits.rounds) × (result.place ≡ found_at state.now (Spec.spot state.now endpoint)) }
{
    let n = count(state);
    if n == 0 {
        return Lookup {
            place: None,
            rounds: 0,
        };
    }
    let near = nearest(state, endpoint, n);
    let at = near.at;
    let rounds = near.looked + 1;
    if endpoint_at(state, at) == endpoint {
        let place = Some(place_at(state, at));
        return Lookup { place, rounds };
    }
    Lookup {
        place: None,
        rounds,
    }
}

#[tactic(auto, using(octets::proofs::Tests::tests), unfolding(rules::specs::Halving::settled))]
fn settled(seen: u32, endpoint: u32, at: usize) -> Result<usize, usize>
    requires { at < Limits.places }
    ensures { spot_of result ≡ Halving.settled seen endpoint at }
{
    if seen == endpoint {
        return Ok(at);
    }
    if seen < endpoint {
        return Err(at + 1);
    }
    Err(at)
}

// Where an endpoint stands in the index, or where it would.
pub(crate) fn spot_of(state: &[u8; BLOCK], endpoint: u32) -> Result<usize, usize>
    ensures { spot_of result ≡ Spec.spot state.now endpoint }
{
    let n = count(state);
    if n == 0 {
        return Err(0);
    }
    let near = nearest(state, endpoint, n);
    let at = near.at;
    settled(endpoint_at(state, at), endpoint, at)
}

// Whether an association has the endpoint.
pub fn is_served(state: &[u8; BLOCK], endpoint: u32) -> bool
    ensures { result ≡ Table.serves state.now endpoint }
{
    place_of_endpoint(state, endpoint)
        .place
        .is_some_and(|place| place < PLACES)
}
