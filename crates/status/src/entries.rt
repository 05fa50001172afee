// The entries of a page, read one behind the other.
ghost use Rattle.std.specs.Prelude.{◌≡◌, true, ◌&&◌, map, ◌≤◌, length};
ghost use Rattle.status.specs.Limits.{places, page_bits};
ghost use Rattle.status.specs.Bits.{bit_at};
ghost use Rattle.status.specs.Entries.{entry_at, endpoint_of, rising, distinct};
ghost use Rattle.status.specs.Page.{entries_in};

use crate::bits::value;
use crate::entry::Entry;
use crate::limits::{ENDPOINTS, ENTRY_BITS, PLACES, STATES, page_bits};
use crate::numbers::differ;

// The entry that bits stand for from bit `at` on.
#[tactic(auto, using(crate::proofs::EntryLaws::number_fields, crate::proofs::BitLaws::binary_at))]
pub(crate) fn entry_at(page: &[u8], at: usize) -> Entry
    requires { at ≤ page_bits places }
    ensures { result ≡ entry_at (bit_at page.now) at }
{
    let v = value(page, at, ENTRY_BITS);
    Entry {
        place: (v / ENDPOINTS / STATES) as usize,
        keyed: v / ENDPOINTS % STATES == 1,
        endpoint: (v % ENDPOINTS) as u32,
    }
}

// Whether the places of a page's entries rise, of as many as the list is long. If so, their endpoints stand in the list.
#[tactic(auto, using(crate::proofs::ScanLaws::rising_not, crate::proofs::ScanLaws::rising_next, crate::proofs::ScanLaws::place_below_lem, crate::proofs::NumbersLaws::endpoints_next, crate::proofs::BitLaws::binary_at))]
fn places_rise(page: &[u8], list: &mut [u32]) -> bool
    requires { length list.old ≤ places }
    ensures { (result ≡ rising 0 (entries_in page.now (length list.old))) × (result ≡ true → list.new ≡ map endpoint_of (entries_in page.now (length list.old))) }
{
    let mut least = 0;
    for (i, endpoint) in list.iter_mut().enumerate() {
        let e = entry_at(page, page_bits(i));
        if e.place < least {
            return false;
        }
        least = e.place + 1;
        *endpoint = e.endpoint;
    }
    true
}

// Whether the places of a page's entries rise and their endpoints differ. A single one has nothing to rise above.
#[tactic(auto, using(crate::proofs::ScanLaws::good_few, crate::proofs::NumbersLaws::distinct_apart, crate::proofs::BitLaws::binary_at))]
pub(crate) fn entries_good(page: &[u8], count: usize) -> bool
    requires { count ≤ places }
    ensures { result ≡ (rising 0 (entries_in page.now count) && distinct (entries_in page.now count)) }
{
    if count < 2 {
        return true;
    }
    let mut list = [0; PLACES];
    let endpoints = &mut list[..count];
    places_rise(page, endpoints) && differ(endpoints)
}
