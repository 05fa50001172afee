// Reading a status page.
ghost use Rattle.std.specs.Prelude.{◌≡◌, ◌≤◌};
ghost use Rattle.octets.specs.Part.{same};
ghost use Rattle.status.specs.Limits.{places};
ghost use Rattle.status.specs.Page.{count_of, decoded, layout, counting, counted_of, picking, picked_of};

use crate::bits::value;
use crate::entries::{entries_good, entry_at};
use crate::entry::Entry;
use crate::limits::{COUNT_BITS, PLACES, octets_for, page_bits};
use octets::{Refusal, octet};

// The number of entries that octets speak of.
#[tactic(auto, unfolding(crate::specs::Page::count_of))]
fn count_of(page: &[u8]) -> usize
    ensures { result ≡ count_of page.now }
{
    value(page, 0, COUNT_BITS) as usize
}

// Whether octets are as many as for a page with so many entries, and filled with zero bits.
#[tactic(auto, using(crate::proofs::PageLaws::laid_tests))]
fn laid_out(page: &[u8], count: usize) -> bool
    requires { (count ≡ count_of page.now) × (count ≤ places) }
    ensures { result ≡ same (layout (decoded page.now)) page.now }
{
    let bits = page_bits(count);
    let octets = octets_for(bits);
    let last = octet(page, octets - 1) as u64;
    (page.len() == octets) & (last % (1 << (octets * 8 - bits)) == 0)
}

// The number of entries of a page, or refusal 29.
#[tactic(auto, using(crate::proofs::ReadLaws::page_tests, crate::proofs::ReadLaws::page_few), unfolding(crate::specs::Page::counting))]
pub fn read_page(page: &[u8]) -> Result<usize, Refusal>
    ensures { counted_of result ≡ counting page.now }
{
    let count = count_of(page);
    if PLACES < count || !laid_out(page, count) || !entries_good(page, count) {
        return Err(Refusal::NotAPage);
    }
    Ok(count)
}

// The nth entry of a page, counted from 0, or refusal 29.
#[tactic(auto, using(crate::proofs::ReadLaws::page_few, crate::proofs::ReadLaws::nth_read), unfolding(crate::specs::Page::counting, crate::specs::Page::picking))]
pub fn read_entry(page: &[u8], n: usize) -> Result<Entry, Refusal>
    ensures { picked_of result ≡ picking page.now n }
{
    let count = read_page(page)?;
    if n < count {
        Ok(entry_at(page, page_bits(n)))
    } else {
        Err(Refusal::NotAPage)
    }
}
