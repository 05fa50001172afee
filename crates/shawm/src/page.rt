// A status page, as numbers: how many entries it has, and each entry.
ghost use Rattle.std.specs.Prelude.{◌≡◌, ◌+◌, ◌*◌, ◌^◌, ◌<◌, ◌≤◌};
ghost use Rattle.status.specs.Entries.{state_of};
ghost use Rattle.status.specs.Page.{counting, picking, picked_of};
ghost use Rattle.shawm.specs.Page as Spec;

use crate::refusal::{count_or_refused, refused};
use octets::Refusal;
use status::Entry;

// Asks for an answer of 32 bits, as that of every entry is: its place is one of the table.
fn entry_number(answer: Result<Entry, Refusal>) -> u32
    requires { Spec.entry_number (picked_of answer) < 2 ^ 32 }
    ensures { result ≡ Spec.entry_number (picked_of answer) }
{
    match answer {
        Ok(entry) => entry.place as u32 * 2 + u32::from(entry.keyed),
        Err(refusal) => refused(refusal),
    }
}

// The number of entries, or refusal 29.
#[tactic(auto, using(crate::proofs::PageLaws::count_fits))]
#[unsafe(no_mangle)]
pub extern "C" fn shawm_page_count(page: &[u8]) -> u32
    ensures { result ≡ Spec.count_number (counting page.now) }
{
    count_or_refused(status::read_page(page))
}

// Twice the place of the entry with this number, and 1 more where it is keyed; or refusal 29.
#[tactic(auto, using(crate::proofs::PageLaws::entry_fits))]
#[unsafe(no_mangle)]
pub extern "C" fn shawm_page_entry(page: &[u8], number: usize) -> u32
    ensures { result ≡ Spec.entry_number (picking page.now number) }
{
    entry_number(status::read_entry(page, number))
}

// The endpoint of the entry with this number; 0 where there is none.
#[unsafe(no_mangle)]
pub extern "C" fn shawm_page_endpoint(page: &[u8], number: usize) -> u32
    ensures { result ≡ Spec.endpoint_number (picking page.now number) }
{
    status::read_entry(page, number).map_or(0, |entry| entry.endpoint)
}
