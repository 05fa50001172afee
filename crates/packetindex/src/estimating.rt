// The estimate of a packet's index: the ROC tried is one less, the same or one more.
ghost use Rattle.std.specs.Prelude.{◌≡◌};
ghost use Rattle.packetindex.specs.Estimating.{neighbour_of, roc_tried, estimating, answer_of};

use crate::stream::{Stream, index_of};
use octets::Refusal;

// Half of the sequence numbers.
const HALF_WAY: u16 = 32768;

// 2^32 - 1, which is one less than 0.
const LAST_ROC: u32 = 4294967295;

// The ROC tried, by the one that is kept.
#[derive(Clone, Copy)]
enum Neighbour {
    OneLess,
    Same,
    OneMore,
}

// The ROC tried, and the index under it.
#[derive(Clone, Copy, Debug, PartialEq, Eq)]
pub struct Estimate {
    pub roc: u32,
    pub index: u64,
}

// The half-way rule.
#[tactic(auto, unfolding(crate::specs::Estimating::neighbour_of))]
fn neighbour_of(highest: u16, sequence: u16) -> Neighbour
    ensures { result ≡ neighbour_of highest sequence }
{
    if highest < HALF_WAY {
        if highest + HALF_WAY < sequence {
            Neighbour::OneLess
        } else {
            Neighbour::Same
        }
    } else {
        if sequence < highest - HALF_WAY {
            Neighbour::OneMore
        } else {
            Neighbour::Same
        }
    }
}

// The ROC tried, modulo 2^32: it wraps by a rule of the project (docs/DECISIONS.md, "ROC neighbours"), so that no checked_sub
// or checked_add tells the refusals.
fn roc_tried(roc: u32, neighbour: Neighbour) -> u32
    ensures { result ≡ roc_tried roc neighbour }
{
    match neighbour {
        Neighbour::OneLess => roc.wrapping_sub(1),
        Neighbour::Same => roc,
        Neighbour::OneMore => roc.wrapping_add(1),
    }
}

impl Stream {
    // The index of the packet with this sequence number, or refusal 31 or 32.
    #[tactic(auto, unfolding(crate::specs::Estimating::estimating))]
    pub fn estimate(self, sequence: u16) -> Result<Estimate, Refusal>
        ensures { answer_of result ≡ estimating self sequence }
    {
        let neighbour = neighbour_of(self.highest, sequence);
        let roc = roc_tried(self.roc, neighbour);
        match neighbour {
            Neighbour::OneLess if roc == LAST_ROC => Err(Refusal::NoSuchIndex),
            Neighbour::OneMore if roc == 0 => Err(Refusal::KeySpent),
            _ => Ok(Estimate {
                roc,
                index: index_of(roc, sequence),
            }),
        }
    }
}
