// What is kept of a stream after a packet was accepted.
ghost use Rattle.std.specs.Prelude.{◌≡◌};
ghost use Rattle.packetindex.specs.Updating.{later, updating, answer_of};

use crate::estimating::Estimate;
use crate::stream::{Stream, index_of};
use octets::Refusal;

// The packet's ROC and sequence number where its index is higher, else what was kept.
#[tactic(auto, unfolding(crate::specs::Updating::later))]
fn later_of(stream: Stream, sequence: u16, packet: Estimate) -> Stream
    ensures { result ≡ later stream sequence packet.roc packet.index }
{
    if index_of(stream.roc, stream.highest) < packet.index {
        Stream {
            roc: packet.roc,
            highest: sequence,
        }
    } else {
        stream
    }
}

impl Stream {
    // What to keep after a packet with this sequence number was accepted, or the estimate's refusal: what was kept stays.
    #[tactic(auto, unfolding(crate::specs::Updating::updating))]
    pub fn update(self, sequence: u16) -> Result<Stream, Refusal>
        ensures { answer_of result ≡ updating self sequence }
    {
        let packet = self.estimate(sequence)?;
        Ok(later_of(self, sequence, packet))
    }
}
