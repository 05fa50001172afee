// What a receiver keeps of a stream, and the index that it comes to.
ghost use Rattle.std.specs.Prelude.{◌≡◌};
ghost use Rattle.packetindex.specs.Estimating.{index_of};

// How many sequence numbers there are, and so how many indices under one ROC.
const SEQUENCE_COUNT: u64 = 65536;

// The ROC, and the highest sequence number seen under it.
#[derive(Clone, Copy, Debug, PartialEq, Eq)]
pub struct Stream {
    pub roc: u32,
    pub highest: u16,
}

// The index of a sequence number under a ROC.
pub(crate) fn index_of(roc: u32, sequence: u16) -> u64
    ensures { result ≡ index_of roc sequence }
{
    u64::from(roc) * SEQUENCE_COUNT + u64::from(sequence)
}
