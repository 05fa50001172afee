// The index of an SRTP packet, and what is kept of its stream, as numbers.
ghost use Rattle.std.specs.Prelude.{◌≡◌};
ghost use Rattle.packetindex.specs.Estimating as Estimating;
ghost use Rattle.packetindex.specs.Updating as Updating;
ghost use Rattle.shawm.specs.Index.{stream_of, estimate_number, index_number};

use crate::refusal::refused;
use packetindex::Stream;

// What is kept after a packet: a refusal changes nothing.
fn next(roc: u32, highest: u16, sequence: u16) -> Stream
    ensures { result ≡ Updating.next (stream_of roc highest) sequence }
{
    let stream = Stream { roc, highest };
    stream.update(sequence).unwrap_or(stream)
}

// 0 where a packet with this sequence number has an index, else refusal 31 or 32.
#[unsafe(no_mangle)]
pub extern "C" fn shawm_index_estimate(roc: u32, highest: u16, sequence: u16) -> u32
    ensures { result ≡ estimate_number (Estimating.estimating (stream_of roc highest) sequence) }
{
    let answer = Stream { roc, highest }.estimate(sequence);
    answer.map_or_else(refused, |_| 0)
}

// Its index; 0 where it is refused, as C has no Option.
#[unsafe(no_mangle)]
pub extern "C" fn shawm_index_number(roc: u32, highest: u16, sequence: u16) -> u64
    ensures { result ≡ index_number (Estimating.estimating (stream_of roc highest) sequence) }
{
    let packet = Stream { roc, highest }.estimate(sequence);
    packet.map_or(0, |found| found.index)
}

// The ROC to keep once the packet was accepted.
#[unsafe(no_mangle)]
pub extern "C" fn shawm_index_kept_roc(roc: u32, highest: u16, sequence: u16) -> u32
    ensures { result ≡ (Updating.next (stream_of roc highest) sequence).roc }
{
    next(roc, highest, sequence).roc
}

// The highest sequence number to keep once the packet was accepted.
#[unsafe(no_mangle)]
pub extern "C" fn shawm_index_kept_highest(roc: u32, highest: u16, sequence: u16) -> u32
    ensures { result ≡ (Updating.next (stream_of roc highest) sequence).highest }
{
    u32::from(next(roc, highest, sequence).highest)
}
