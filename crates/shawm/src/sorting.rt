// The kind of a packet as a number, one of C's: one that was given stays.
ghost use Rattle.std.specs.Prelude.{◌≡◌};
ghost use Rattle.demux.specs.Sorting.{sorting};
ghost use Rattle.shawm.specs.Sorting.{kind_number, sort_number};

use crate::refusal::refused;
use demux::Kind;

fn kind_number(kind: Kind) -> u32
    ensures { result ≡ kind_number kind }
{
    match kind {
        Kind::Stun => 0,
        Kind::Dtls => 1,
        Kind::Rtp => 2,
        Kind::Other => 3,
        Kind::Zrtp => 4,
        Kind::TurnChannel => 5,
    }
}

// The kind of a packet, or refusal 19.
#[unsafe(no_mangle)]
pub extern "C" fn shawm_sort(packet: &[u8]) -> u32
    ensures { result ≡ sort_number (sorting packet.now) }
{
    demux::sort(packet).map_or_else(refused, kind_number)
}
