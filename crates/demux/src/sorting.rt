// Packets of several protocols that arrive at one port, told apart by their first octet.
ghost use Rattle.std.specs.Prelude.{◌≡◌};
ghost use Rattle.demux.specs.Sorting.{kind_of, sorting, answer_of};

use octets::Refusal;

#[derive(Clone, Copy, Debug, PartialEq, Eq)]
pub enum Kind {
    Stun,
    // RFC 6189.
    Zrtp,
    Dtls,
    // TURN's ChannelData: RFC 8656, section 12.
    TurnChannel,
    // RTP or RTCP.
    Rtp,
    Other,
}

// The kind that a first octet stands for.
impl From<u8> for Kind {
    ghost from_gives = { λ first kind. kind ≡ kind_of first };

    #[tactic(auto, using(octets::proofs::RangeLaws::arms), unfolding(crate::specs::Sorting::kind_of))]
    fn from(first: u8) -> Kind {
        match first {
            0..=3 => Kind::Stun,
            16..=19 => Kind::Zrtp,
            20..=63 => Kind::Dtls,
            64..=79 => Kind::TurnChannel,
            128..=191 => Kind::Rtp,
            _ => Kind::Other,
        }
    }
}

// The kind of a packet; no octet but the first is looked at.
#[tactic(auto, unfolding(crate::specs::Sorting::sorting))]
pub fn sort(packet: &[u8]) -> Result<Kind, Refusal>
    ensures { answer_of result ≡ sorting packet.now }
{
    let first = packet.first().ok_or(Refusal::EmptyPacket)?;
    Ok(Kind::from(*first))
}
