// The kind of a request by its first octet.
ghost use Rattle.std.specs.Prelude.{◌≡◌};
ghost use Rattle.service.specs.Request as Spec;

#[derive(Clone, Copy, Debug, PartialEq, Eq)]
pub enum Kind {
    Start,
    Open,
    BoothPacket,
    TunnelOctets,
    Close,
    End,
    Look,
    WritePage,
    Unknown,
}

impl From<u8> for Kind {
    ghost from_gives = { λ first kind. kind ≡ Spec.kind_of first };

    #[tactic(auto, using(octets::proofs::Tests::tests), unfolding(crate::specs::Request::kind_of))]
    fn from(first: u8) -> Kind {
        match first {
            1 => Kind::Start,
            2 => Kind::Open,
            3 => Kind::BoothPacket,
            4 => Kind::TunnelOctets,
            5 => Kind::Close,
            6 => Kind::End,
            7 => Kind::Look,
            8 => Kind::WritePage,
            0 | 9..=255 => Kind::Unknown,
        }
    }
}
