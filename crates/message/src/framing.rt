// What the front of lent octets holds before a body is looked at.
ghost use Rattle.std.specs.Prelude.{◌≡◌, ◌≤◌, length};
ghost use Rattle.octets.specs.Number.{number16_at};
ghost use Rattle.message.specs.Limits.{header};
ghost use Rattle.message.specs.Frame as Spec;

use crate::limits::{BODY_LIMIT, HEADER};
use crate::reading::Refused;
use octets::Refusal;

// What the type octet says, by its number (RFC 9185, section 6.1). 6 to 255 are not listed either.
#[derive(Clone, Copy, Debug, PartialEq, Eq)]
pub enum Kind {
    Unlisted = 0,
    SupportedProfiles = 1,
    UnsupportedVersion = 2,
    MediaKeys = 3,
    TunneledDtls = 4,
    EndpointDisconnect = 5,
}

#[derive(Clone, Copy, Debug, PartialEq, Eq)]
pub enum Frame {
    // An accepted UnsupportedVersion: every lent octet is taken.
    Version { version: u8 },
    // A whole message.
    Whole { kind: Kind, body_length: u16 },
}

// The type octet of a kind, and 0 of what is not listed.
impl From<Kind> for u8 {
    ghost from_gives = { λ kind message_type. message_type ≡ Spec.octet_of kind };

    fn from(kind: Kind) -> u8 {
        kind as u8
    }
}

// An UnsupportedVersion of length 0: its header is taken.
const EMPTY_VERSION: Refused = Refused {
    refusal: Refusal::BadBody,
    taken: HEADER,
};

// A body above the limit: nothing is taken.
const OVERSIZE: Refused = Refused {
    refusal: Refusal::Oversize,
    taken: 0,
};

// The kind that a type octet stands for.
impl From<u8> for Kind {
    ghost from_gives = { λ message_type kind. kind ≡ Spec.kind_of message_type };

    #[tactic(auto, unfolding(crate::specs::Frame::kind_of))]
    fn from(message_type: u8) -> Kind {
        match message_type {
            1 => Kind::SupportedProfiles,
            2 => Kind::UnsupportedVersion,
            3 => Kind::MediaKeys,
            4 => Kind::TunneledDtls,
            5 => Kind::EndpointDisconnect,
            0 | 6..=255 => Kind::Unlisted,
        }
    }
}

// An UnsupportedVersion, never waited for beyond its fourth octet. Here and below the header is there, and its length was read.
#[tactic(auto, using(octets::proofs::Tests::tests), unfolding(crate::specs::Frame::version_frame))]
fn version_of(s: &[u8], body_length: u16) -> Result<Option<Frame>, Refused>
    requires { (header ≤ length s.now) × (body_length ≡ number16_at s.now 1) }
    ensures { Spec.framing_of result ≡ Spec.version_frame s.now }
{
    if body_length == 0 {
        return Err(EMPTY_VERSION);
    }
    if s.len() < HEADER + 1 {
        return Ok(None);
    }
    Ok(Some(Frame::Version {
        version: octets::octet(s, HEADER),
    }))
}

// A message of any type, within the limit and whole.
#[tactic(auto, using(octets::proofs::Tests::tests), unfolding(crate::specs::Frame::plain_frame))]
fn plain_of(s: &[u8], body_length: u16) -> Result<Option<Frame>, Refused>
    requires { (header ≤ length s.now) × (body_length ≡ number16_at s.now 1) }
    ensures { Spec.framing_of result ≡ Spec.plain_frame s.now }
{
    if body_length <= BODY_LIMIT {
        if HEADER + body_length as usize <= s.len() {
            let kind = Kind::from(octets::octet(s, 0));
            return Ok(Some(Frame::Whole { kind, body_length }));
        }
        return Ok(None);
    }
    Err(OVERSIZE)
}

// Lent octets as an UnsupportedVersion, whatever their type says; none where more are needed.
#[tactic(auto, unfolding(crate::specs::Frame::version_frame))]
pub fn version_frame(s: &[u8]) -> Result<Option<Frame>, Refused>
    ensures { Spec.framing_of result ≡ Spec.version_frame s.now }
{
    if s.len() < HEADER {
        return Ok(None);
    }
    version_of(s, octets::number16(s, 1))
}

// Lent octets as a message of any type. A function of both framings would take the rest as a closure and be longer than the three
// lines that they share.
#[tactic(auto, unfolding(crate::specs::Frame::plain_frame))]
pub fn plain_frame(s: &[u8]) -> Result<Option<Frame>, Refused>
    ensures { Spec.framing_of result ≡ Spec.plain_frame s.now }
{
    if s.len() < HEADER {
        return Ok(None);
    }
    plain_of(s, octets::number16(s, 1))
}

// By the type octet. Here and in `plain_of` the tests that most octets pass come first: a compiler lays their way out straight.
#[tactic(auto, using(crate::proofs::FrameChoice::by_neither, crate::proofs::FrameChoice::by_version, crate::proofs::FrameChoice::by_plain))]
pub fn read_frame(s: &[u8]) -> Result<Option<Frame>, Refused>
    ensures { Spec.framing_of result ≡ Spec.frame s.now }
{
    if HEADER <= s.len() {
        let body_length = octets::number16(s, 1);
        if octets::octet(s, 0) != Kind::UnsupportedVersion as u8 {
            plain_of(s, body_length)
        } else {
            version_of(s, body_length)
        }
    } else {
        Ok(None)
    }
}
