// A message at the front of lent octets.
ghost use Rattle.std.specs.Prelude.{◌≡◌, ◌+◌};
ghost use Rattle.octets.specs.Part.{part};
ghost use Rattle.message.specs.Limits.{header};
ghost use Rattle.message.specs.Body.{content};
ghost use Rattle.message.specs.Read as Spec;

use crate::bodies::{Fields, read_body};
use crate::framing::{Frame, Kind, read_frame};
use crate::limits::HEADER;
use octets::Refusal;

// A message that was read, and the octets that it took.
#[derive(Clone, Copy)]
pub struct Message {
    pub fields: Fields,
    pub taken: usize,
}

// A refusal, and the octets that are taken all the same.
#[derive(Clone, Copy, Debug, PartialEq, Eq)]
pub struct Refused {
    pub refusal: Refusal,
    pub taken: usize,
}

// A whole message: it is taken, refused or not.
fn read_whole(s: &[u8], kind: Kind, body_length: u16) -> Result<Option<Message>, Refused>
    ensures { Spec.answer_of result ≡ Spec.body_answer (header + body_length) (content kind (part s.now header (header + body_length))) }
{
    let taken = HEADER + body_length as usize;
    match read_body(kind, octets::part(s, HEADER, taken)) {
        Ok(fields) => Ok(Some(Message { fields, taken })),
        Err(refusal) => Err(Refused { refusal, taken }),
    }
}

// None where more octets are needed: nothing is taken.
#[tactic(auto, unfolding(crate::specs::Read::reading))]
pub fn read_message(s: &[u8]) -> Result<Option<Message>, Refused>
    ensures { Spec.answer_of result ≡ Spec.reading s.now }
{
    match read_frame(s)? {
        None => Ok(None),
        Some(Frame::Version { version }) => Ok(Some(Message {
            fields: Fields::UnsupportedVersion { version },
            taken: s.len(),
        })),
        Some(Frame::Whole { kind, body_length }) => read_whole(s, kind, body_length),
    }
}
