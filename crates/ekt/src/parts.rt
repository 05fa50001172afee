// The parts of a packet with a tag, lent from the packet itself. A part that is not there is empty.
// Bounds of an answer, refused or not, and no Option: C is answered 0 to 0 where there is no such part.
ghost use Rattle.std.specs.Prelude.{◌≡◌};
ghost use Rattle.ekt.specs.Splitting.{answer_of};
ghost use Rattle.ekt.specs.Parts as Spec;

use crate::splitting::{Tag, split};
use octets::{Bounds, NOWHERE, Refusal};

// Where the packet in front of its tag stands.
pub fn front_bounds(answer: Result<Tag, Refusal>) -> Bounds
    ensures { result ≡ Spec.front_bounds (answer_of answer) }
{
    match answer {
        Ok(Tag::Short { start } | Tag::Full { start, .. } | Tag::Extension { start, .. }) =>
            Bounds {
                start: 0,
                end: start,
            },
        Err(_) => NOWHERE,
    }
}

// Where the ciphertext of a Full tag stands.
pub fn ciphertext_bounds(answer: Result<Tag, Refusal>) -> Bounds
    ensures { result ≡ Spec.ciphertext_bounds (answer_of answer) }
{
    match answer {
        Ok(Tag::Full { start, end, .. }) => Bounds { start, end },
        _ => NOWHERE,
    }
}

// Where the data of an Extension tag stands.
pub fn data_bounds(answer: Result<Tag, Refusal>) -> Bounds
    ensures { result ≡ Spec.data_bounds (answer_of answer) }
{
    match answer {
        Ok(Tag::Extension { start, end, .. }) => Bounds { start, end },
        _ => NOWHERE,
    }
}

// The packet in front of its tag.
pub fn front(packet: &[u8]) -> &[u8]
    ensures { Spec.PartBy Spec.front_bounds packet.entry result }
{
    octets::part_in(packet, front_bounds(split(packet)))
}

// The ciphertext of a Full tag.
pub fn ciphertext(packet: &[u8]) -> &[u8]
    ensures { Spec.PartBy Spec.ciphertext_bounds packet.entry result }
{
    octets::part_in(packet, ciphertext_bounds(split(packet)))
}

// The data of an Extension tag.
pub fn extension_data(packet: &[u8]) -> &[u8]
    ensures { Spec.PartBy Spec.data_bounds packet.entry result }
{
    octets::part_in(packet, data_bounds(split(packet)))
}
