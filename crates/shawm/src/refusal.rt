// A refusal among the numbers that an export answers.
ghost use Rattle.std.specs.Prelude.{◌≡◌, ◌^◌, ◌<◌};
ghost use Rattle.octets.specs.Refusal.{number_of};
ghost use Rattle.shawm.specs.Refusal as Spec;

use octets::Refusal;

// The top bit, which no other answer has.
const REFUSED: u32 = 0x8000_0000;

pub(crate) fn refused(refusal: Refusal) -> u32
    ensures { result ≡ Spec.refusal (number_of refusal) }
{
    REFUSED + u32::from(u8::from(refusal))
}

// Asks for an answer of 32 bits, as each of the calls below gives: see there.
pub(crate) fn count_or_refused(answer: Result<usize, Refusal>) -> u32
    requires { Spec.count_or_refused answer < 2 ^ 32 }
    ensures { result ≡ Spec.count_or_refused answer }
{
    answer.map_or_else(refused, |count| count as u32)
}
