// Bits of octets, the most significant first: read eight octets at a time.
ghost use Rattle.std.specs.Prelude.{◌≡◌, ◌*◌, ◌≤◌, ◌<◌};
ghost use Rattle.status.specs.Limits.{places, page_bits, field_bits};
ghost use Rattle.status.specs.Bits.{value_of, bit_at};

use octets::{octet, part};

// Eight octets as one number, those past the end 0. Of eight that are there a compiler makes one load.
fn word(s: &[u8], at: usize) -> u64
    requires { at ≤ page_bits places }
    ensures { result ≡ value_of (bit_at s.now) (at * 8) 64 }
{
    match part(s, at, at + 8).first_chunk() {
        Some(eight) => u64::from_be_bytes(*eight),
        None => u64::from_be_bytes(std::array::from_fn(|i| octet(s, at + i))),
    }
}

// The number that so many bits stand for from bit `at` on.
#[tactic(auto, using(crate::proofs::WordLaws::read_field))]
pub(crate) fn value(s: &[u8], at: usize, width: usize) -> u64
    requires { (at ≤ page_bits places) × (0 < width) × (width ≤ field_bits) }
    ensures { result ≡ value_of (bit_at s.now) at width }
{
    (word(s, at / 8) >> (64 - at % 8 - width)) % (1 << width)
}
