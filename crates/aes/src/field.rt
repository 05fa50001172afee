// Octets as elements of the field, and an octet of a column times each matrix.
ghost use Rattle.std.specs.Prelude.{◌≡◌};
ghost use Rattle.aes.specs.Field as Spec;
ghost use Rattle.aes.specs.State.{row_times};

#[tactic(auto, unfolding(crate::specs::Field::xtime, crate::specs::Field::xor))]
fn xtime(b: u8) -> u8
    ensures { result ≡ Spec.xtime b }
{
    (b % 128 * 2) ^ (b / 128 * 27)
}

// {04} times an octet.
#[tactic(auto, using(crate::proofs::MixLaws::four))]
fn four_times(b: u8) -> u8
    ensures { result ≡ Spec.mul 0x04 b }
{
    xtime(xtime(b))
}

#[tactic(auto, using(crate::proofs::MixLaws::mix_octet), unfolding(crate::specs::Field::xor))]
pub(crate) fn mix_octet(a: u8, b: u8, c: u8, d: u8) -> u8
    ensures { result ≡ row_times 0x02 0x03 0x01 0x01 a b c d }
{
    xtime(a ^ b) ^ b ^ (c ^ d)
}

// The inverse matrix is the matrix, after two multiples of {04}.
#[tactic(auto, using(crate::proofs::MixLaws::inv_mix_octet), unfolding(crate::specs::Field::xor))]
pub(crate) fn inv_mix_octet(a: u8, b: u8, c: u8, d: u8) -> u8
    ensures { result ≡ row_times 0x0e 0x0b 0x0d 0x09 a b c d }
{
    let u = four_times(a ^ c);
    let v = four_times(b ^ d);
    mix_octet(a ^ u, b ^ v, c ^ u, d ^ v)
}
