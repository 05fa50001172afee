// The registers A and R[1] to R[n] in a slice, 8 octets each.
ghost use Rattle.std.specs.Prelude.{◌≡◌, ◌+◌, ◌*◌, ◌≤◌, ◌<◌, length};
ghost use Rattle.keywrap.specs.KeyWrap as Spec;

// A and R[i] as one block.
pub(crate) fn block(x: &[u8], i: usize) -> [u8; 16]
    requires { (1 ≤ i) × (i < 32) × (8 * i + 8 ≤ length x.now) }
    ensures { result ≡ Spec.block i x.now }
{
    let mut b = [0; 16];
    b[..8].copy_from_slice(&x[..8]);
    b[8..].copy_from_slice(&x[8 * i..8 * i + 8]);
    b
}

// A block back into A and R[i].
#[tactic(auto, using(crate::proofs::CodeLaws::put_both, crate::proofs::CodeLaws::second_half))]
pub(crate) fn replace(x: &mut [u8], i: usize, b: [u8; 16])
    requires { (1 ≤ i) × (i < 32) × (8 * i + 8 ≤ length x.old) }
    ensures { x.new ≡ Spec.replaced i b x.old }
{
    x[..8].copy_from_slice(&b[..8]);
    x[8 * i..8 * i + 8].copy_from_slice(&b[8..]);
}

// MSB(64, b) ^ t, the rest as it is.
pub(crate) fn xor_count(t: u8, b: [u8; 16]) -> [u8; 16]
    ensures { result ≡ Spec.xor_count t b }
{
    let mut c = b;
    c[7] = b[7] ^ t;
    c
}
