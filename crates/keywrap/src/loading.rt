// What the key wrap process starts with: the key schedule, and the registers of a plaintext, with the AIV before it and
// octets 0 behind it.
ghost use Rattle.std.specs.Prelude.{◌≡◌, ◌+◌, ◌≤◌, ◌<◌, length};
ghost use Rattle.aes.specs.KeyExpansion.{key_expansion};
ghost use Rattle.keywrap.specs.Limits.{plaintext_most};
ghost use Rattle.keywrap.specs.Padding as Spec;

use crate::limits::KEY;
use aes::expand;

// The schedule of a key, put where the caller keeps it. What is copied on the way lies in this function's own stretch of the
// stack, which its next call overwrites.
#[inline(never)]
pub(crate) fn load_schedule(key: &[u8; KEY], w: &mut [u8; 176])
    ensures { w.new ≡ key_expansion key.now }
{
    *w = expand(*key);
}

// The length of the ciphertext of m octets.
#[tactic(auto, unfolding(crate::specs::Padding::padding))]
pub(crate) fn wrapped_length(m: usize) -> usize
    requires { m ≤ plaintext_most }
    ensures { result ≡ 8 + (m + Spec.padding m) }
{
    8 + (m + (8 - m % 8) % 8)
}

// The registers of a plaintext.
pub(crate) fn load(plaintext: &[u8], x: &mut [u8])
    requires { (1 ≤ length plaintext.now) × (length plaintext.now ≤ plaintext_most) × (length x.old ≡ length (Spec.initial_registers plaintext.now)) }
    ensures { x.new ≡ Spec.initial_registers plaintext.now }
{
    let m = plaintext.len();
    // The padding is in the last register. To fill all of x, C's memset would be called.
    let last = x.len() - 8;
    x[last..].copy_from_slice(&[0; 8]);
    x[..8].copy_from_slice(&[0xa6, 0x59, 0x59, 0xa6, 0, 0, 0, m as u8]);
    x[8..8 + m].copy_from_slice(plaintext);
}
