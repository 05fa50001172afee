// The checks of unwrapping.
ghost use Rattle.std.specs.Prelude.{◌≡◌, ◌+◌, ◌*◌, ◌≤◌, ◌&&◌, eqb, length, drop};
ghost use Rattle.keywrap.specs.Inner as Inner;
ghost use Rattle.keywrap.specs.Inner.{RegistersFit};
ghost use Rattle.keywrap.specs.Padding as Spec;

use crate::limits::CIPHERTEXT;

// Whether a ciphertext may have that length.
#[tactic(auto, unfolding(crate::specs::Padding::length_fits))]
pub(crate) fn length_fits(n: usize) -> bool
    ensures { result ≡ Spec.length_fits n }
{
    octets::within(16, CIPHERTEXT, n) & (n % 8 == 0)
}

// 0 where the constant of the AIV is there: its octets, each xored with what it should be.
#[tactic(auto, using(crate::proofs::CodeLaws::mark_none))]
fn constant_fault(x: &[u8]) -> u8
    requires { 16 ≤ length x.now }
    ensures { eqb result 0 ≡ Spec.constant_right x.now }
{
    (x[0] ^ 0xa6) | (x[1] ^ 0x59) | (x[2] ^ 0x59) | (x[3] ^ 0xa6)
}

// 0 where all is well, else 1.
#[tactic(auto, using(crate::proofs::CodeLaws::fault_none, crate::proofs::CodeLaws::fault_fits))]
fn fault(well: bool) -> u8
    ensures { eqb result 0 ≡ well }
{
    1 - (well as u8)
}

// The message length indicator.
#[tactic(auto, unfolding(crate::specs::Padding::mli))]
pub(crate) fn mli(x: &[u8]) -> usize
    ensures { result ≡ Spec.mli x.now }
{
    octets::number32(x, 4) as usize
}

#[tactic(auto, unfolding(crate::specs::Padding::mli_fits))]
fn mli_fits(n: usize, m: usize) -> bool
    requires { (1 ≤ n) × (n ≤ 30) }
    ensures { result ≡ Spec.mli_fits n m }
{
    (8 * (n - 1) < m) & (m <= 8 * n)
}

// The octet where it counts, else 0: no branch.
#[tactic(auto, using(crate::proofs::CodeLaws::masked_product, crate::proofs::CodeLaws::masked_fits))]
fn masked(kept: bool, a: u8) -> u8
    ensures { result ≡ Inner.masked kept a }
{
    (kept as u8) * a
}

// No fault found before, and only octets 0 from an offset on. Every octet is read, wherever the offset is and whatever was
// found: what was found goes through the loop, so that the compiler has one test to make, and makes it last. Not by `all` or `any`,
// which end at the first fault.
fn zeros_from(x: &[u8], from: usize, found: u8) -> bool
    ensures { result ≡ (eqb found 0 && Spec.zeros (drop from x.now)) }
{
    let mut bad = found;
    for (i, a) in x.iter().enumerate() {
        bad = bad | masked(from <= i, *a);
    }
    bad == 0
}

// All checks are made, and what is told is only whether all were passed. Not inlined, so that the caller has one jump on it
// and none on what it was worked out from.
#[inline(never)]
pub(crate) fn verified(x: &[u8]) -> bool
    requires { RegistersFit x.now }
    ensures { result ≡ Spec.verified x.now }
{
    let m = mli(x);
    let n = x.len() / 8 - 1;
    let found = constant_fault(x) | fault(mli_fits(n, m));
    zeros_from(&x[8..], m, found)
}
