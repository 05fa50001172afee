// The key wrap process and its inverse, in place.
ghost use Rattle.std.specs.Prelude.{◌≡◌, ◌+◌, ◌*◌, ◌%◌, ◌≤◌, ◌<◌, List, ℕ, length};
ghost use Rattle.aes.specs.Cipher.{cipher, inv_cipher};
ghost use Rattle.keywrap.specs.Inner.{RegistersFit};
ghost use Rattle.keywrap.specs.KeyWrap as Spec;
ghost use Rattle.keywrap.specs.Padding as Padding;

use crate::registers::{block, replace, xor_count};
use aes::{decrypt_block, encrypt_block};

#[tactic(auto, unfolding(crate::specs::KeyWrap::register_at, crate::specs::KeyWrap::register_count))]
fn register(x: &[u8], t: u8) -> usize
    requires { (1 ≤ t) × (16 ≤ length x.now) }
    ensures { result ≡ Spec.register_at (Spec.register_count x.now) t }
{
    let n = x.len() / 8 - 1;
    (t as usize - 1) % n + 1
}

// A and the register of step t through f. No struct of lent registers for what `RegistersFit` says: they are the caller's
// array, and a struct to lend on is no plainer.
#[tactic(auto, using(crate::proofs::CodeLaws::in_reach), unfolding(crate::specs::KeyWrap::step))]
fn step<F: Fn([u8; 16]) -> [u8; 16]>(t: u8, x: &mut [u8], f: F)
    requires { (1 ≤ t) × RegistersFit x.old × F.IsAlwaysCallable f }
    ensures { (b : List ℕ) × F.post f (Spec.block (Spec.register_at (Spec.register_count x.old) t) x.old) b × (x.new ≡ Spec.step t (λ _. b) x.old) }
{
    let i = register(x, t);
    let b = f(block(x, i));
    replace(x, i, b);
}

#[tactic(auto, using(crate::proofs::CodeLaws::one_block, crate::proofs::CodeLaws::one_replaced), unfolding(crate::specs::Padding::wrap_registers, crate::specs::KeyWrap::register_count))]
pub(crate) fn wrap_registers(w: &[u8; 176], x: &mut [u8])
    requires { (length x.old % 8 ≡ 0) × RegistersFit x.old }
    ensures { x.new ≡ Padding.wrap_registers w.now x.old }
{
    let n = x.len() / 8 - 1;
    if n == 1 {
        let b = encrypt_block(w, block(x, 1));
        replace(x, 1, b);
        return;
    }
    wrap_steps(w, 6 * n as u8, x);
}

// The first steps.
#[inline(never)]
pub(crate) fn wrap_steps(w: &[u8; 176], steps: u8, x: &mut [u8])
    requires { RegistersFit x.old }
    ensures { x.new ≡ Spec.wrap_steps w.now steps x.old }
{
    for t in 1..=steps {
        step(
            t,
            x,
            |b|
                ensures { result ≡ Spec.xor_count t (cipher w.entry.now b) }
            { xor_count(t, encrypt_block(w, b)) },
        );
    }
}

// Not one function with `wrap_registers`: it would take the cipher of one block and the steps, and be no shorter.
#[tactic(auto, using(crate::proofs::CodeLaws::one_block, crate::proofs::CodeLaws::one_replaced), unfolding(crate::specs::Padding::unwrap_registers, crate::specs::KeyWrap::register_count))]
pub(crate) fn unwrap_registers(w: &[u8; 176], x: &mut [u8])
    requires { (length x.old % 8 ≡ 0) × RegistersFit x.old }
    ensures { x.new ≡ Padding.unwrap_registers w.now x.old }
{
    let n = x.len() / 8 - 1;
    if n == 1 {
        let b = decrypt_block(w, block(x, 1));
        replace(x, 1, b);
        return;
    }
    unwrap_steps(w, 6 * n as u8, x);
}

// The first steps undone, from the last of them on.
#[inline(never)]
pub(crate) fn unwrap_steps(w: &[u8; 176], steps: u8, x: &mut [u8])
    requires { RegistersFit x.old }
    ensures { x.new ≡ Spec.unwrap_steps w.now steps x.old }
{
    for t in (1..=steps).rev() {
        step(
            t,
            x,
            |b|
                ensures { result ≡ inv_cipher w.entry.now (Spec.xor_count t b) }
            { decrypt_block(w, xor_count(t, b)) },
        );
    }
}
