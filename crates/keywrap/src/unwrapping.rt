// Unwrapping: a ciphertext becomes the plaintext at the front of the output, if some plaintext wraps to it.
ghost use Rattle.std.specs.Prelude.{◌≡◌, true, ◌%◌, ◌≤◌, length};
ghost use Rattle.keywrap.specs.Calls.{unwrapping, Writes, answer_of};
ghost use Rattle.keywrap.specs.Claims.{Unwraps};
ghost use Rattle.keywrap.specs.Inner.{taking, RegistersFit};
ghost use Rattle.keywrap.specs.Padding as Spec;

use crate::checks::{length_fits, mli, verified};
use crate::clearing::forget;
use crate::limits::CIPHERTEXT;
use crate::loading::load_schedule;
use crate::process::unwrap_registers;
use octets::Refusal;

// Refusals 34; 22; 13. Beside the equation the contract says when some plaintext wraps to the ciphertext, and which.
pub fn unwrap(key: &[u8], ciphertext: &[u8], out: &mut [u8]) -> Result<usize, Refusal>
    ensures { Writes (unwrapping key.now ciphertext.now (length out.old)) (Spec.unwrap key.now ciphertext.now) out.old out.new (answer_of result) × Unwraps key.now ciphertext.now out.old out.new (answer_of result) }
{
    octets::holds_octets(key);
    octets::holds_octets(ciphertext);
    unwrap_lent(key, ciphertext, out)
}

#[tactic(auto, using(crate::proofs::CallLaws::settled, crate::proofs::CallLaws::when_other_length, crate::proofs::CallLaws::not_fitting, crate::proofs::PaddingLaws::fitting_most))]
fn unwrap_lent(key: &[u8], c: &[u8], out: &mut [u8]) -> Result<usize, Refusal>
    ensures { Writes (unwrapping key.now c.now (length out.old)) (Spec.unwrap key.now c.now) out.old out.new (answer_of result) }
{
    let Some(key) = key.as_array() else {
        return Err(Refusal::EktKeyOrSaltLength);
    };
    if !length_fits(c.len()) {
        return Err(Refusal::BadCiphertext);
    }
    let n = c.len();
    let mut w = [0; 176];
    load_schedule(key, &mut w);
    let mut x = [0; CIPHERTEXT];
    let answer = unwrap_in(&w, c, &mut x[..n], out);
    cleared(answer, forget(&mut w, &mut x, n))
}

// With a key schedule, and registers to work in.
fn unwrap_in(w: &[u8; 176], c: &[u8], x: &mut [u8], out: &mut [u8]) -> Result<usize, Refusal>
    requires { (Spec.length_fits (length c.now) ≡ true) × (length x.old ≡ length c.now) }
    ensures { Writes (taking (Spec.unwrap_registers w.now c.now) (length out.old)) (Spec.plaintext_in (Spec.unwrap_registers w.now c.now)) out.old out.new (answer_of result) }
{
    x.copy_from_slice(c);
    unwrap_registers(w, x);
    take_plaintext(x, out)
}

// What the registers hold, if they pass the checks.
#[tactic(auto, using(crate::proofs::CallLaws::settled, crate::proofs::CallLaws::take_refused))]
fn take_plaintext(x: &[u8], out: &mut [u8]) -> Result<usize, Refusal>
    requires { (length x.now % 8 ≡ 0) × RegistersFit x.now }
    ensures { Writes (taking x.now (length out.old)) (Spec.plaintext_in x.now) out.old out.new (answer_of result) }
{
    if !verified(x) {
        return Err(Refusal::BadCiphertext);
    }
    let m = mli(x);
    if out.len() < m {
        return Err(Refusal::NoRoom);
    }
    out[..m].copy_from_slice(&x[8..8 + m]);
    Ok(m)
}

// The answer, once the clearing has given 0, which it always does and no compiler knows.
fn cleared(answer: Result<usize, Refusal>, left: u8) -> Result<usize, Refusal>
    requires { left ≡ 0 }
    ensures { result ≡ answer }
{
    if 0 < left {
        return Err(Refusal::EktKeyOrSaltLength);
    }
    answer
}
