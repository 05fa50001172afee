// Wrapping: a plaintext becomes the ciphertext at the front of the output.
ghost use Rattle.std.specs.Prelude.{◌≡◌, ◌≤◌, length};
ghost use Rattle.keywrap.specs.Calls.{wrapping, Writes, answer_of};
ghost use Rattle.keywrap.specs.Limits.{plaintext_most};
ghost use Rattle.keywrap.specs.Padding as Spec;

use crate::clearing::forget;
use crate::limits::{CIPHERTEXT, KEY, MOST};
use crate::loading::{load, load_schedule, wrapped_length};
use crate::process::wrap_registers;
use octets::Refusal;

// Refusals 34; 33; 13.
#[tactic(auto, using(crate::proofs::CallLaws::settled, crate::proofs::CallLaws::wrap_other_key, crate::proofs::CallLaws::wrap_other_length))]
pub fn wrap(key: &[u8], plaintext: &[u8], out: &mut [u8]) -> Result<usize, Refusal>
    ensures { Writes (wrapping key.now plaintext.now (length out.old)) (Spec.wrap key.now plaintext.now) out.old out.new (answer_of result) }
{
    let Some(key) = key.as_array() else {
        return Err(Refusal::EktKeyOrSaltLength);
    };
    if !octets::within(1, MOST, plaintext.len()) {
        return Err(Refusal::PlaintextLength);
    }
    let count = wrapped_length(plaintext.len());
    if out.len() < count {
        return Err(Refusal::NoRoom);
    }
    let left = wrap_into(key, plaintext, &mut out[..count]);
    Ok(count + left as usize)
}

// In an output of just the ciphertext's length, which holds the registers meanwhile. The answer is 0, by
// `forget`, which has space of its own to work in.
fn wrap_into(key: &[u8; KEY], plaintext: &[u8], x: &mut [u8]) -> u8
    requires { (1 ≤ length plaintext.now) × (length plaintext.now ≤ plaintext_most) × (length x.old ≡ length (Spec.initial_registers plaintext.now)) }
    ensures { (result ≡ 0) × (x.new ≡ Spec.wrap key.now plaintext.now) }
{
    load(plaintext, x);
    let mut w = [0; 176];
    load_schedule(key, &mut w);
    wrap_registers(&w, x);
    let mut space = [0; CIPHERTEXT];
    forget(&mut w, &mut space, plaintext.len())
}
