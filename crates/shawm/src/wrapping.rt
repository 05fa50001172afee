// AES Key Wrap with Padding at the front of an output: the octets written, or a refusal.
ghost use Rattle.std.specs.Prelude.{length};
ghost use Rattle.keywrap.specs.Calls.{wrapping, unwrapping};
ghost use Rattle.keywrap.specs.Padding.{wrap, unwrap};
ghost use Rattle.shawm.specs.Wrapping.{ExportsOctets};

use crate::refusal::count_or_refused;

// Refusals 34; 33; 13.
#[tactic(auto, using(crate::proofs::WriteLaws::wrapped_fits))]
#[unsafe(no_mangle)]
pub extern "C" fn shawm_wrap(key: &[u8], plaintext: &[u8], out: &mut [u8]) -> u32
    ensures { ExportsOctets (wrapping key.now plaintext.now (length out.old)) (wrap key.now plaintext.now) out.old out.new result }
{
    octets::holds_octets(key);
    octets::holds_octets(plaintext);
    count_or_refused(keywrap::wrap(key, plaintext, out))
}

// Refusals 34; 22; 13.
#[tactic(auto, using(crate::proofs::WriteLaws::unwrapped_fits))]
#[unsafe(no_mangle)]
pub extern "C" fn shawm_unwrap(key: &[u8], ciphertext: &[u8], out: &mut [u8]) -> u32
    ensures { ExportsOctets (unwrapping key.now ciphertext.now (length out.old)) (unwrap key.now ciphertext.now) out.old out.new result }
{
    octets::holds_octets(key);
    octets::holds_octets(ciphertext);
    count_or_refused(keywrap::unwrap(key, ciphertext, out))
}
