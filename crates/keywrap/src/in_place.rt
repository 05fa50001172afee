// The registers through the process alone, whatever initial value stands in A, so that RFC 3394's example can be run. They
// stay as they are, and false is answered, where they have no ciphertext's length.
ghost use Rattle.std.specs.Prelude.{◌≡◌, length};
ghost use Rattle.keywrap.specs.Inner.{in_place};
ghost use Rattle.keywrap.specs.Padding as Spec;

use crate::checks::length_fits;
use crate::process::{unwrap_registers, wrap_registers};

// RFC 5649, 4.1, step 2, with the key schedule w.
#[tactic(auto, using(crate::proofs::PaddingLaws::fitting_multiple, crate::proofs::PaddingLaws::fitting_least, crate::proofs::PaddingLaws::fitting_most))]
pub fn wrap_in_place(w: &[u8; 176], x: &mut [u8]) -> bool
    ensures { (result ≡ Spec.length_fits (length x.old)) × (x.new ≡ in_place (Spec.wrap_registers w.now) x.old) }
{
    let fits = length_fits(x.len());
    if fits {
        wrap_registers(w, x);
    }
    fits
}

// RFC 5649, 4.2, step 1. Nothing is verified: `unwrap` is the call that does. Not one function with `wrap_in_place`, over a
// closure that lends the registers on: no shorter.
#[tactic(auto, using(crate::proofs::PaddingLaws::fitting_multiple, crate::proofs::PaddingLaws::fitting_least, crate::proofs::PaddingLaws::fitting_most))]
pub fn unwrap_in_place(w: &[u8; 176], x: &mut [u8]) -> bool
    ensures { (result ≡ Spec.length_fits (length x.old)) × (x.new ≡ in_place (Spec.unwrap_registers w.now) x.old) }
{
    let fits = length_fits(x.len());
    if fits {
        unwrap_registers(w, x);
    }
    fits
}
