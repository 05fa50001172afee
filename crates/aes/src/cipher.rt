// The cipher and its inverse, on one block.
ghost use Rattle.std.specs.Prelude.{◌≡◌, ◌<◌};
ghost use Rattle.aes.specs.Cipher as Spec;

use crate::state::{
    add_round_key, inv_mix_columns, inv_sub_bytes, mix_columns, shift_rows, sub_bytes,
};

#[tactic(auto, unfolding(crate::specs::Cipher::round))]
fn one_round(s: [u8; 16], w: &[u8; 176], n: usize) -> [u8; 16]
    requires { n < 11 }
    ensures { result ≡ Spec.round w.now n s }
{
    add_round_key(mix_columns(shift_rows::<5>(sub_bytes(s))), w, n)
}

#[tactic(auto, unfolding(crate::specs::Cipher::inv_round))]
fn inv_round(s: [u8; 16], w: &[u8; 176], n: usize) -> [u8; 16]
    requires { n < 11 }
    ensures { result ≡ Spec.inv_round w.now n s }
{
    inv_mix_columns(add_round_key(inv_sub_bytes(shift_rows::<13>(s)), w, n))
}

// A block enciphered with a key schedule.
pub fn encrypt_block(w: &[u8; 176], s: [u8; 16]) -> [u8; 16]
    ensures { result ≡ Spec.cipher w.now s }
{
    let mut t = add_round_key(s, w, 0);
    for n in 1..10 {
        let next = one_round(t, w, n);
        t = next;
    }
    add_round_key(shift_rows::<5>(sub_bytes(t)), w, 10)
}

// A block deciphered with a key schedule.
pub fn decrypt_block(w: &[u8; 176], s: [u8; 16]) -> [u8; 16]
    ensures { result ≡ Spec.inv_cipher w.now s }
{
    let mut t = add_round_key(s, w, 10);
    for n in (1..10).rev() {
        let next = inv_round(t, w, n);
        t = next;
    }
    add_round_key(inv_sub_bytes(shift_rows::<13>(t)), w, 0)
}
