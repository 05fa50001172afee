// The transformations of the state, each octet from the octets of the state before. `from_fn` is a loop that the compiler
// runs 16 octets at a time; by `map` a block takes 14 times as long.
ghost use Rattle.std.specs.Prelude.{◌≡◌, ◌<◌, ◌*◌, ◌%◌};
ghost use Rattle.octets.specs.Number.{octet_at};
ghost use Rattle.aes.specs.KeyExpansion.{round_key, sub_word};
ghost use Rattle.aes.specs.Columns.{inv_affines, next_rows, MixedBy};
ghost use Rattle.aes.specs.State.{sub_bytes, inv_sub_bytes, shift_rows, inv_shift_rows, mix_columns, inv_mix_columns, add_round_key};

use crate::circuit::{inv_affine, sub_byte};
use crate::field::{inv_mix_octet, mix_octet};
use std::array::from_fn;

// Not one function with `inv_affines` over the rule: that would be no shorter, one line each.
pub(crate) fn sub_bytes(s: [u8; 16]) -> [u8; 16]
    ensures { result ≡ sub_bytes s }
{
    from_fn(|i| sub_byte(s[i]))
}

// The S-box for a word of the key schedule.
#[tactic(auto, unfolding(crate::specs::KeyExpansion::sub_word, crate::specs::State::sub_bytes, crate::specs::State::state_by, crate::specs::State::column, crate::specs::State::at))]
pub(crate) fn sub_word(b: [u8; 4]) -> [u8; 4]
    ensures { result ≡ sub_word b }
{
    let t = sub_bytes([b[0], b[1], b[2], b[3], 0, 0, 0, 0, 0, 0, 0, 0, 0, 0, 0, 0]);
    [t[0], t[1], t[2], t[3]]
}

fn inv_affines(s: [u8; 16]) -> [u8; 16]
    ensures { result ≡ inv_affines s }
{
    from_fn(|i| inv_affine(s[i]))
}

// The inverse S-box is the S-box between two affine transformations.
pub(crate) fn inv_sub_bytes(s: [u8; 16]) -> [u8; 16]
    ensures { result ≡ inv_sub_bytes s }
{
    inv_affines(sub_bytes(inv_affines(s)))
}

// ShiftRows by a step of 5: row i % 4 moves by so many columns, and 4 * (i % 4) + i is 5 * i, but for multiples of 16.
// InvShiftRows by 13: 13 times 5 is 1, but for multiples of 16.
pub(crate) fn shift_rows<const STEP: usize>(s: [u8; 16]) -> [u8; 16]
    requires { STEP < 16 }
    ensures forward { STEP ≡ 5 → result ≡ shift_rows s }
    ensures back { STEP ≡ 13 → result ≡ inv_shift_rows s }
{
    from_fn(
        |i|
            requires { (STEP < 16) × (i < 16) }
            ensures { result ≡ octet_at s (STEP * i % 16) }
        { s[STEP * i % 16] },
    )
}

// Each column turned by one row.
fn next_rows(s: [u8; 16]) -> [u8; 16]
    ensures { result ≡ next_rows s }
{
    from_fn(|i| s[i / 4 * 4 + (i + 1) % 4])
}

// Each octet by a rule, from the octets of its column from its row on.
fn mixed<F: Fn(u8, u8, u8, u8) -> u8>(row: F, s: [u8; 16]) -> [u8; 16]
    requires { F.IsAlwaysCallable row }
    ensures { MixedBy (F.post row) s result }
{
    let a = next_rows(s);
    let b = next_rows(a);
    let c = next_rows(b);
    from_fn(|i| row(s[i], a[i], b[i], c[i]))
}

pub(crate) fn mix_columns(s: [u8; 16]) -> [u8; 16]
    ensures { result ≡ mix_columns s }
{
    mixed(mix_octet, s)
}

pub(crate) fn inv_mix_columns(s: [u8; 16]) -> [u8; 16]
    ensures { result ≡ inv_mix_columns s }
{
    mixed(inv_mix_octet, s)
}

// AddRoundKey with the key of round n.
pub(crate) fn add_round_key(s: [u8; 16], w: &[u8; 176], n: usize) -> [u8; 16]
    requires { n < 11 }
    ensures { result ≡ add_round_key s (round_key w.now n) }
{
    from_fn(|i| s[i] ^ w[16 * n + i])
}
