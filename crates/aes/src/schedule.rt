// The key schedule.
ghost use Rattle.std.specs.Prelude.{◌≡◌, ◌<◌, ◌≤◌, take};
ghost use Rattle.aes.specs.KeyExpansion as Spec;

use crate::state::sub_word;
use std::array::from_fn;

// The first octets of the round constants; round 0 has none.
const RCON: [u8; 11] = [
    1, 0x01, 0x02, 0x04, 0x08, 0x10, 0x20, 0x40, 0x80, 0x1b, 0x36,
];

// What is added to word i - 4, to make word i.
fn temp_word(w: &[u8; 176], i: usize) -> [u8; 4]
    requires { (4 ≤ i) × (i < 44) }
    ensures { result ≡ Spec.temp w.now i }
{
    let p = 4 * (i - 1);
    if i % 4 == 0 {
        let t = sub_word([w[p + 1], w[p + 2], w[p + 3], w[p]]);
        return [t[0] ^ RCON[i / 4], t[1], t[2], t[3]];
    }
    [w[p], w[p + 1], w[p + 2], w[p + 3]]
}

fn next_word(w: &[u8; 176], i: usize) -> [u8; 4]
    requires { (4 ≤ i) × (i < 44) }
    ensures { result ≡ Spec.next_word w.now i }
{
    let t = temp_word(w, i);
    let p = 4 * (i - 4);
    from_fn(|k| w[p + k] ^ t[k])
}

// The schedule of a key.
pub fn expand(key: [u8; 16]) -> [u8; 176]
    ensures { result ≡ Spec.key_expansion key }
{
    let mut w = [0; 176];
    w[..16].copy_from_slice(&key);
    for i in 4..44 {
        // Not by `copy_from_slice`: tried, slower by 25 %.
        let v = next_word(&w, i);
        w[4 * i] = v[0];
        w[4 * i + 1] = v[1];
        w[4 * i + 2] = v[2];
        w[4 * i + 3] = v[3];
    }
    w
}
