// Octets in the text of a case: pairs of digits behind a space or a bracket, `*` and a number where one is repeated.
ghost use Rattle.std.specs.Prelude.{◌<◌};

use crate::{numbers, pieces};

// From `0` to `9` and from `A` to `F`.
fn digit(c: u8) -> u8
    ensures { result < 16 }
{
    if c < b'A' { c % 16 } else { (c % 16 + 9) % 16 }
}

// How often an octet is there, by what stands behind its digits.
fn times(behind: &[u8]) -> usize {
    behind.strip_prefix(b"*").map_or(1, numbers::decimal)
}

// The octets of a line up to the end of its row, no more than there is room for; the answer is how many. By every tail of
// the row, since how often an octet is there stands behind its digits.
pub fn read(line: &[u8], out: &mut [u8]) -> usize {
    let row = pieces::from(line, b'[');
    let mut at = 0;
    for i in 0..row.len() {
        if let [b' ' | b'[', high, low, behind @ ..] = &row[i..] {
            let end = at + times(behind).min(out.len() - at);
            out[at..end].fill(digit(*high) * 16 + digit(*low));
            at = end;
        }
    }
    at
}
