// Octets written at an offset and padded with zeros.
ghost use Rattle.std.specs.Prelude.{◌≡◌, ◌+◌, ◌≤◌, length, replicate};
ghost use Rattle.octets.specs.Write.{over, put};
ghost use Rattle.rules.specs.Layout as Spec;

use crate::arrays::array;

fn put_zeros(out: &mut [u8], at: usize, n: usize)
    requires { at + n ≤ length out.old }
    ensures { out.new ≡ over out.old at (replicate n 0) }
{
    out[at..at + n].fill(0);
}

// The first N octets of s and the last N, which may overlap. By value: a compiler sees that they overlap no output, and
// makes one move of each.
fn put_ends<const N: usize>(out: &mut [u8], at: usize, s: &[u8])
    requires { (at + length s.now ≤ length out.old) × (N ≤ length s.now) × (length s.now ≤ N + N) }
    ensures { out.new ≡ over out.old at s.now }
{
    let last = s.len() - N;
    octets::put_octets(out, at, &array::<N>(s, 0));
    octets::put_octets(out, at + last, &array::<N>(s, last));
}

// A copy. From 8 to 32 octets, as keys and most salts have, go in two moves of a length that a compiler knows, without
// a call: by copy_from_slice alone a message with keys took 1.8 times as long.
fn put_short(out: &mut [u8], at: usize, s: &[u8])
    requires { at + length s.now ≤ length out.old }
    ensures { out.new ≡ over out.old at s.now }
{
    if octets::within(16, 32, s.len()) {
        put_ends::<16>(out, at, s);
    } else if octets::within(8, 16, s.len()) {
        put_ends::<8>(out, at, s);
    } else {
        octets::put_octets(out, at, s);
    }
}

// The first n octets of s from an offset on, with zeros behind where there are fewer.
pub(crate) fn pad(out: &mut [u8], at: usize, n: usize, s: &[u8])
    requires { at + n ≤ length out.old }
    ensures { out.new ≡ over out.old at (Spec.padded n s.now) }
{
    put_zeros(out, at, n);
    put_short(out, at, octets::part(s, 0, n));
}

// The same in any output: nothing is written where it has no n octets from the offset on.
pub fn put_padded(out: &mut [u8], at: usize, n: usize, s: &[u8])
    ensures { out.new ≡ put out.old at (Spec.padded n s.now) }
{
    if at <= out.len() {
        if n <= out.len() - at {
            pad(out, at, n, s);
        }
    }
}

// A length octet and the padded field behind it.
pub(crate) fn put_field(out: &mut [u8], at: usize, limit: usize, s: &[u8])
    requires { (length s.now ≤ 255) × (at + 1 + limit ≤ length out.old) }
    ensures { out.new ≡ over out.old at (Spec.field limit s.now) }
{
    out[at] = s.len() as u8;
    pad(out, at + 1, limit, s);
}
