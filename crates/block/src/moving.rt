// Octets moved within the block.
ghost use Rattle.std.specs.Prelude.{◌≡◌, ◌+◌, ◌*◌, ◌≤◌, length};
ghost use Rattle.octets.specs.Part.{part};
ghost use Rattle.octets.specs.Write.{over};
ghost use Rattle.rules.specs.Limits.{places};

use crate::layout::PLACES;

// The most octets moved at once: all endpoints of the index.
const AT_ONCE: usize = 4 * PLACES;

// Octets moved to another offset, which may overlap their own: through an array of our own. Both copies count the same
// turns, and a compiler leaves the array out and makes one move of them.
pub(crate) fn shift(out: &mut [u8], from: usize, size: usize, at: usize)
    requires { (size ≤ 4 * places) × (from + size ≤ length out.old) × (at + size ≤ length out.old) }
    ensures { out.new ≡ over out.old at (part out.old from (from + size)) }
{
    let mut a = [0; AT_ONCE];
    copy_part(&mut a, 0, out, from, size);
    copy_part(out, at, &a, 0, size);
}

fn copy_part(out: &mut [u8], at: usize, src: &[u8], from: usize, size: usize)
    requires { (at + size ≤ length out.old) × (from + size ≤ length src.now) }
    ensures { out.new ≡ over out.old at (part src.now from (from + size)) }
{
    for i in 0..size {
        out[at + i] = src[from + i];
    }
}
