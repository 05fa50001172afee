// Pieces written at an offset of an output: whole where they fit, else nothing is written. Each
// answers the offset behind the piece, or its own offset where nothing was written: no Option, as that is what `put_end`
// promises, and as pieces are written one behind the other.
ghost use Rattle.std.specs.Prelude.{◌≡◌, [], ◌∷◌, length};
ghost use Rattle.octets.specs.Number.{octets16};
ghost use Rattle.octets.specs.Write.{put, put_end};

pub fn put_octet(out: &mut [u8], at: usize, b: u8) -> usize
    ensures { (result ≡ put_end out.old at (b ∷ [])) × (out.new ≡ put out.old at (b ∷ [])) }
{
    put_octets(out, at, &[b])
}

pub fn put_number16(out: &mut [u8], at: usize, n: u16) -> usize
    ensures { (result ≡ put_end out.old at (octets16 n)) × (out.new ≡ put out.old at (octets16 n)) }
{
    put_octets(out, at, &n.to_be_bytes())
}

#[tactic(auto, unfolding(crate::specs::Write::put, crate::specs::Write::put_end))]
pub fn put_octets(out: &mut [u8], at: usize, src: &[u8]) -> usize
    ensures { (result ≡ put_end out.old at src.now) × (out.new ≡ put out.old at src.now) }
{
    if at <= out.len() && src.len() <= out.len() - at {
        let end = at + src.len();
        copy(&mut out[at..end], src);
        end
    } else {
        at
    }
}

// The longest piece that is copied through an array of our own.
const AT_ONCE: usize = 4096;

// The copy itself, through an array of our own: a compiler sees that it overlaps neither slice, leaves it out and makes
// one move of the piece. By `copy_from_slice` alone it tests for overlap and has a loop besides, at every piece.
// An empty piece needs no call.
fn copy(out: &mut [u8], src: &[u8])
    requires { length out.old ≡ length src.now }
    ensures { out.new ≡ src.now }
{
    let n = src.len();
    if AT_ONCE < n {
        out.copy_from_slice(src);
    } else if 0 < n {
        let mut a = [0; AT_ONCE];
        a[..n].copy_from_slice(src);
        out.copy_from_slice(&a[..n]);
    }
}
