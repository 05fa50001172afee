// Bits put one behind the other into an output. Fewer than 32 of them wait in a number; whenever there are 32 or more,
// four octets are written at once.
ghost use Rattle.std.specs.Prelude.{◌+◌, ◌^◌, ◌≤◌, ◌<◌, length};
ghost use Rattle.status.specs.Bits.{bits_of};
ghost use Rattle.distributor.specs.Packing.{word_bits, FourPut, Puts, Room, Moved, Ends, Finishes};

// `at` octets are written, and the lowest `bits` bits of `pending` wait. Those above them do not count.
#[derive(Clone, Copy)]
pub struct Packing {
    pub at: usize,
    pub pending: u64,
    pub bits: usize,
}

// Bits written at once.
const WORD_BITS: usize = 32;

// Numbers of so many bits.
const WORDS: u64 = 1 << WORD_BITS;

// A compiler makes one store of the four.
fn put_four(out: &mut [u8], at: usize, n: u32)
    requires { at + 4 ≤ length out.old }
    ensures { FourPut out.old at n out.new }
{
    let [a, b, c, d] = n.to_be_bytes();
    out[at] = a;
    out[at + 1] = b;
    out[at + 2] = c;
    out[at + 3] = d;
}

// A number put in so many bits. Of what was put, the lowest 32 bits are kept: so what waits behind an entry comes from its
// endpoint alone, and a processor need not finish one entry before it begins the next.
pub(crate) fn put(out: &mut [u8], w: Packing, width: usize, n: u64) -> Packing
    requires { Room out.old w width × (width ≤ word_bits) × (n < 2 ^ width) }
    ensures { Moved w width result × Puts out.old w (bits_of width n) out.new result }
{
    let pending = (w.pending % WORDS << width) + n;
    let bits = w.bits + width;
    if bits < WORD_BITS {
        return Packing {
            at: w.at,
            pending,
            bits,
        };
    }
    let left = bits - WORD_BITS;
    put_four(out, w.at, ((pending >> left) % WORDS) as u32);
    Packing {
        at: w.at + 4,
        pending: pending % WORDS,
        bits: left,
    }
}

// The last octets, up to `end`; zero bits fill them.
pub(crate) fn finish(out: &mut [u8], w: Packing, end: usize)
    requires { Ends out.old w end }
    ensures { Finishes out.old w end out.new }
{
    let count = end - w.at;
    let last = w.pending % WORDS << (count * 8 - w.bits);
    for left in (1..count + 1).rev() {
        out[end - left] = ((last >> (left * 8 - 8)) % 256) as u8;
    }
}
