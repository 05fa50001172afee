// Parts of a slice as arrays by value, with zeros behind where there are fewer octets.
ghost use Rattle.std.specs.Prelude.{◌≡◌, ◌+◌};
ghost use Rattle.octets.specs.Part.{part};
ghost use Rattle.rules.specs.Layout.{padded};

// Eight octets at a time, which a compiler moves as one number; so it can keep whole arrays in registers.
pub fn array<const N: usize>(s: &[u8], at: usize) -> [u8; N]
    ensures { result ≡ padded N (part s.now at (at + N)) }
{
    let tail = octets::part(s, at, s.len());
    let mut a = [0; N];
    for k in 0..N / 8 {
        octets::put_octets(&mut a, 8 * k, octets::part(tail, 8 * k, 8 * k + 8));
    }
    octets::put_octets(&mut a, N / 8 * 8, octets::part(tail, N / 8 * 8, N));
    a
}
