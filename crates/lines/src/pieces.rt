// Pieces of a text, by the characters between them.

// Where a character stands first, or the length.
fn find(s: &[u8], x: u8) -> usize {
    s.iter().position(|&c| c == x).unwrap_or(s.len())
}

pub fn before(s: &[u8], x: u8) -> &[u8] {
    octets::part(s, 0, find(s, x))
}

pub fn from(s: &[u8], x: u8) -> &[u8] {
    octets::part(s, find(s, x), s.len())
}

pub fn behind(s: &[u8], x: u8) -> &[u8] {
    let rest = from(s, x);
    octets::part(rest, 1, rest.len())
}
