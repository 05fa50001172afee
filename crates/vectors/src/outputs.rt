// Outputs that messages are written to, and what then stands in them.
use lines::print::Part;
use octets::Refusal;
use std::fmt;

// What an output is filled with, so that octets behind a message are seen to keep their value.
pub const FILL: u8 = 0xEE;

// The longest message.
pub const ROOM: usize = 4099;

// A refusal, with the output's first octets, which keep their value.
#[derive(Clone, Copy)]
pub struct Refused<'a> {
    pub refusal: Refusal,
    pub out: &'a [u8],
}

impl fmt::Display for Refused<'_> {
    fn fmt<W: fmt::Write>(&self, f: &mut fmt::Formatter<W>) -> fmt::Result {
        let front = Part(octets::part(self.out, 0, 3));
        write!(f, "{} front={front}", self.refusal)
    }
}

// The octets that were written, and those behind them.
#[derive(Clone, Copy)]
pub struct Written<'a> {
    pub count: usize,
    pub out: &'a [u8],
}

impl fmt::Display for Written<'_> {
    fn fmt<W: fmt::Write>(&self, f: &mut fmt::Formatter<W>) -> fmt::Result {
        let written = Part(octets::part(self.out, 0, self.count));
        let behind = Part(octets::part(self.out, self.count, self.out.len()));
        write!(f, "written={written} behind={behind}")
    }
}
