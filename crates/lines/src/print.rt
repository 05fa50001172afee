// How octets and answers are written in a line.
ghost use Rattle.std.specs.Prelude.{Some};
ghost use Rattle.lines.specs.Print.{number16, yes_or_no};

use std::fmt;

// The longest part whose octets are written out; of a longer one a reader wants the length.
const WRITTEN_OUT: usize = 64;

// Octets in capitals, as the worked octets are written.
#[derive(Clone, Copy)]
pub struct Row<'a>(pub &'a [u8]);

impl fmt::Display for Row<'_> {
    fn fmt<W: fmt::Write>(&self, f: &mut fmt::Formatter<W>) -> fmt::Result {
        let mut between = "";
        for octet in self.0 {
            write!(f, "{between}{octet:02X}")?;
            between = " ";
        }
        Ok(())
    }
}

// A part: its octets in brackets, or its length.
#[derive(Clone, Copy)]
pub struct Part<'a>(pub &'a [u8]);

impl fmt::Display for Part<'_> {
    fn fmt<W: fmt::Write>(&self, f: &mut fmt::Formatter<W>) -> fmt::Result {
        let length = self.0.len();
        if length <= WRITTEN_OUT {
            write!(f, "[{}]", Row(self.0))
        } else {
            write!(f, "{length} octets")
        }
    }
}

// A number of two octets.
#[derive(Clone, Copy)]
pub struct Number16(pub u16);

impl fmt::Display for Number16 {
    ghost output = { λ number. Some (number16 number) };

    #[tactic(auto, using(std::proofs::lemmas::Fmt::hex_byte))]
    fn fmt<W: fmt::Write>(&self, f: &mut fmt::Formatter<W>) -> fmt::Result {
        write!(f, "{:02X}{:02X}", self.0 / 256, self.0 % 256)
    }
}

// An answer of yes or no.
#[derive(Clone, Copy)]
pub struct YesOrNo(pub bool);

impl fmt::Display for YesOrNo {
    ghost output = { λ answer. Some (yes_or_no answer) };

    fn fmt<W: fmt::Write>(&self, f: &mut fmt::Formatter<W>) -> fmt::Result {
        f.write_str(if self.0 { "yes" } else { "no" })
    }
}
