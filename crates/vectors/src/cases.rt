// A case is a line: the library, the call, the octets that it is given, a bar, the text of the case.
// The octets stand in brackets, before the bar or in the text. Any other line is a remark.
use crate::table::Table;
use crate::{blocks, index, keys, pages, profiles, reading, sorting, tags, writing};
use lines::{numbers, pieces, rows};
use std::{fmt, io};

const CALL: usize = 8;

// The most octets of a case.
const OCTETS: usize = 65600;

// The output stands beside a case wherever one is written: with it inside, a case could not be copied.
#[derive(Clone, Copy)]
pub struct Case<'a> {
    line: &'a [u8],
    pub given: &'a [u8],
}

impl<'a> Case<'a> {
    // The first letter of the library.
    fn library(self) -> u8 {
        octets::octet(self.line, 0)
    }

    // The first letter of the call.
    pub fn call(self) -> u8 {
        octets::octet(self.line, CALL)
    }

    // The number that ends the line, or as many before it.
    pub fn number(self, back: usize) -> usize {
        numbers::number(self.line, back)
    }

    pub fn number32(self, back: usize) -> u32 {
        (self.number(back) % 4294967296) as u32
    }

    pub fn number16(self, back: usize) -> u16 {
        (self.number(back) % 65536) as u16
    }

    // The text, of a row without its brackets.
    pub fn echo(self, to: &mut impl io::Write) -> io::Result<()> {
        let text = pieces::behind(self.line, b'|');
        match self.call() {
            b'r' => {
                to.write_all(pieces::before(text, b'['))?;
                to.write_all(pieces::before(pieces::behind(text, b'['), b']'))
            }
            _ => to.write_all(text),
        }
    }

    // The text with its answer, as a line.
    pub fn answer(self, to: &mut impl io::Write, answer: &impl fmt::Display) -> io::Result<()> {
        self.echo(to)?;
        writeln!(to, ": {answer}")
    }
}

// The first line is a heading.
pub fn run(to: &mut impl io::Write, cases: &[u8]) -> io::Result<()> {
    let mut table = Table::new();
    let mut space = [0; OCTETS];
    for line in cases.split(|&c| c == b'\n').skip(1) {
        let count = rows::read(pieces::before(line, b']'), &mut space);
        let case = Case {
            line,
            given: octets::part(&space, 0, count),
        };
        ask(to, &mut table, case)?;
    }
    Ok(())
}

fn ask(to: &mut impl io::Write, table: &mut Table, case: Case<'_>) -> io::Result<()> {
    match case.library() {
        b'a' => blocks::case(to, case),
        b'd' => sorting::case(to, case),
        b'e' => tags::case(to, case),
        b'i' => index::case(to, case),
        b'k' => keys::case(to, case),
        b'r' => reading::case(to, case),
        b'w' => writing::case(to, case),
        b'p' => profiles::case(to, case),
        b's' => pages::case(to, case),
        b't' => table.case(to, case),
        _ => Ok(()),
    }
}
