// The calls of the table, each as a line with its answer. The state lasts from line to line.
use crate::cases::Case;
use crate::outputs::FILL;
use crate::receiving::Told;
use crate::records::Found;
use crate::{pages, sending};
use distributor::BLOCK;
use std::io;

#[derive(Drop)]
pub struct Table {
    block: [u8; BLOCK],
}

impl Table {
    pub fn new() -> Self {
        Table {
            block: distributor::first_state(),
        }
    }

    pub fn case(&mut self, to: &mut impl io::Write, case: Case<'_>) -> io::Result<()> {
        match case.call() {
            b'f' => {
                self.first(case);
                Ok(())
            }
            b'o' => self.open(to, case),
            b't' => self.tunnel_octets(to, case),
            b'e' => self.end(to, case),
            b'l' => self.look(to, case),
            b'p' => pages::write(to, &self.block, case),
            _ => sending::case(to, &mut self.block, case),
        }
    }

    // The first state, or that of a tunnel just started with a list: an empty one is refused.
    fn first(&mut self, case: Case<'_>) {
        let mut out = [FILL; 10];
        self.block = distributor::first_state();
        let _ = distributor::start(&mut self.block, case.given, &mut out);
    }

    fn open(&mut self, to: &mut impl io::Write, case: Case<'_>) -> io::Result<()> {
        match distributor::open(&mut self.block, case.given, case.number32(0)) {
            Ok(place) => case.answer(to, &format_args!("place {place}")),
            Err(refusal) => case.answer(to, &refusal),
        }
    }

    fn tunnel_octets(&mut self, to: &mut impl io::Write, case: Case<'_>) -> io::Result<()> {
        let lent = case.given;
        let answer = distributor::tunnel_octets(&mut self.block, lent);
        case.answer(to, &Told { lent, answer })
    }

    fn end(&mut self, to: &mut impl io::Write, case: Case<'_>) -> io::Result<()> {
        match distributor::end(&mut self.block) {
            Ok(()) => case.answer(to, &"done"),
            Err(refusal) => case.answer(to, &refusal),
        }
    }

    fn look(&self, to: &mut impl io::Write, case: Case<'_>) -> io::Result<()> {
        match distributor::look(&self.block, case.number32(0)) {
            Ok(record) => case.answer(to, &Found(record)),
            Err(refusal) => case.answer(to, &refusal),
        }
    }
}
