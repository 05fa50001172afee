// The calls of the table that write a message.
use crate::cases::Case;
use crate::outputs::{FILL, ROOM, Refused, Written};
use distributor::BLOCK;
use octets::Refusal;
use std::io;

pub fn case(to: &mut impl io::Write, state: &mut [u8; BLOCK], case: Case<'_>) -> io::Result<()> {
    let mut space = [FILL; ROOM];
    let out = &mut space[..case.number(0).min(ROOM)];
    match send(state, case, out) {
        Ok(count) => case.answer(to, &Written { count, out }),
        Err(refusal) => case.answer(to, &Refused { refusal, out }),
    }
}

fn send(state: &mut [u8; BLOCK], case: Case<'_>, out: &mut [u8]) -> Result<usize, Refusal> {
    match case.call() {
        b's' => distributor::start(state, case.given, out),
        b'c' => distributor::close(state, case.given, out),
        _ => distributor::booth_packet(state, case.number32(1), case.given, out),
    }
}
