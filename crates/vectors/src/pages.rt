// Status pages: written by the table, and read from octets.
use crate::cases::Case;
use crate::outputs::{FILL, ROOM, Refused};
use distributor::BLOCK;
use lines::print::{Row, YesOrNo};
use std::io;

// Every octet, however many.
pub fn write(to: &mut impl io::Write, state: &[u8; BLOCK], case: Case<'_>) -> io::Result<()> {
    let mut space = [FILL; ROOM];
    let out = &mut space[..case.number(0).min(ROOM)];
    match distributor::write_page(state, out) {
        Ok(count) => {
            let page = Row(octets::part(out, 0, count));
            let behind = Row(octets::part(out, count, out.len()));
            case.answer(to, &format_args!("written=[{page}] behind=[{behind}]"))
        }
        Err(refusal) => case.answer(to, &Refused { refusal, out }),
    }
}

pub fn case(to: &mut impl io::Write, case: Case<'_>) -> io::Result<()> {
    match case.call() {
        b'e' => entry(to, case),
        _ => entries(to, case),
    }
}

fn entries(to: &mut impl io::Write, case: Case<'_>) -> io::Result<()> {
    match status::read_page(case.given) {
        Ok(count) => case.answer(to, &count),
        Err(refusal) => case.answer(to, &refusal),
    }
}

fn entry(to: &mut impl io::Write, case: Case<'_>) -> io::Result<()> {
    match status::read_entry(case.given, case.number(0)) {
        Ok(entry) => {
            let keyed = YesOrNo(entry.keyed);
            case.answer(
                to,
                &format_args!(
                    "place {} endpoint={} keyed: {keyed}",
                    entry.place, entry.endpoint
                ),
            )
        }
        Err(refusal) => case.answer(to, &refusal),
    }
}
