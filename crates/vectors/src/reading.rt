// Messages read.
use crate::cases::Case;
use crate::messages::Read;
use std::io;

pub fn case(to: &mut impl io::Write, case: Case<'_>) -> io::Result<()> {
    match case.call() {
        b't' => types(to),
        _ => case.answer(to, &Read(case.given)),
    }
}

// Every type octet in front of an empty body.
fn types(to: &mut impl io::Write) -> io::Result<()> {
    for message_type in 0..=255u8 {
        let message = [message_type, 0, 0];
        writeln!(to, "type {message_type}: {}", Read(&message))?;
    }
    Ok(())
}
