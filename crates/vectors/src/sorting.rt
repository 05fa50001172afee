// Packets sorted by their first octet.
use crate::cases::Case;
use demux::Kind;
use std::{fmt, io};

pub fn case(to: &mut impl io::Write, case: Case<'_>) -> io::Result<()> {
    match case.call() {
        b'e' => every_first(to),
        _ => {
            case.echo(to)?;
            writeln!(to, " {}", Sorted(case.given))
        }
    }
}

// Packets of one octet, since no other is looked at.
fn every_first(to: &mut impl io::Write) -> io::Result<()> {
    for octet in 0..=255u8 {
        let packet = [octet];
        writeln!(to, "sort first={octet} {}", Sorted(&packet))?;
    }
    Ok(())
}

// How a packet was sorted.
#[derive(Clone, Copy)]
struct Sorted<'a>(&'a [u8]);

impl fmt::Display for Sorted<'_> {
    fn fmt<W: fmt::Write>(&self, f: &mut fmt::Formatter<W>) -> fmt::Result {
        match demux::sort(self.0) {
            Ok(kind) => f.write_str(name(kind)),
            Err(refusal) => write!(f, "{refusal}"),
        }
    }
}

fn name(kind: Kind) -> &'static str {
    match kind {
        Kind::Stun => "STUN",
        Kind::Zrtp => "ZRTP",
        Kind::Dtls => "DTLS",
        Kind::TurnChannel => "TURN channel",
        Kind::Rtp => "RTP",
        Kind::Other => "Other",
    }
}
