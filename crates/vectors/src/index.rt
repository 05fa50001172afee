// The index of a packet, and what is kept of its stream. The numbers that end the text are the ROC, the highest
// sequence number seen, and the packet's.
use crate::cases::Case;
use octets::Refusal;
use packetindex::{Estimate, Stream};
use std::{fmt, io};

pub fn case(to: &mut impl io::Write, case: Case<'_>) -> io::Result<()> {
    let stream = Stream {
        roc: case.number32(2),
        highest: case.number16(1),
    };
    let sequence = case.number16(0);
    let estimated = Estimated(stream.estimate(sequence));
    let updated = Updated(stream.update(sequence));
    case.answer(to, &format_args!("{estimated}, {updated}"))
}

#[derive(Clone, Copy)]
struct Estimated(Result<Estimate, Refusal>);

impl fmt::Display for Estimated {
    fn fmt<W: fmt::Write>(&self, f: &mut fmt::Formatter<W>) -> fmt::Result {
        match self.0 {
            Ok(Estimate { roc, index }) => write!(f, "index={index} under roc={roc}"),
            Err(refusal) => write!(f, "{refusal}"),
        }
    }
}

#[derive(Clone, Copy)]
struct Updated(Result<Stream, Refusal>);

impl fmt::Display for Updated {
    fn fmt<W: fmt::Write>(&self, f: &mut fmt::Formatter<W>) -> fmt::Result {
        match self.0 {
            Ok(Stream { roc, highest }) => write!(f, "kept roc={roc} highest={highest}"),
            Err(refusal) => write!(f, "update {refusal}"),
        }
    }
}
