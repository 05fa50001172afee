// What tunnel octets come to, in words.
use distributor::Received;
use lines::print::Part;
use message::Refused;
use std::fmt;

// The answer to octets that were lent, and how many it took.
#[derive(Clone, Copy)]
pub struct Told<'a> {
    pub lent: &'a [u8],
    pub answer: Result<Received, Refused>,
}

impl fmt::Display for Told<'_> {
    fn fmt<W: fmt::Write>(&self, f: &mut fmt::Formatter<W>) -> fmt::Result {
        match self.answer {
            Ok(Received::MoreNeeded) => write!(f, "more needed taken 0"),
            // With the endpoint of the association that the message names, here and below.
            Ok(Received::KeysStored { endpoint, taken }) => {
                write!(f, "keys stored endpoint={endpoint} taken {taken}")
            }
            // With the DTLS octets, which stand in the lent ones.
            Ok(
                Received::Delivery {
                    endpoint,
                    dtls,
                    taken,
                },
            ) => {
                let (start, end) = (dtls.start, dtls.end);
                let dtls = Part(octets::part_in(self.lent, dtls));
                write!(
                    f,
                    "delivery endpoint={endpoint} dtls={dtls} start={start} end={end} taken {taken}"
                )
            }
            Ok(Received::Disconnected { endpoint, taken }) => {
                write!(f, "disconnected endpoint={endpoint} taken {taken}")
            }
            Ok(Received::Version { version, taken }) => {
                write!(f, "version {version} taken {taken}")
            }
            Err(Refused { refusal, taken }) => write!(f, "{refusal} taken {taken}"),
        }
    }
}
