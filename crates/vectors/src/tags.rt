// Packets split from their EKT tags.
use crate::cases::Case;
use ekt::Tag;
use lines::print::{Number16, Part};
use std::{fmt, io};

pub fn case(to: &mut impl io::Write, case: Case<'_>) -> io::Result<()> {
    case.answer(to, &Split(case.given))
}

// The tag of a packet, and the parts that are lent from the packet.
#[derive(Clone, Copy)]
struct Split<'a>(&'a [u8]);

impl fmt::Display for Split<'_> {
    fn fmt<W: fmt::Write>(&self, f: &mut fmt::Formatter<W>) -> fmt::Result {
        let packet = self.0;
        let front = Part(ekt::front(packet));
        match ekt::split(packet) {
            Ok(Tag::Short { .. }) => write!(f, "Short front={front}"),
            Ok(Tag::Full { spi, epoch, .. }) => {
                let ciphertext = Part(ekt::ciphertext(packet));
                let (spi, epoch) = (Number16(spi), Number16(epoch));
                write!(
                    f,
                    "Full front={front} ciphertext={ciphertext} spi={spi} epoch={epoch}"
                )
            }
            Ok(Tag::Extension { message_type, .. }) => {
                let data = Part(ekt::extension_data(packet));
                write!(f, "Extension {message_type} front={front} data={data}")
            }
            Err(refusal) => write!(f, "{refusal}"),
        }
    }
}
