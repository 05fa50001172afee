// What reading the front of lent octets answers, in words.
use lines::print::{Number16, Part};
use message::{Field, Fields, Message};
use std::fmt;

// The answer, and the octets taken, which are none where the answer has no count.
#[derive(Clone, Copy)]
pub struct Read<'a>(pub &'a [u8]);

impl fmt::Display for Read<'_> {
    fn fmt<W: fmt::Write>(&self, f: &mut fmt::Formatter<W>) -> fmt::Result {
        let lent = self.0;
        match message::read_message(lent) {
            Ok(None) => write!(f, "more needed taken 0"),
            Ok(Some(message)) => {
                let body = message::body(lent).len();
                let contents = Contents { lent, message };
                write!(f, "{contents} body={body} taken {}", message.taken)
            }
            Err(refused) => write!(f, "{} taken {}", refused.refusal, refused.taken),
        }
    }
}

// A message in the octets that it was read from. The lengths among its fields are seen in the parts that are lent by
// them.
#[derive(Clone, Copy)]
struct Contents<'a> {
    lent: &'a [u8],
    message: Message,
}

impl<'a> Contents<'a> {
    fn field(&self, field: Field) -> Part<'a> {
        Part(message::field_of(self.lent, field))
    }

    fn media_keys<W: fmt::Write>(&self, f: &mut fmt::Formatter<W>, profile: u16) -> fmt::Result {
        let profile = Number16(profile);
        write!(
            f,
            "MediaKeys identifier={} profile={profile}",
            self.field(Field::Identifier)
        )?;
        write!(f, " mki={}", self.field(Field::Mki))?;
        write!(f, " client_key={}", self.field(Field::ClientKey))?;
        write!(f, " server_key={}", self.field(Field::ServerKey))?;
        write!(f, " client_salt={}", self.field(Field::ClientSalt))?;
        write!(f, " server_salt={}", self.field(Field::ServerSalt))
    }

    // With the offset of its first DTLS octet, A + 5.
    fn tunneled_dtls<W: fmt::Write>(&self, f: &mut fmt::Formatter<W>) -> fmt::Result {
        let identifier = self.field(Field::Identifier);
        let dtls = Part(message::dtls(self.lent));
        let start = self.message.bounds().of(Field::Dtls).start;
        write!(
            f,
            "TunneledDtls identifier={identifier} dtls={dtls} at {start}"
        )
    }
}

impl fmt::Display for Contents<'_> {
    fn fmt<W: fmt::Write>(&self, f: &mut fmt::Formatter<W>) -> fmt::Result {
        match self.message.fields {
            Fields::SupportedProfiles { version, .. } => {
                let list = self.field(Field::ProfileList);
                write!(f, "SupportedProfiles version={version} list={list}")
            }
            Fields::UnsupportedVersion { version } => {
                write!(f, "UnsupportedVersion version={version}")
            }
            Fields::MediaKeys { profile, .. } => self.media_keys(f, profile),
            Fields::TunneledDtls { .. } => self.tunneled_dtls(f),
            Fields::EndpointDisconnect => {
                write!(
                    f,
                    "EndpointDisconnect identifier={}",
                    self.field(Field::Identifier)
                )
            }
        }
    }
}
