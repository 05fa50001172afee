// A record as Look gives it, in words: a line for it and one for each key field, with the zeros
// behind its length.
use distributor::{Padded, Record, RecordKeys};
use lines::print::{Number16, Part, YesOrNo};
use std::fmt;

// The key fields of an open record.
const NO_KEYS: RecordKeys = RecordKeys {
    profile: 0,
    mki: Padded {
        length: 0,
        octets: [0; 16],
    },
    client_key: NO_FIELD,
    server_key: NO_FIELD,
    client_salt: NO_FIELD,
    server_salt: NO_FIELD,
};

const NO_FIELD: Padded<32> = Padded {
    length: 0,
    octets: [0; 32],
};

#[derive(Clone, Copy)]
pub struct Found(pub Record);

impl fmt::Display for Found {
    fn fmt<W: fmt::Write>(&self, f: &mut fmt::Formatter<W>) -> fmt::Result {
        let record = &self.0;
        let identifier = Part(&record.identifier);
        let keyed = YesOrNo(record.keys.is_some());
        writeln!(
            f,
            "found identifier={identifier} endpoint={} keyed: {keyed}",
            record.endpoint
        )?;
        write!(f, "{}", Keys(record.keys.unwrap_or(NO_KEYS)))
    }
}

// Of keys and salts the client's, then the server's.
#[derive(Clone, Copy)]
struct Keys(RecordKeys);

impl fmt::Display for Keys {
    fn fmt<W: fmt::Write>(&self, f: &mut fmt::Formatter<W>) -> fmt::Result {
        let keys = self.0;
        writeln!(f, "  profile {}", Number16(keys.profile))?;
        writeln!(f, "  mki {}", Field(keys.mki))?;
        writeln!(f, "  key {}", Field(keys.client_key))?;
        writeln!(f, "  key {}", Field(keys.server_key))?;
        writeln!(f, "  salt {}", Field(keys.client_salt))?;
        write!(f, "  salt {}", Field(keys.server_salt))
    }
}

#[derive(Clone, Copy)]
struct Field<const N: usize>(Padded<N>);

impl<const N: usize> fmt::Display for Field<N> {
    fn fmt<W: fmt::Write>(&self, f: &mut fmt::Formatter<W>) -> fmt::Result {
        let octets = Part(&self.0.octets);
        write!(f, "length={} octets={octets}", self.0.length)
    }
}
