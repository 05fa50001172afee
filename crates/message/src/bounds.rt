// Where the fields of a message stand in the lent octets, and the fields as parts of them.
ghost use Rattle.std.specs.Prelude.{◌≡◌, ◌+◌, ◌≤◌, ◌<◌};
ghost use Rattle.message.specs.Read.{answer_of};
ghost use Rattle.message.specs.Parts as Spec;
ghost use Rattle.octets.specs.Bounds as B;
ghost use Rattle.octets.specs.Lent.{PartIn};
ghost use Rattle.message.specs.Limits.{header, most16};

use crate::bodies::{Fields, KeyLengths};
use crate::keys::Keys;
use crate::limits::{BEFORE_DTLS, BEFORE_LIST, HEADER, WIDTH};
use crate::reading::{Message, Refused, read_message};
use octets::{Bounds, NOWHERE};

pub type KeyBounds = Keys<Bounds>;

// The bounds of every field; those of one that is not there are 0 and 0, as `bounds_of` of specs/Parts.antt has them and C reads them.
#[derive(Clone, Copy)]
pub struct FieldBounds {
    pub body: Bounds,
    pub identifier: Bounds,
    pub profile_list: Bounds,
    pub dtls: Bounds,
    pub keys: KeyBounds,
}

#[derive(Clone, Copy, Debug, PartialEq, Eq)]
pub enum Field {
    Body,
    Identifier,
    ProfileList,
    Dtls,
    Mki,
    ClientKey,
    ServerKey,
    ClientSalt,
    ServerSalt,
}

const IDENTIFIER: Bounds = Bounds {
    start: HEADER,
    end: HEADER + WIDTH,
};

// A field of n octets from an offset on.
fn behind(start: usize, n: u16) -> Bounds
    requires { start ≤ most16 }
    ensures { result ≡ B.behind start n }
{
    Bounds {
        start,
        end: start + n as usize,
    }
}

// A field behind the length octet that follows another field.
fn next(field: Bounds, n: u8) -> Bounds
    requires { field.end < most16 }
    ensures { result ≡ B.behind (field.end + 1) n }
{
    behind(field.end + 1, n as u16)
}

// Where the DTLS octets of a TunneledDtls stand that has so many.
pub fn dtls_bounds(n: u16) -> Bounds
    ensures { result ≡ Spec.dtls_bounds n }
{
    behind(BEFORE_DTLS, n)
}

impl KeyLengths {
    // Where the key fields of a MediaKeys with these lengths stand.
    pub fn bounds(self) -> KeyBounds
        ensures { result ≡ Spec.key_bounds self }
    {
        let mki = behind(HEADER + WIDTH + 3, self.mki as u16);
        let client_key = next(mki, self.client_key);
        let server_key = next(client_key, self.server_key);
        let client_salt = next(server_key, self.client_salt);
        let server_salt = next(client_salt, self.server_salt);
        KeyBounds {
            mki,
            client_key,
            server_key,
            client_salt,
            server_salt,
        }
    }
}

const NO_KEYS: KeyBounds = KeyBounds {
    mki: NOWHERE,
    client_key: NOWHERE,
    server_key: NOWHERE,
    client_salt: NOWHERE,
    server_salt: NOWHERE,
};

const NO_FIELDS: FieldBounds = FieldBounds {
    body: NOWHERE,
    identifier: NOWHERE,
    profile_list: NOWHERE,
    dtls: NOWHERE,
    keys: NO_KEYS,
};

// A body that ends at an offset and starts with an identifier, and no other field.
fn identified(end: usize) -> FieldBounds
    ensures { result ≡ Spec.bounds_at (B.between header end) Spec.identifier_bounds B.nowhere B.nowhere Spec.no_keys }
{
    FieldBounds {
        body: Bounds { start: HEADER, end },
        identifier: IDENTIFIER,
        ..NO_FIELDS
    }
}

impl Message {
    // Where its fields stand. Three types have an identifier, and each but one of these has another field.
    pub fn bounds(self) -> FieldBounds
        ensures { result ≡ Spec.field_bounds self.fields self.taken }
    {
        let mut p = identified(self.taken);
        match self.fields {
            Fields::SupportedProfiles { list_length, .. } => {
                p.identifier = NOWHERE;
                p.profile_list = behind(BEFORE_LIST, list_length);
            }
            Fields::UnsupportedVersion { .. } => {
                p.identifier = NOWHERE;
                p.body = behind(HEADER, 1);
            }
            Fields::MediaKeys { lengths, .. } => p.keys = lengths.bounds(),
            Fields::TunneledDtls { dtls_length } => p.dtls = dtls_bounds(dtls_length),
            Fields::EndpointDisconnect => {}
        }
        p
    }
}

// Where the fields stand that an answer has.
pub fn bounds_of(read: Result<Option<Message>, Refused>) -> FieldBounds
    ensures { result ≡ Spec.bounds_of (answer_of read) }
{
    match read {
        Ok(Some(message)) => message.bounds(),
        Ok(None) | Err(_) => NO_FIELDS,
    }
}

impl FieldBounds {
    pub fn of(self, field: Field) -> Bounds
        ensures { result ≡ Spec.bounds_for self field }
    {
        match field {
            Field::Body => self.body,
            Field::Identifier => self.identifier,
            Field::ProfileList => self.profile_list,
            Field::Dtls => self.dtls,
            Field::Mki => self.keys.mki,
            Field::ClientKey => self.keys.client_key,
            Field::ServerKey => self.keys.server_key,
            Field::ClientSalt => self.keys.client_salt,
            Field::ServerSalt => self.keys.server_salt,
        }
    }
}

// A field of the message at the front of s, lent from s; empty where there is none.
pub fn field_of(s: &[u8], field: Field) -> &[u8]
    ensures { Spec.FieldOf s.entry field result }
{
    octets::part_in(s, bounds_of(read_message(s)).of(field))
}

// The identifier that a MediaKeys, TunneledDtls or EndpointDisconnect at the front of s names. Of other octets it is those that
// stand there, as far as they go: no type is looked at.
pub fn identifier(s: &[u8]) -> &[u8]
    ensures { PartIn s.entry Spec.identifier_bounds result }
{
    octets::part_in(s, IDENTIFIER)
}

// The body of the message at the front of s, after octet 3.
pub fn body(s: &[u8]) -> &[u8]
    ensures { Spec.FieldOf s.entry Field.Body result }
{
    field_of(s, Field::Body)
}

// The DTLS octets of a TunneledDtls at the front of s, after octet A + 5.
pub fn dtls(s: &[u8]) -> &[u8]
    ensures { Spec.FieldOf s.entry Field.Dtls result }
{
    field_of(s, Field::Dtls)
}
