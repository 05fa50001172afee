// Messages written to an output of a given length. The octets of their fields stand one behind the
// other in the row; each field has octets of its own, so that a swap is seen.
use crate::cases::Case;
use crate::example;
use crate::messages::Read;
use crate::outputs::{FILL, ROOM, Refused, Written};
use octets::Refusal;
use std::io;
use writers::KeyFields;

pub fn case(to: &mut impl io::Write, case: Case<'_>) -> io::Result<()> {
    match case.call() {
        b's' => example::case(to, case),
        _ => output(to, case),
    }
}

// The whole output is read back, with the octets behind the message.
fn output(to: &mut impl io::Write, case: Case<'_>) -> io::Result<()> {
    let mut space = [FILL; ROOM];
    let out = &mut space[..case.number(0).min(ROOM)];
    match write(case, out) {
        Ok(count) => {
            let written = Written { count, out };
            case.answer(to, &format_args!("{written} read back: {}", Read(out)))
        }
        Err(refusal) => case.answer(to, &Refused { refusal, out }),
    }
}

fn write(case: Case<'_>, out: &mut [u8]) -> Result<usize, Refusal> {
    match case.call() {
        b'k' => media_keys(case, out),
        b'd' => {
            let (identifier, dtls) = cut(case.given, case.number(2));
            writers::write_tunneled_dtls(identifier, dtls, out)
        }
        // The version stands before the list.
        b'l' => {
            let (version, list) = cut(case.given, 1);
            writers::write_supported_profiles(octets::octet(version, 0), list, out)
        }
        b'v' => writers::write_unsupported_version(octets::octet(case.given, 0), out),
        _ => writers::write_endpoint_disconnect(case.given, out),
    }
}

// Each field by its length; the server's salt is the rest.
fn media_keys(case: Case<'_>, out: &mut [u8]) -> Result<usize, Refusal> {
    let (identifier, rest) = cut(case.given, case.number16(6) as usize);
    let (mki, rest) = cut(rest, case.number16(5) as usize);
    let (client_key, rest) = cut(rest, case.number16(4) as usize);
    let (server_key, rest) = cut(rest, case.number16(3) as usize);
    let (client_salt, server_salt) = cut(rest, case.number16(2) as usize);
    let keys = KeyFields {
        mki,
        client_key,
        server_key,
        client_salt,
        server_salt,
    };
    writers::write_media_keys(identifier, 0x0102, keys, out)
}

// The first n octets, and those behind them.
fn cut(s: &[u8], n: usize) -> (&[u8], &[u8]) {
    s.split_at(n.min(s.len()))
}
