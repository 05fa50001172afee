// Tunnel octets.
ghost use Rattle.std.specs.Prelude.{◌≡◌, ◌+◌};
ghost use Rattle.octets.specs.Bounds.{part_in};
ghost use Rattle.octets.specs.Part.{part};
ghost use Rattle.message.specs.Body.{content};
ghost use Rattle.message.specs.Frame as Framing;
ghost use Rattle.message.specs.Limits.{header};
ghost use Rattle.message.specs.Parts.{identifier_bounds};
ghost use Rattle.message.specs.Read as Reading;
ghost use Rattle.rules.specs.Call as Call;
ghost use Rattle.rules.specs.Layout as Layout;
ghost use Rattle.rules.specs.Refusals.{received, receiving};
ghost use Rattle.rules.specs.Table as Spec;
ghost use Rattle.distributor.specs.Outcomes as Out;

use crate::finding::place_named;
use crate::storing::{put_down, put_keys, put_vacant};
use block::layout::{LIST, LIST_LIMIT};
use block::{BLOCK, is_up, row_at};
use message::limits::{BEFORE_DTLS, HEADER};
use message::{Fields, Frame, Kind, Message, Refused};
use octets::{Bounds, Refusal};
use rows::{ReadKeys, endpoint_of};

// The endpoint stands last in each variant. In front it would lie beside the variant's tag, and a compiler would put the
// two together and take them apart again: a delivery with one association took 1.1 times as long.
#[derive(Clone, Copy)]
pub enum Received {
    MoreNeeded,
    // The endpoint of the association that the message names, here and below.
    KeysStored {
        taken: usize,
        endpoint: u32,
    },
    // DTLS octets for an endpoint: where they stand in the lent octets.
    Delivery {
        dtls: Bounds,
        taken: usize,
        endpoint: u32,
    },
    Disconnected {
        taken: usize,
        endpoint: u32,
    },
    Version {
        version: u8,
        taken: usize,
    },
}

// The profile list that the tunnel started with.
fn list_of(state: &[u8; BLOCK]) -> &[u8]
    ensures { result.now ≡ Layout.list_of state.now }
{
    let field = octets::part(state, LIST + 1, LIST + 1 + LIST_LIMIT);
    octets::part(field, 0, octets::octet(state, LIST) as usize)
}

fn check_keys(state: &[u8; BLOCK], keys: ReadKeys<'_>) -> Result<usize, Refusal>
    ensures { Out.Checks (Out.keys_verdict state.now keys.entry) (Out.keys_place state.now keys.entry) result }
{
    let place = place_named(state, message::identifier(keys.octets))?;
    if !message::in_list(keys.profile, list_of(state)) {
        return Err(Refusal::ProfileNotOffered);
    }
    if !keys.lengths.keys_fit(keys.profile) {
        return Err(Refusal::KeyLength);
    }
    if !keys.lengths.mki_and_salts_fit() {
        return Err(Refusal::MkiOrSaltLength);
    }
    Ok(place)
}

// MediaKeys: all key fields are replaced, or none. Here and below a refusal gets the octets taken where it comes up: an
// answer that is made anew on its way out goes through memory.
fn take_keys(state: &mut [u8; BLOCK], keys: ReadKeys<'_>, taken: usize) -> Result<Received, Refused>
    ensures { Out.Takes state.old keys.entry.octets.now (Fields.MediaKeys keys.entry.profile keys.entry.lengths) taken state.new result }
{
    match check_keys(state, keys) {
        Ok(place) => {
            let endpoint = endpoint_of(row_at(state, place));
            put_keys(state, place, keys);
            Ok(Received::KeysStored { endpoint, taken })
        }
        Err(refusal) => Err(Refused { refusal, taken }),
    }
}

// TunneledDtls: the octets and their endpoint. Inlined: by a call a delivery with one association took 1.5 times as
// long.
#[inline(always)]
fn deliver(
    state: &[u8; BLOCK],
    s: &[u8],
    dtls_length: u16,
    taken: usize,
) -> Result<Received, Refused>
    ensures { Out.Takes state.now s.now (Fields.TunneledDtls dtls_length) taken state.now result }
{
    match place_named(state, message::identifier(s)) {
        Ok(place) => Ok(Received::Delivery {
            endpoint: endpoint_of(row_at(state, place)),
            dtls: message::dtls_bounds(dtls_length),
            taken,
        }),
        Err(refusal) => Err(Refused { refusal, taken }),
    }
}

// EndpointDisconnect: the record is removed.
fn disconnect(state: &mut [u8; BLOCK], s: &[u8], taken: usize) -> Result<Received, Refused>
    ensures { Out.Takes state.old s.now Fields.EndpointDisconnect taken state.new result }
{
    match place_named(state, message::identifier(s)) {
        Ok(place) => {
            let endpoint = endpoint_of(row_at(state, place));
            put_vacant(state, place);
            Ok(Received::Disconnected { endpoint, taken })
        }
        Err(refusal) => Err(Refused { refusal, taken }),
    }
}

fn take_message(state: &mut [u8; BLOCK], s: &[u8], message: Message) -> Result<Received, Refused>
    ensures { Out.Takes state.old s.now message.fields message.taken state.new result }
{
    let taken = message.taken;
    match message.fields {
        Fields::SupportedProfiles { .. } => Err(Refused {
            refusal: Refusal::WrongDirection,
            taken,
        }),
        Fields::UnsupportedVersion { version } => {
            put_down(state);
            Ok(Received::Version { version, taken })
        }
        Fields::MediaKeys { profile, lengths } => {
            let keys = ReadKeys {
                octets: s,
                profile,
                lengths,
            };
            take_keys(state, keys, taken)
        }
        Fields::TunneledDtls { dtls_length } => deliver(state, s, dtls_length, taken),
        Fields::EndpointDisconnect => disconnect(state, s, taken),
    }
}

// A whole message that is no SupportedProfiles, by its body.
fn take_body(
    state: &mut [u8; BLOCK],
    s: &[u8],
    kind: Kind,
    body: &[u8],
    taken: usize,
) -> Result<Received, Refused>
    requires { body.now ≡ part s.now header taken }
    ensures { Out.Reads state.old s.now (Reading.body_answer taken (content kind (part s.now header taken))) state.new (Out.received_of result) }
{
    match message::read_body(kind, body) {
        Ok(fields) => take_message(state, s, Message { fields, taken }),
        Err(refusal) => Err(Refused { refusal, taken }),
    }
}

// A whole message: refusal 4 comes before its body, which is cut out first all the same: with nothing between them a
// compiler makes one jump by the kind of this test and of those in `read_body`.
fn take_whole(
    state: &mut [u8; BLOCK],
    s: &[u8],
    kind: Kind,
    body_length: u16,
) -> Result<Received, Refused>
    ensures { Out.Reads state.old s.now (received s.now (Framing.whole kind body_length)) state.new (Out.received_of result) }
{
    let taken = HEADER + body_length as usize;
    let body = octets::part(s, HEADER, taken);
    if kind == Kind::SupportedProfiles {
        return Err(Refused {
            refusal: Refusal::WrongDirection,
            taken,
        });
    }
    take_body(state, s, kind, body, taken)
}

// What the front of the octets holds, with the tunnel up: the long way. Refusal 2 ends the tunnel.
fn receive_long(state: &mut [u8; BLOCK], s: &[u8]) -> Result<Received, Refused>
    ensures { Out.Reads state.old s.now (receiving s.now) state.new (Out.received_of result) }
{
    match message::read_frame(s) {
        Ok(None) => Ok(Received::MoreNeeded),
        Ok(Some(Frame::Version { version })) => {
            put_down(state);
            Ok(Received::Version {
                version,
                taken: s.len(),
            })
        }
        Ok(Some(Frame::Whole { kind, body_length })) => take_whole(state, s, kind, body_length),
        Err(refused) => {
            if refused.refusal == Refusal::Oversize {
                put_down(state);
            }
            Err(refused)
        }
    }
}

// A whole TunneledDtls takes the short way: it is what comes most.
fn receive(state: &mut [u8; BLOCK], s: &[u8]) -> Result<Received, Refused>
    ensures { Out.Reads state.old s.now (receiving s.now) state.new (Out.received_of result) }
{
    if let Some(dtls_length) = message::dtls_length(s) {
        let taken = BEFORE_DTLS + dtls_length as usize;
        return deliver(state, s, dtls_length, taken);
    }
    receive_long(state, s)
}

// Octets from the key distributor: 1, then the reading; type 3: 6, 7, 8, 9; types 4 and 5: 6.
pub fn tunnel_octets(state: &mut [u8; BLOCK], s: &[u8]) -> Result<Received, Refused>
    ensures { Out.Does (Call.tunnel_octets s.now) state.old state.new (λ a. Out.received_of result ≡ a) }
{
    if !is_up(state) {
        return Err(Refused {
            refusal: Refusal::TunnelDown,
            taken: 0,
        });
    }
    receive(state, s)
}
