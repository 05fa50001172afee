// The answer that holds a record.
ghost use Rattle.std.specs.Prelude.{◌≡◌, [], ◌∷◌, ◌++◌, ◌+◌, ◌≤◌, length};
ghost use Rattle.octets.specs.Number.{octets16, octets_of_32};
ghost use Rattle.octets.specs.Write.{over};
ghost use Rattle.message.specs.Limits.{width};
ghost use Rattle.rules.specs.Answer as Answer;
ghost use Rattle.rules.specs.Layout as Layout;
ghost use Rattle.distributor.specs.Record.{field_read, keys_read, association_in};
ghost use Rattle.service.specs.Limits as Limits;
ghost use Rattle.service.specs.Reply as Spec;

use crate::answer_kind::AnswerKind;
use crate::answers::put_head;
use crate::limits::{ANSWER, HEAD, KEYS, RECORD};
use distributor::{Padded, Record, RecordKeys};
use message::limits::WIDTH;

// What stands first in a record.
#[derive(Clone, Copy)]
enum State {
    Open = 1,
    Keyed,
}

// A field: how many octets it has, then these, with zeros up to N.
fn put_field<const N: usize>(out: &mut [u8], at: usize, field: &Padded<N>) -> usize
    requires { at + 1 + N ≤ length out.old }
    ensures { (result ≡ at + 1 + N) × (out.new ≡ over out.old at (Layout.field N (field_read field.now))) }
{
    let s = octets::part(&field.octets, 0, field.length as usize);
    let mut padded = [0; N];
    octets::put_octets(&mut padded, 0, s);
    let behind = octets::put_octet(out, at, s.len() as u8);
    octets::put_octets(out, behind, &padded)
}

// The profile and the fields, each where the one before it ends.
fn put_keys(out: &mut [u8; ANSWER], at: usize, k: &RecordKeys) -> usize
    requires { at + Limits.keys_length ≤ Limits.answer_limit }
    ensures { (result ≡ at + Limits.keys_length) × (out.new ≡ over out.old at (Spec.keys_octets (keys_read k.now))) }
{
    octets::put_number16(out, at, k.profile);
    let end = put_field(out, at + 2, &k.mki);
    let end = put_field(out, end, &k.client_key);
    let end = put_field(out, end, &k.server_key);
    let end = put_field(out, end, &k.client_salt);
    put_field(out, end, &k.server_salt)
}

// All in front of the key fields.
fn put_front(out: &mut [u8; ANSWER], state: u8, identifier: &[u8; WIDTH], endpoint: u32) -> usize
    ensures { (result ≡ Limits.head_length + 1 + width + Limits.endpoint_length) × (out.new ≡ over out.old 0 (octets16 (1 + Limits.record_length) ++ (5 ∷ state ∷ identifier.now) ++ octets_of_32 endpoint)) }
{
    put_head(out, AnswerKind::Found, RECORD);
    let a = octets::put_octet(out, HEAD, state);
    let b = octets::put_octets(out, a, identifier);
    octets::put_octets(out, b, &endpoint.to_be_bytes())
}

// An open record has zeros in place of the key fields.
pub(crate) fn found(out: &mut [u8; ANSWER], r: &Record) -> usize
    ensures { Spec.Replies (Spec.frame_of (Spec.answer_octets [] (Answer.found (association_in r.now)))) out.old out.new result }
{
    match r.keys {
        Some(keys) => {
            let at = put_front(out, State::Keyed as u8, &r.identifier, r.endpoint);
            put_keys(out, at, &keys)
        }
        None => {
            let at = put_front(out, State::Open as u8, &r.identifier, r.endpoint);
            octets::put_octets(out, at, &[0; KEYS])
        }
    }
}
