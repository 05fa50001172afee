// Rows written whole: in octets of a row's length, and no others.
ghost use Rattle.std.specs.Prelude.{◌≡◌, ◌+◌, ◌≤◌, length};
ghost use Rattle.octets.specs.Bounds.{part_in};
ghost use Rattle.octets.specs.Write.{over};
ghost use Rattle.rules.specs.Layout as Spec;
ghost use Rattle.rows.specs.Lent.{on_row};
ghost use Rattle.rows.specs.ReadKeys.{keys_read};

use crate::layout::{
    CLIENT_KEY, CLIENT_SALT, ENDPOINT, IDENTIFIER, KEY_LIMIT, MKI, PROFILE, ROW, SERVER_KEY,
    SERVER_SALT, STATE,
};
use crate::padding::{pad, put_field};
use crate::state::State;
use message::KeyLengths;
use message::limits::{MKI_LIMIT, SALT_LIMIT, WIDTH};
use octets::Bounds;

// The key fields of a MediaKeys that was read at the front of octets.
#[derive(Clone, Copy)]
pub struct ReadKeys<'a> {
    pub octets: &'a [u8],
    pub profile: u16,
    pub lengths: KeyLengths,
}

fn write_open(row: &mut [u8], identifier: &[u8], endpoint: u32)
    requires { length row.old ≡ Spec.row_length }
    ensures { row.new ≡ Spec.open_row identifier.now endpoint }
{
    octets::put_octets(row, ENDPOINT, &endpoint.to_be_bytes());
    pad(row, IDENTIFIER, WIDTH, identifier);
    octets::put_octet(row, STATE, State::Open as u8);
    pad(row, PROFILE, ROW - PROFILE, b"");
}

// A field of the row becomes a part of the octets that were read, of at most 255 octets.
fn put_part(row: &mut [u8], at: usize, limit: usize, s: &[u8], b: Bounds)
    requires { (length (part_in s.now b) ≤ 255) × (at + 1 + limit ≤ length row.old) }
    ensures { row.new ≡ over row.old at (Spec.field limit (part_in s.now b)) }
{
    put_field(row, at, limit, octets::part_in(s, b));
}

fn write_keys(row: &mut [u8], keys: ReadKeys<'_>)
    requires { length row.old ≡ Spec.row_length }
    ensures { row.new ≡ Spec.keyed_row (keys_read keys.entry) row.old }
{
    let s = keys.octets;
    let k = keys.lengths.bounds();
    octets::put_octet(row, STATE, State::Keyed as u8);
    octets::put_number16(row, PROFILE, keys.profile);
    put_part(row, MKI, MKI_LIMIT as usize, s, k.mki);
    put_part(row, CLIENT_KEY, KEY_LIMIT, s, k.client_key);
    put_part(row, SERVER_KEY, KEY_LIMIT, s, k.server_key);
    put_part(row, CLIENT_SALT, SALT_LIMIT as usize, s, k.client_salt);
    put_part(row, SERVER_SALT, SALT_LIMIT as usize, s, k.server_salt);
}

// The row becomes that of an association that was just opened.
pub fn open_row(row: &mut [u8], identifier: &[u8], endpoint: u32)
    ensures { row.new ≡ on_row row.old (Spec.open_row identifier.now endpoint) }
{
    if row.len() == ROW {
        write_open(row, identifier, endpoint);
    }
}

// All key fields of the row are replaced by those of a message that was read.
pub fn key_row(row: &mut [u8], keys: ReadKeys<'_>)
    ensures { row.new ≡ on_row row.old (Spec.keyed_row (keys_read keys.entry) row.old) }
{
    if row.len() == ROW {
        write_keys(row, keys);
    }
}
