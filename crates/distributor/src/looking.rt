// Look.
ghost use Rattle.std.specs.Prelude.{◌≡◌, ◌+◌, ◌≤◌, IfOk};
ghost use Rattle.rules.specs.Call as Call;
ghost use Rattle.rules.specs.Layout as Layout;
ghost use Rattle.rules.specs.Table as Spec;
ghost use Rattle.distributor.specs.Record as R;

use crate::finding::place_served;
use block::{BLOCK, is_up, row_at};
use octets::Refusal;
use rows::layout::{CLIENT_KEY, CLIENT_SALT, IDENTIFIER, MKI, PROFILE, SERVER_KEY, SERVER_SALT};
use rows::{State, array, endpoint_of, state_of};

// A field of at most N octets, with zeros behind its length.
#[derive(Clone, Copy)]
pub struct Padded<const N: usize> {
    pub octets: [u8; N],
    pub length: u8,
}

#[derive(Clone, Copy)]
pub struct RecordKeys {
    pub profile: u16,
    pub mki: Padded<16>,
    pub client_key: Padded<32>,
    pub server_key: Padded<32>,
    pub client_salt: Padded<32>,
    pub server_salt: Padded<32>,
}

// A whole record; it has no keys while the association is open.
#[derive(Clone, Copy)]
pub struct Record {
    pub identifier: [u8; 16],
    pub endpoint: u32,
    pub keys: Option<RecordKeys>,
}

// The field behind a length octet.
fn field_at<const N: usize>(row: &[u8], at: usize) -> Padded<N>
    requires { at ≤ Layout.row_length }
    ensures { result ≡ R.field_at N row.now at }
{
    Padded {
        octets: array(row, at + 1),
        length: octets::octet(row, at),
    }
}

fn keys_of(row: &[u8]) -> RecordKeys
    ensures { result ≡ R.record_keys row.now }
{
    RecordKeys {
        profile: octets::number16(row, PROFILE),
        mki: field_at(row, MKI),
        client_key: field_at(row, CLIENT_KEY),
        server_key: field_at(row, SERVER_KEY),
        client_salt: field_at(row, CLIENT_SALT),
        server_salt: field_at(row, SERVER_SALT),
    }
}

fn record_of(row: &[u8]) -> Record
    ensures { result ≡ R.record_of row.now }
{
    let keys = if state_of(row) == State::Open {
        None
    } else {
        Some(keys_of(row))
    };
    Record {
        identifier: array(row, IDENTIFIER),
        endpoint: endpoint_of(row),
        keys,
    }
}

// An endpoint's whole record; refusals 1, 6. The block is lent to be read.
pub fn look(state: &[u8; BLOCK], endpoint: u32) -> Result<Record, Refusal>
    ensures { (R.look_of result ≡ Spec.answer state.now (Call.look endpoint)) × IfOk result (λ a. a ≡ R.record_of (Layout.row_of state.now (Spec.place_of_endpoint state.now endpoint))) }
{
    if !is_up(state) {
        return Err(Refusal::TunnelDown);
    }
    let place = place_served(state, endpoint)?;
    Ok(record_of(row_at(state, place)))
}
