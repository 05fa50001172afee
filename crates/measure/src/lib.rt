// The calls exported for `make bench` and for nothing else: not the product's C interface.
// A refusal is its number plus 2^32; what an accepted call answers stands at each function.
#![tactic(auto)]

ghost use Rattle.std.specs.Prelude.{◌<◌};

use distributor::{BLOCK, Padded, Received, Record, RecordKeys};
use octets::Refusal;

const REFUSED: u64 = 0x1_0000_0000;

fn refused(refusal: Refusal) -> u64 {
    REFUSED + u64::from(u8::from(refusal))
}

// A count of octets, or a place.
fn number(answer: Result<usize, Refusal>) -> u64 {
    match answer {
        Ok(n) => n as u64,
        Err(refusal) => refused(refusal),
    }
}

// The length of the block, for the caller to see that its own is right.
#[unsafe(no_mangle)]
pub extern "C" fn measure_block() -> u64 {
    BLOCK as u64
}

// The octets written.
#[unsafe(no_mangle)]
pub extern "C" fn measure_start(state: &mut [u8; BLOCK], list: &[u8], out: &mut [u8]) -> u64 {
    number(distributor::start(state, list, out))
}

// The place.
#[unsafe(no_mangle)]
pub extern "C" fn measure_open(state: &mut [u8; BLOCK], identifier: &[u8], endpoint: u32) -> u64 {
    number(distributor::open(state, identifier, endpoint))
}

// The octets written.
#[unsafe(no_mangle)]
pub extern "C" fn measure_packet(
    state: &[u8; BLOCK],
    endpoint: u32,
    packet: &[u8],
    out: &mut [u8],
) -> u64 {
    number(distributor::booth_packet(state, endpoint, packet, out))
}

// The octets taken; 0 where more are needed. A refusal's are in the first of the three lent numbers,
// which is 0 for keys stored and 1 for a record removed, with the endpoint in the second, 2 + the
// version, or 2^16 + the endpoint with the DTLS octets' bounds in the other two.
#[unsafe(no_mangle)]
pub extern "C" fn measure_octets(state: &mut [u8; BLOCK], s: &[u8], more: &mut [u64; 3]) -> u64 {
    match distributor::tunnel_octets(state, s) {
        Err(r) => {
            more[0] = r.taken as u64;
            refused(r.refusal)
        }
        Ok(Received::MoreNeeded) => 0,
        Ok(Received::KeysStored { endpoint, taken }) => {
            more[0] = 0;
            more[1] = u64::from(endpoint);
            taken as u64
        }
        Ok(
            Received::Delivery {
                endpoint,
                dtls,
                taken,
            },
        ) => {
            more[0] = 65536 + u64::from(endpoint);
            more[1] = dtls.start as u64;
            more[2] = dtls.end as u64;
            taken as u64
        }
        Ok(Received::Disconnected { endpoint, taken }) => {
            more[0] = 1;
            more[1] = u64::from(endpoint);
            taken as u64
        }
        Ok(Received::Version { version, taken }) => {
            more[0] = 2 + u64::from(version);
            taken as u64
        }
    }
}

// The octets written.
#[unsafe(no_mangle)]
pub extern "C" fn measure_close(state: &mut [u8; BLOCK], identifier: &[u8], out: &mut [u8]) -> u64 {
    number(distributor::close(state, identifier, out))
}

// The octets written.
#[unsafe(no_mangle)]
pub extern "C" fn measure_page(state: &[u8; BLOCK], out: &mut [u8]) -> u64 {
    number(distributor::write_page(state, out))
}

// 0.
#[unsafe(no_mangle)]
pub extern "C" fn measure_end(state: &mut [u8; BLOCK]) -> u64 {
    match distributor::end(state) {
        Ok(()) => 0,
        Err(refusal) => refused(refusal),
    }
}

// Where the fields of a record stand in the lent octets.
const KEYED: usize = 0;

const IDENTIFIER: usize = 1;

const PROFILE: usize = IDENTIFIER + 16;

const MKI: usize = PROFILE + 2;

const CLIENT_KEY: usize = MKI + 17;

const SERVER_KEY: usize = CLIENT_KEY + 33;

const CLIENT_SALT: usize = SERVER_KEY + 33;

const SERVER_SALT: usize = CLIENT_SALT + 33;

const RECORD: usize = SERVER_SALT + 33;

fn hand_over_field<const N: usize>(field: Padded<N>, at: usize, out: &mut [u8; RECORD])
    requires { at < RECORD }
{
    octets::put_octet(out, at, field.length);
    octets::put_octets(out, at + 1, &field.octets);
}

fn hand_over_keys(keys: RecordKeys, out: &mut [u8; RECORD]) {
    octets::put_number16(out, PROFILE, keys.profile);
    hand_over_field(keys.mki, MKI, out);
    hand_over_field(keys.client_key, CLIENT_KEY, out);
    hand_over_field(keys.server_key, SERVER_KEY, out);
    hand_over_field(keys.client_salt, CLIENT_SALT, out);
    hand_over_field(keys.server_salt, SERVER_SALT, out);
}

fn hand_over(record: Record, out: &mut [u8; RECORD]) {
    octets::put_octets(out, IDENTIFIER, &record.identifier);
    match record.keys {
        Some(keys) => {
            octets::put_octet(out, KEYED, 1);
            hand_over_keys(keys, out);
        }
        None => {
            octets::put_octet(out, KEYED, 0);
            octets::put_octets(out, PROFILE, &[0; RECORD - PROFILE]);
        }
    }
}

// The endpoint of the record, whose other fields are handed over.
#[unsafe(no_mangle)]
pub extern "C" fn measure_look(state: &[u8; BLOCK], endpoint: u32, out: &mut [u8; RECORD]) -> u64 {
    match distributor::look(state, endpoint) {
        Ok(record) => {
            let endpoint = record.endpoint;
            hand_over(record, out);
            u64::from(endpoint)
        }
        Err(refusal) => refused(refusal),
    }
}

// The key schedule of AES-128.
#[unsafe(no_mangle)]
pub extern "C" fn measure_expand(key: &[u8; 16], w: &mut [u8; 176]) {
    *w = aes::expand(*key);
}

// A block in place, enciphered with a schedule.
#[unsafe(no_mangle)]
pub extern "C" fn measure_encrypt(w: &[u8; 176], block: &mut [u8; 16]) {
    *block = aes::encrypt_block(w, *block);
}

// A block in place, deciphered with a schedule.
#[unsafe(no_mangle)]
pub extern "C" fn measure_decrypt(w: &[u8; 176], block: &mut [u8; 16]) {
    *block = aes::decrypt_block(w, *block);
}
