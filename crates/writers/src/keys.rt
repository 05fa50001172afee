// The key fields of MediaKeys, each of which stands behind one length octet.
ghost use Rattle.std.specs.Prelude.{◌≡◌};
ghost use Rattle.writers.specs.Keys as Spec;

use message::Keys;
use message::limits::{MOST_8, WIDTH};

pub type KeyFields<'a> = Keys<&'a [u8]>;

// Whether the length octets can tell them, and only the MKI is empty.
fn fit(keys: KeyFields<'_>) -> bool
    ensures { result ≡ Spec.fit keys.entry }
{
    octets::within(0, MOST_8, keys.mki.len())
        & octets::within(1, MOST_8, keys.client_key.len())
        & octets::within(1, MOST_8, keys.server_key.len())
        & octets::within(1, MOST_8, keys.client_salt.len())
        & octets::within(1, MOST_8, keys.server_salt.len())
}

// How long the body is with them; none where they don't fit.
#[tactic(auto, using(message::proofs::KeyFields::keys_fit_lem))]
pub(crate) fn body_length(keys: KeyFields<'_>) -> Option<usize>
    ensures { result ≡ Spec.body_length keys.entry }
{
    if !fit(keys) {
        return None;
    }
    let both_keys = keys.client_key.len() + keys.server_key.len();
    let both_salts = keys.client_salt.len() + keys.server_salt.len();
    Some(WIDTH + 7 + keys.mki.len() + both_keys + both_salts)
}
