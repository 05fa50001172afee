// The SRTP protection profiles that we speak, and the rules that tables of associations share.
ghost use Rattle.std.specs.Prelude.{◌≡◌};
ghost use Rattle.message.specs.Profiles as Spec;

use crate::bodies::KeyLengths;
use crate::limits::{MKI_LIMIT, SALT_LIMIT};

// The length of a profile's keys; none where it is none of ours.
#[tactic(auto, unfolding(crate::specs::Profiles::found_key_length, crate::specs::Profiles::key_length, crate::specs::Profiles::is_profile))]
pub fn key_length(profile: u16) -> Option<u8>
    ensures { result ≡ Spec.found_key_length profile }
{
    match profile {
        0x0009 => Some(16),
        0x000A => Some(32),
        _ => None,
    }
}

#[tactic(auto, using(crate::proofs::ProfileLaws::is_found))]
pub fn is_profile(profile: u16) -> bool
    ensures { result ≡ Spec.is_profile profile }
{
    key_length(profile).is_some()
}

// Whether a profile is in a list of octets, two to a profile; a lone last octet is none.
pub fn in_list(profile: u16, list: &[u8]) -> bool
    ensures { result ≡ Spec.in_list profile list.now }
{
    let (entries, _) = list.as_chunks::<2>();
    entries
        .iter()
        .any(|entry| u16::from_be_bytes(*entry) == profile)
}

// Whether every entry is a profile that does not come again.
#[tactic(auto, using(crate::proofs::ProfileLaws::sound_first, crate::proofs::ProfileLaws::sound_end))]
fn sound(list: &[u8]) -> bool
    ensures { result ≡ Spec.sound (Spec.entries list.now) }
{
    let mut rest = list;
    while let Some((entry, tail)) = rest.split_first_chunk::<2>() {
        let profile = u16::from_be_bytes(*entry);
        if !is_profile(profile) | in_list(profile, tail) {
            return false;
        }
        rest = tail;
    }
    true
}

// Whether a list is not empty, of even length, with no repeat, every entry a profile.
#[tactic(auto, unfolding(crate::specs::Profiles::good_list))]
pub fn good_list(list: &[u8]) -> bool
    ensures { result ≡ Spec.good_list list.now }
{
    (list.len() != 0) & (list.len() % 2 == 0) & sound(list)
}

impl KeyLengths {
    // Whether both keys have the profile's length; of what is no profile they have none.
    #[tactic(auto, using(crate::proofs::ProfileLaws::found_or_none), unfolding(crate::specs::Profiles::keys_fit))]
    pub fn keys_fit(self, profile: u16) -> bool
        ensures { result ≡ Spec.keys_fit profile self }
    {
        let n = key_length(profile).unwrap_or(0);
        (self.client_key == n) & (self.server_key == n)
    }

    // Whether the MKI and the salts are within a table's limits.
    #[tactic(auto, unfolding(crate::specs::Profiles::mki_and_salts_fit))]
    pub fn mki_and_salts_fit(self) -> bool
        ensures { result ≡ Spec.mki_and_salts_fit self }
    {
        (self.mki <= MKI_LIMIT)
            & (self.client_salt <= SALT_LIMIT)
            & (self.server_salt <= SALT_LIMIT)
    }
}
