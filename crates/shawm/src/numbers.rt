// The numbers that a message holds, by C's numbers: 16 version, 17 profile.
ghost use Rattle.std.specs.Prelude.{◌≡◌};
ghost use Rattle.message.specs.Read.{reading};
ghost use Rattle.shawm.specs.Numbers.{number_in, field_number};

use message::Fields;

#[tactic(auto, unfolding(crate::specs::Numbers::number_in))]
fn number_in(fields: Fields, field: u32) -> u32
    ensures { result ≡ number_in fields field }
{
    match (field, fields) {
        (16, Fields::SupportedProfiles { version, .. }) => u32::from(version),
        (16, Fields::UnsupportedVersion { version }) => u32::from(version),
        (17, Fields::MediaKeys { profile, .. }) => u32::from(profile),
        _ => 0,
    }
}

// The number with this field number in the message at the front of s; 0 where there is none.
#[unsafe(no_mangle)]
pub extern "C" fn shawm_field_number(s: &[u8], field: u32) -> u32
    ensures { result ≡ field_number (reading s.now) field }
{
    match message::read_message(s) {
        Ok(Some(message)) => number_in(message.fields, field),
        Ok(None) | Err(_) => 0,
    }
}
