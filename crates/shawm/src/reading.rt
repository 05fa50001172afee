// What reading the front of lent octets answers, as numbers.
ghost use Rattle.std.specs.Prelude.{◌≡◌, List, ℕ};
ghost use Rattle.message.specs.Message.{type_of};
ghost use Rattle.message.specs.Parts.{meaning};
ghost use Rattle.message.specs.Read.{reading};
ghost use Rattle.shawm.specs.Reading.{read_number, taken_by};

use crate::refusal::refused;
use message::Fields;

// The type of a message with these fields, as C has it.
#[tactic(auto, unfolding(message::specs::Parts::meaning))]
fn type_number(fields: Fields) -> u32
    ensures { (s : List ℕ) → result ≡ type_of (meaning s fields) }
{
    match fields {
        Fields::SupportedProfiles { .. } => 1,
        Fields::UnsupportedVersion { .. } => 2,
        Fields::MediaKeys { .. } => 3,
        Fields::TunneledDtls { .. } => 4,
        Fields::EndpointDisconnect => 5,
    }
}

// The type of the message at the front of s, 0 where more octets are needed, or a refusal.
#[unsafe(no_mangle)]
pub extern "C" fn shawm_read(s: &[u8]) -> u32
    ensures { result ≡ read_number s.now (reading s.now) }
{
    match message::read_message(s) {
        Ok(None) => 0,
        Ok(Some(message)) => type_number(message.fields),
        Err(e) => refused(e.refusal),
    }
}

// The octets that this reading takes, refused or not.
#[unsafe(no_mangle)]
pub extern "C" fn shawm_taken(s: &[u8]) -> usize
    ensures { result ≡ taken_by (reading s.now) }
{
    match message::read_message(s) {
        Ok(None) => 0,
        Ok(Some(message)) => message.taken,
        Err(e) => e.taken,
    }
}
