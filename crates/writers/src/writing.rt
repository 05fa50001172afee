// Messages written from their fields at the front of an output.
ghost use Rattle.std.specs.Prelude.{◌≡◌, eqb};
ghost use Rattle.message.specs.Limits.{width};
ghost use Rattle.message.specs.Message as M;
ghost use Rattle.message.specs.Write.{Writes};
ghost use Rattle.writers.specs.Keys as Keys;
ghost use Rattle.writers.specs.Outcome.{answer_of};
ghost use Rattle.writers.specs.Steps as Steps;

use crate::keys::KeyFields;
use crate::{keys, putting};
use message::limits::{BODY_BEFORE_DTLS, BODY_LIMIT, HEADER, MOST_16, WIDTH};
use octets::Refusal;

// How many octets the message has. Refusals 20; 5; 2; 13 by the identifier's length, the body's length, none where its fields
// don't fit, and the message's length. A message with no identifier gives WIDTH.
fn fit(identifier: usize, body_length: Option<usize>, room: usize) -> Result<usize, Refusal>
    ensures { answer_of result ≡ Steps.answer_for (eqb identifier width) body_length room }
{
    if identifier != WIDTH {
        return Err(Refusal::IdentifierLength);
    }
    let body_length = body_length.ok_or(Refusal::BadBody)?;
    if (BODY_LIMIT as usize) < body_length {
        return Err(Refusal::Oversize);
    }
    if room < HEADER + body_length {
        return Err(Refusal::NoRoom);
    }
    Ok(HEADER + body_length)
}

// SupportedProfiles: refusals 5; 2; 13.
#[tactic(auto, using(crate::proofs::LengthLaws::profiles_answer, crate::proofs::OutputLaws::output_told, crate::proofs::OutputLaws::output_refused))]
pub fn write_supported_profiles(version: u8, list: &[u8], out: &mut [u8]) -> Result<usize, Refusal>
    ensures { Writes (M.supported_profiles version list.now) out.old out.new (answer_of result) }
{
    let fields = octets::within(1, MOST_16, list.len()) & (list.len() % 2 == 0);
    let count = fit(WIDTH, fields.then_some(3 + list.len()), out.len())?;
    putting::supported_profiles(version, list, count, out);
    Ok(count)
}

// UnsupportedVersion: refusal 13.
#[tactic(auto, using(crate::proofs::LengthLaws::version_answer, crate::proofs::OutputLaws::output_told, crate::proofs::OutputLaws::output_refused))]
pub fn write_unsupported_version(version: u8, out: &mut [u8]) -> Result<usize, Refusal>
    ensures { Writes (M.unsupported_version version) out.old out.new (answer_of result) }
{
    let count = fit(WIDTH, Some(1), out.len())?;
    putting::unsupported_version(version, count, out);
    Ok(count)
}

// MediaKeys: refusals 20; 5; 2; 13.
#[tactic(auto, using(crate::proofs::LengthLaws::keys_answer_lem, crate::proofs::OutputLaws::output_told, crate::proofs::OutputLaws::output_refused))]
pub fn write_media_keys(
    identifier: &[u8],
    profile: u16,
    keys: KeyFields<'_>,
    out: &mut [u8],
) -> Result<usize, Refusal>
    ensures { Writes (Keys.media_keys identifier.now profile keys.entry) out.old out.new (answer_of result) }
{
    let count = fit(identifier.len(), keys::body_length(keys), out.len())?;
    putting::media_keys(identifier, profile, keys, count, out);
    Ok(count)
}

// TunneledDtls: refusals 20; 5; 2; 13.
#[tactic(auto, using(crate::proofs::LengthLaws::dtls_answer, crate::proofs::OutputLaws::output_told, crate::proofs::OutputLaws::output_refused))]
pub fn write_tunneled_dtls(identifier: &[u8], dtls: &[u8], out: &mut [u8]) -> Result<usize, Refusal>
    ensures { Writes (M.tunneled_dtls identifier.now dtls.now) out.old out.new (answer_of result) }
{
    let fields = octets::within(1, MOST_16, dtls.len());
    let body_length = fields.then_some(BODY_BEFORE_DTLS + dtls.len());
    let count = fit(identifier.len(), body_length, out.len())?;
    putting::tunneled_dtls(identifier, dtls, count, out);
    Ok(count)
}

// EndpointDisconnect: refusals 20; 13.
#[tactic(auto, using(crate::proofs::LengthLaws::disconnect_answer, crate::proofs::OutputLaws::output_told, crate::proofs::OutputLaws::output_refused))]
pub fn write_endpoint_disconnect(identifier: &[u8], out: &mut [u8]) -> Result<usize, Refusal>
    ensures { Writes (M.endpoint_disconnect identifier.now) out.old out.new (answer_of result) }
{
    let count = fit(identifier.len(), Some(WIDTH), out.len())?;
    putting::endpoint_disconnect(identifier, count, out);
    Ok(count)
}
