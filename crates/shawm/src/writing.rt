// Messages written from their fields at the front of an output: the octets written, or a refusal.
ghost use Rattle.message.specs.Message as M;
ghost use Rattle.shawm.specs.Writing.{Exports};

use crate::refusal::count_or_refused;
use writers::KeyFields;

// SupportedProfiles: refusals 5; 2; 13.
#[tactic(auto, using(crate::proofs::WriteLaws::answer_fits))]
#[unsafe(no_mangle)]
pub extern "C" fn shawm_write_supported_profiles(version: u8, list: &[u8], out: &mut [u8]) -> u32
    ensures { Exports (M.supported_profiles version list.now) out.old out.new result }
{
    count_or_refused(writers::write_supported_profiles(version, list, out))
}

// UnsupportedVersion: refusal 13.
#[tactic(auto, using(crate::proofs::WriteLaws::answer_fits))]
#[unsafe(no_mangle)]
pub extern "C" fn shawm_write_unsupported_version(version: u8, out: &mut [u8]) -> u32
    ensures { Exports (M.unsupported_version version) out.old out.new result }
{
    count_or_refused(writers::write_unsupported_version(version, out))
}

// MediaKeys: refusals 20; 5; 2; 13.
#[tactic(auto, using(crate::proofs::WriteLaws::answer_fits))]
#[unsafe(no_mangle)]
pub extern "C" fn shawm_write_media_keys(
    identifier: &[u8],
    profile: u16,
    mki: &[u8],
    client_key: &[u8],
    server_key: &[u8],
    client_salt: &[u8],
    server_salt: &[u8],
    out: &mut [u8],
) -> u32
    ensures { Exports (M.media_keys identifier.now profile mki.now client_key.now server_key.now client_salt.now server_salt.now) out.old out.new result }
{
    count_or_refused(writers::write_media_keys(
        identifier,
        profile,
        KeyFields {
            mki,
            client_key,
            server_key,
            client_salt,
            server_salt,
        },
        out,
    ))
}

// TunneledDtls: refusals 20; 5; 2; 13.
#[tactic(auto, using(crate::proofs::WriteLaws::answer_fits))]
#[unsafe(no_mangle)]
pub extern "C" fn shawm_write_tunneled_dtls(identifier: &[u8], dtls: &[u8], out: &mut [u8]) -> u32
    ensures { Exports (M.tunneled_dtls identifier.now dtls.now) out.old out.new result }
{
    count_or_refused(writers::write_tunneled_dtls(identifier, dtls, out))
}

// EndpointDisconnect: refusals 20; 13.
#[tactic(auto, using(crate::proofs::WriteLaws::answer_fits))]
#[unsafe(no_mangle)]
pub extern "C" fn shawm_write_endpoint_disconnect(identifier: &[u8], out: &mut [u8]) -> u32
    ensures { Exports (M.endpoint_disconnect identifier.now) out.old out.new result }
{
    count_or_refused(writers::write_endpoint_disconnect(identifier, out))
}
