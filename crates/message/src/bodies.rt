// What a body holds, by the message's kind. The body alone is read.
ghost use Rattle.std.specs.Prelude.{◌≡◌, true, cond, ltb, length, Ok, Err};
ghost use Rattle.octets.specs.Number.{octet_at};
ghost use Rattle.octets.specs.declared.refusal.Refusal.TheVariants.{BadBody};
ghost use Rattle.message.specs.Body as Spec;
ghost use Rattle.message.specs.Walk as Walk;

use crate::framing::Kind;
use crate::keys::Keys;
use crate::limits::WIDTH;
use crate::walking;
use octets::Refusal;

// The length octets of MediaKeys.
pub type KeyLengths = Keys<u8>;

// The numbers and lengths of a message's fields; `bounds_of` tells where they stand.
#[derive(Clone, Copy)]
pub enum Fields {
    SupportedProfiles { version: u8, list_length: u16 },
    UnsupportedVersion { version: u8 },
    MediaKeys { profile: u16, lengths: KeyLengths },
    TunneledDtls { dtls_length: u16 },
    EndpointDisconnect,
}

// A SupportedProfiles: version 1, then the list.
#[tactic(auto, using(crate::proofs::WalkEnds::stands_still))]
fn walk_profiles(body: &[u8]) -> Result<usize, usize>
    ensures { Walk.walk_of result ≡ Walk.profile_list body.now (Walk.fixed body.now 1 Walk.begin) }
{
    let list_at = walking::fixed(body, 1, 0)?;
    walking::profile_list(body, list_at)
}

#[tactic(auto, using(crate::proofs::WalkEnds::profiles_whole, crate::proofs::WalkEnds::profiles_bad))]
fn supported_profiles(body: &[u8]) -> Result<Fields, Refusal>
    ensures { Spec.content_of result ≡ Spec.supported_profiles body.now }
{
    if walk_profiles(body) != Ok(body.len()) {
        return Err(Refusal::BadBody);
    }
    Ok(Fields::SupportedProfiles {
        version: octets::octet(body, 0),
        list_length: octets::number16(body, 1),
    })
}

#[tactic(auto, unfolding(crate::specs::Body::unsupported_version))]
fn unsupported_version(body: &[u8]) -> Result<Fields, Refusal>
    ensures { Spec.content_of result ≡ Spec.unsupported_version body.now }
{
    if body.is_empty() {
        return Err(Refusal::BadBody);
    }
    Ok(Fields::UnsupportedVersion {
        version: octets::octet(body, 0),
    })
}

// A length octet; past the end of the body there is none. With a 0 in its place, which the one test below refuses as well, a
// message with keys takes 15 instructions more: a compiler lays a jump past that 0 on the way of each of the five.
#[tactic(auto, using(octets::proofs::Tests::tests))]
fn length_octet(body: &[u8], at: usize) -> Result<u8, Refusal>
    ensures { result ≡ cond (ltb at (length body.now)) (Ok (octet_at body.now at)) (Err BadBody) }
{
    if at < body.len() {
        Ok(octets::octet(body, at))
    } else {
        Err(Refusal::BadBody)
    }
}

// One test of where the fields end, here and in the two functions below: where the last one ends the body, each ends within it.
#[tactic(auto, using(crate::proofs::KeyEnds::one_test, crate::proofs::KeyEnds::beyond))]
fn media_keys(body: &[u8]) -> Result<Fields, Refusal>
    ensures { Spec.content_of result ≡ Spec.media_keys body.now }
{
    let mki = length_octet(body, WIDTH + 2)?;
    let client_key_at = WIDTH + 3 + mki as usize;
    let client_key = length_octet(body, client_key_at)?;
    let server_key_at = client_key_at + 1 + client_key as usize;
    let server_key = length_octet(body, server_key_at)?;
    let client_salt_at = server_key_at + 1 + server_key as usize;
    let client_salt = length_octet(body, client_salt_at)?;
    let server_salt_at = client_salt_at + 1 + client_salt as usize;
    let server_salt = length_octet(body, server_salt_at)?;
    let end = server_salt_at + 1 + server_salt as usize;
    let some = (1 <= client_key) & (1 <= server_key) & (1 <= client_salt) & (1 <= server_salt);
    if !(some & (end == body.len())) {
        return Err(Refusal::BadBody);
    }
    Ok(Fields::MediaKeys {
        profile: octets::number16(body, WIDTH),
        lengths: KeyLengths {
            mki,
            client_key,
            server_key,
            client_salt,
            server_salt,
        },
    })
}

#[tactic(auto, using(crate::proofs::WalkEnds::dtls_whole, crate::proofs::WalkEnds::dtls_bad))]
fn tunneled_dtls(body: &[u8]) -> Result<Fields, Refusal>
    ensures { Spec.content_of result ≡ Spec.tunneled_dtls body.now }
{
    if body.len() <= WIDTH + 2 {
        return Err(Refusal::BadBody);
    }
    let dtls_length = octets::number16(body, WIDTH);
    if WIDTH + 2 + dtls_length as usize != body.len() {
        return Err(Refusal::BadBody);
    }
    Ok(Fields::TunneledDtls { dtls_length })
}

#[tactic(auto, using(crate::proofs::WalkEnds::disconnect_whole, crate::proofs::WalkEnds::disconnect_bad))]
fn endpoint_disconnect(body: &[u8]) -> Result<Fields, Refusal>
    ensures { Spec.content_of result ≡ Spec.endpoint_disconnect body.now }
{
    if body.len() != WIDTH {
        return Err(Refusal::BadBody);
    }
    Ok(Fields::EndpointDisconnect)
}

#[tactic(auto, unfolding(crate::specs::Body::content))]
pub fn read_body(kind: Kind, body: &[u8]) -> Result<Fields, Refusal>
    ensures { Spec.content_of result ≡ Spec.content kind body.now }
{
    match kind {
        Kind::SupportedProfiles => supported_profiles(body),
        Kind::UnsupportedVersion => unsupported_version(body),
        Kind::MediaKeys => media_keys(body),
        Kind::TunneledDtls => tunneled_dtls(body),
        Kind::EndpointDisconnect => endpoint_disconnect(body),
        Kind::Unlisted => Err(Refusal::UnlistedType),
    }
}
