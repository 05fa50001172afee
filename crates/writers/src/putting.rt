// The octets of messages, piece behind piece, in an output that has room for them.
// Output and offset stay two parameters, as in `octets`, whose writers serve every crate: a struct of both would be taken apart
// at each call of these.
ghost use Rattle.std.specs.Prelude.{◌≡◌, ◌∷◌, ◌++◌, ◌-◌, ◌≤◌, length};
ghost use Rattle.octets.specs.Number.{octets16};
ghost use Rattle.octets.specs.Write.{over};
ghost use Rattle.message.specs.Limits.{header, most8, most16};
ghost use Rattle.message.specs.Frame.{octet_of};
ghost use Rattle.message.specs.Message as M;
ghost use Rattle.message.specs.Write.{front, writing, written};
ghost use Rattle.writers.specs.Keys.{media_keys};
ghost use Rattle.writers.specs.Steps.{Puts};

use crate::keys::KeyFields;
use message::Kind;
use message::limits::HEADER;

// The type and the length of the body of a message of so many octets.
fn put_header(kind: Kind, count: usize, out: &mut [u8]) -> usize
    requires { (header ≤ count) × (count ≤ most16) × (header ≤ length out.old) }
    ensures { (result ≡ header) × (out.new ≡ over out.old 0 (octet_of kind ∷ octets16 (count - header))) }
{
    let at = octets::put_octet(out, 0, u8::from(kind));
    octets::put_number16(out, at, (count - HEADER) as u16)
}

// A field behind its length octet, where there is room. This and the next are two lines each: for one function of both, its
// seven calls would each cast the length and prove that it fits.
fn put_vector8(field: &[u8], at: usize, out: &mut [u8]) -> usize
    requires { length field.now ≤ most8 }
    ensures { Puts out.old at (M.vector8 field.now) result out.new }
{
    let next = octets::put_octet(out, at, field.len() as u8);
    octets::put_octets(out, next, field)
}

// A field behind its two length octets, where there is room.
fn put_vector16(field: &[u8], at: usize, out: &mut [u8]) -> usize
    requires { length field.now ≤ most16 }
    ensures { Puts out.old at (M.vector16 field.now) result out.new }
{
    let next = octets::put_number16(out, at, field.len() as u16);
    octets::put_octets(out, next, field)
}

#[tactic(auto, using(crate::proofs::Pieces::header_fits, crate::proofs::Pieces::list_written))]
pub(crate) fn supported_profiles(version: u8, list: &[u8], count: usize, out: &mut [u8])
    requires { writing (M.supported_profiles version list.now) (length out.old) ≡ written count }
    ensures { out.new ≡ front (M.supported_profiles version list.now) out.old }
{
    let a = put_header(Kind::SupportedProfiles, count, out);
    let b = octets::put_octet(out, a, version);
    put_vector16(list, b, out);
}

#[tactic(auto, using(crate::proofs::Pieces::header_fits))]
pub(crate) fn unsupported_version(version: u8, count: usize, out: &mut [u8])
    requires { writing (M.unsupported_version version) (length out.old) ≡ written count }
    ensures { out.new ≡ front (M.unsupported_version version) out.old }
{
    let a = put_header(Kind::UnsupportedVersion, count, out);
    octets::put_octet(out, a, version);
}

#[tactic(auto, using(crate::proofs::Pieces::header_fits, message::proofs::KeyFields::keys_written))]
pub(crate) fn media_keys(
    identifier: &[u8],
    profile: u16,
    keys: KeyFields<'_>,
    count: usize,
    out: &mut [u8],
)
    requires { writing (media_keys identifier.now profile keys) (length out.old) ≡ written count }
    ensures { out.new ≡ front (media_keys identifier.now profile keys.entry) out.old }
{
    let a = put_header(Kind::MediaKeys, count, out);
    let b = octets::put_octets(out, a, identifier);
    let c = octets::put_number16(out, b, profile);
    let d = put_vector8(keys.mki, c, out);
    let e = put_vector8(keys.client_key, d, out);
    let f = put_vector8(keys.server_key, e, out);
    let g = put_vector8(keys.client_salt, f, out);
    put_vector8(keys.server_salt, g, out);
}

#[tactic(auto, using(crate::proofs::Pieces::header_fits, crate::proofs::Pieces::dtls_written))]
pub(crate) fn tunneled_dtls(identifier: &[u8], dtls: &[u8], count: usize, out: &mut [u8])
    requires { writing (M.tunneled_dtls identifier.now dtls.now) (length out.old) ≡ written count }
    ensures { out.new ≡ front (M.tunneled_dtls identifier.now dtls.now) out.old }
{
    let a = put_header(Kind::TunneledDtls, count, out);
    let b = octets::put_octets(out, a, identifier);
    put_vector16(dtls, b, out);
}

#[tactic(auto, using(crate::proofs::Pieces::header_fits))]
pub(crate) fn endpoint_disconnect(identifier: &[u8], count: usize, out: &mut [u8])
    requires { writing (M.endpoint_disconnect identifier.now) (length out.old) ≡ written count }
    ensures { out.new ≡ front (M.endpoint_disconnect identifier.now) out.old }
{
    let a = put_header(Kind::EndpointDisconnect, count, out);
    octets::put_octets(out, a, identifier);
}
