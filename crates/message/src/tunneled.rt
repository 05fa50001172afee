// A whole TunneledDtls at the front of lent octets, told by a few tests: most octets from a key distributor are one.
ghost use Rattle.std.specs.Prelude.{◌≡◌};
ghost use Rattle.message.specs.Read.{reading};
ghost use Rattle.message.specs.Parts.{dtls_found};

use crate::framing::Kind;
use crate::limits::{BEFORE_DTLS, BODY_BEFORE_DTLS, BODY_LIMIT, DTLS_LENGTH_AT, HEADER};

// How many DTLS octets the message has that reading finds; none where it finds no TunneledDtls.
#[tactic(auto, using(crate::proofs::TunneledLaws::none_found, crate::proofs::TunneledLaws::so_many))]
pub fn dtls_length(s: &[u8]) -> Option<u16>
    ensures { result ≡ dtls_found (reading s.now) }
{
    if BEFORE_DTLS < s.len() {
        if octets::octet(s, 0) == Kind::TunneledDtls as u8 {
            let body_length = octets::number16(s, 1);
            let dtls_length = octets::number16(s, DTLS_LENGTH_AT);
            let some = 1 <= dtls_length;
            let whole = HEADER + body_length as usize <= s.len();
            let ends = body_length as usize == BODY_BEFORE_DTLS + dtls_length as usize;
            if some & (body_length <= BODY_LIMIT) & whole & ends {
                return Some(dtls_length);
            }
        }
    }
    None
}
