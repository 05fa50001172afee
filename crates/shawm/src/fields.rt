// Where a field of the message at the front of s stands: 1 identifier, 2 profile list, 3 MKI,
// 4 client key, 5 server key, 6 client salt, 7 server salt, 8 DTLS octets.
ghost use Rattle.std.specs.Prelude.{◌≡◌, length};
ghost use Rattle.octets.specs.Bounds.{part_in};
ghost use Rattle.shawm.specs.Fields.{field_bounds};

use octets::{Bounds, NOWHERE};

// The bounds of the field with this number, one of C's.
#[tactic(auto, unfolding(crate::specs::Fields::field_bounds, crate::specs::Fields::numbered_bounds))]
fn field_bounds(s: &[u8], field: u32) -> Bounds
    ensures { result ≡ field_bounds s.now field }
{
    let p = message::bounds_of(message::read_message(s));
    match field {
        1 => p.identifier,
        2 => p.profile_list,
        3 => p.keys.mki,
        4 => p.keys.client_key,
        5 => p.keys.server_key,
        6 => p.keys.client_salt,
        7 => p.keys.server_salt,
        8 => p.dtls,
        _ => NOWHERE,
    }
}

// The offset of its first octet; 0 where there is no such field.
#[unsafe(no_mangle)]
pub extern "C" fn shawm_field_start(s: &[u8], field: u32) -> usize
    ensures { result ≡ (field_bounds s.now field).start }
{
    field_bounds(s, field).start
}

// The number of its octets; 0 where there is no such field.
#[unsafe(no_mangle)]
pub extern "C" fn shawm_field_length(s: &[u8], field: u32) -> usize
    ensures { result ≡ length (part_in s.now (field_bounds s.now field)) }
{
    octets::part_in(s, field_bounds(s, field)).len()
}
