// The five tunnel messages, written from their fields (RFC 9185, section 6). What a message and its
// octets are is defined in `message`.
#![tactic(auto)]

mod keys;
mod putting;
mod writing;

pub use keys::KeyFields;
pub use writing::{
    write_endpoint_disconnect, write_media_keys, write_supported_profiles, write_tunneled_dtls,
    write_unsupported_version,
};
