// The C interface: sorting packets, reading and writing tunnel messages, splitting the EKT tag, wrapping and
// unwrapping the EKT plaintext, finding the index of a packet and reading a status page, on numbers and lent octets.
// Each export gives a number for what a crate below answers.
#![tactic(auto)]

mod fields;
mod index;
mod numbers;
mod page;
mod reading;
mod refusal;
mod sorting;
mod tag;
mod wrapping;
mod writing;

pub use fields::{shawm_field_length, shawm_field_start};
pub use index::{
    shawm_index_estimate, shawm_index_kept_highest, shawm_index_kept_roc, shawm_index_number,
};
pub use numbers::shawm_field_number;
pub use page::{shawm_page_count, shawm_page_endpoint, shawm_page_entry};
pub use reading::{shawm_read, shawm_taken};
pub use sorting::shawm_sort;
pub use tag::{shawm_tag, shawm_tag_length, shawm_tag_number, shawm_tag_start};
pub use wrapping::{shawm_unwrap, shawm_wrap};
pub use writing::{
    shawm_write_endpoint_disconnect, shawm_write_media_keys, shawm_write_supported_profiles,
    shawm_write_tunneled_dtls, shawm_write_unsupported_version,
};
