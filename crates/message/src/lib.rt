// The tunnel messages between a media distributor and a key distributor (RFC 9185, section 6): what they
// are, read and written, and their reading; and the rules on profiles and key lengths that tables of associations share.
#![tactic(auto)]

mod bodies;
mod bounds;
mod example;
mod framing;
mod keys;
pub mod limits;
mod profiles;
mod reading;
mod tunneled;
mod walking;

pub use bodies::{Fields, KeyLengths, read_body};
pub use bounds::{
    Field, FieldBounds, KeyBounds, body, bounds_of, dtls, dtls_bounds, field_of, identifier,
};
pub use example::two_profiles;
pub use framing::{Frame, Kind, plain_frame, read_frame, version_frame};
pub use keys::Keys;
pub use profiles::{good_list, in_list, is_profile, key_length};
pub use reading::{Message, Refused, read_message};
pub use tunneled::dtls_length;
