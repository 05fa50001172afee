// The index of an SRTP packet from its sequence number (RFC 3711, section 3.3.1 and appendix A).
#![tactic(auto)]

mod estimating;
mod stream;
mod updating;

pub use estimating::Estimate;
pub use stream::Stream;
