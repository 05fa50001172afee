// One request of the relay served on lent octets: a frame in, an answer frame out, the distributor's
// block in between (docs/RELAY.md).
#![tactic(auto)]

mod answer_kind;
mod answers;
mod associations;
mod kind;
pub mod limits;
mod receiving;
mod record;
mod serving;
mod writing;

pub use limits::{ANSWER, FRAME_LIMIT};
pub use serving::{serve_one, too_long};
