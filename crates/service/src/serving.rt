// One request.
ghost use Rattle.std.specs.Prelude.{◌≤◌, length};
ghost use Rattle.service.specs.Limits.{room};
ghost use Rattle.service.specs.Request as Request;
ghost use Rattle.service.specs.Reply as Spec;

use crate::answer_kind::AnswerKind;
use crate::kind::Kind;
use crate::limits::{ANSWER, FRAME_LIMIT};
use crate::{answers, associations, receiving, writing};
use distributor::BLOCK;

// By the kind, and what is behind the kind octet. The block, the body and the output stay three parameters: a struct would
// lend the block to be changed to those, too, that only read it.
#[tactic(auto, using(crate::proofs::RequestLaws::keeps))]
fn serve_kind(state: &mut [u8; BLOCK], kind: Kind, body: &[u8], out: &mut [u8; ANSWER]) -> usize
    requires { length body.now ≤ room }
    ensures { Spec.Serves (Request.request_by kind body.now) state.old state.new out.old out.new result }
{
    match kind {
        Kind::Start => writing::start(state, body, out),
        Kind::Open => associations::open(state, body, out),
        Kind::BoothPacket => writing::booth_packet(state, body, out),
        Kind::TunnelOctets => receiving::tunnel_octets(state, body, out),
        Kind::Close => writing::close(state, body, out),
        Kind::End => associations::end(state, body, out),
        Kind::Look => associations::look(state, body, out),
        Kind::WritePage => writing::write_page(state, body, out),
        Kind::Unknown => answers::plain(out, AnswerKind::Unknown),
    }
}

// Serves the request that a frame stands for, and answers the length of the answer frame, which
// stands at the front of the output.
#[tactic(auto, using(crate::proofs::RequestLaws::frames))]
pub fn serve_one(state: &mut [u8; BLOCK], frame: &[u8], out: &mut [u8; ANSWER]) -> usize
    ensures { Spec.Serves (Request.request_of frame.now) state.old state.new out.old out.new result }
{
    if FRAME_LIMIT < frame.len() {
        return answers::plain(out, AnswerKind::TooLong);
    }
    let Some((first, body)) = frame.split_first() else {
        return answers::plain(out, AnswerKind::Misshapen);
    };
    serve_kind(state, Kind::from(*first), body, out)
}

// The answer to a frame above the limit, for a caller that has skipped it.
pub fn too_long(out: &mut [u8; ANSWER]) -> usize
    ensures { Spec.Replies (Spec.own_reply Request.too_long_kind) out.old out.new result }
{
    answers::plain(out, AnswerKind::TooLong)
}
