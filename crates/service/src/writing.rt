// Requests whose calls write a message, Start, Booth packet and Close, or the status page. Each makes its call by itself:
// one function over a closure would have to promise, of every call, all that the four promise here.
ghost use Rattle.service.specs.Limits.{room};
ghost use Rattle.rules.specs.Call as Call;
ghost use Rattle.service.specs.Request as Request;
ghost use Rattle.service.specs.Reply as Spec;

use crate::answer_kind::AnswerKind;
use crate::answers;
use crate::kind::Kind;
use crate::limits::{ANSWER, ENDPOINT, HEAD};
use distributor::BLOCK;

pub(crate) fn start(state: &mut [u8; BLOCK], body: &[u8], out: &mut [u8; ANSWER]) -> usize
    ensures { Spec.Serves (Request.request_by Kind.Start body.now) state.old state.new out.old out.new result }
{
    let sent = distributor::start(state, body, &mut out[HEAD..]);
    answers::sent(out, AnswerKind::Written, sent)
}

fn send_packet(state: &[u8; BLOCK], endpoint: u32, packet: &[u8], out: &mut [u8; ANSWER]) -> usize
    ensures { Spec.Replies (Spec.reply state.now (Request.call (Call.booth_packet endpoint packet.now room))) out.old out.new result }
{
    let sent = distributor::booth_packet(state, endpoint, packet, &mut out[HEAD..]);
    answers::sent(out, AnswerKind::Written, sent)
}

pub(crate) fn booth_packet(state: &[u8; BLOCK], body: &[u8], out: &mut [u8; ANSWER]) -> usize
    ensures { Spec.Replies (Spec.reply state.now (Request.request_by Kind.BoothPacket body.now)) out.old out.new result }
{
    if body.len() < ENDPOINT {
        return answers::plain(out, AnswerKind::Misshapen);
    }
    send_packet(state, octets::number32(body, 0), &body[ENDPOINT..], out)
}

pub(crate) fn close(state: &mut [u8; BLOCK], body: &[u8], out: &mut [u8; ANSWER]) -> usize
    ensures { Spec.Serves (Request.request_by Kind.Close body.now) state.old state.new out.old out.new result }
{
    let sent = distributor::close(state, body, &mut out[HEAD..]);
    answers::sent(out, AnswerKind::Written, sent)
}

fn send_page(state: &[u8; BLOCK], out: &mut [u8; ANSWER]) -> usize
    ensures { Spec.Replies (Spec.reply state.now (Request.call (Call.write_page room))) out.old out.new result }
{
    let sent = distributor::write_page(state, &mut out[HEAD..]);
    answers::sent(out, AnswerKind::Page, sent)
}

pub(crate) fn write_page(state: &[u8; BLOCK], body: &[u8], out: &mut [u8; ANSWER]) -> usize
    ensures { Spec.Replies (Spec.reply state.now (Request.request_by Kind.WritePage body.now)) out.old out.new result }
{
    if !body.is_empty() {
        return answers::plain(out, AnswerKind::Misshapen);
    }
    send_page(state, out)
}
