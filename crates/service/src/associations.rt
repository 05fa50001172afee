// Open, End and Look.
ghost use Rattle.service.specs.Request as Request;
ghost use Rattle.service.specs.Reply as Spec;

use crate::answer_kind::AnswerKind;
use crate::kind::Kind;
use crate::limits::{ANSWER, ENDPOINT};
use crate::{answers, record};
use distributor::BLOCK;

pub(crate) fn open(state: &mut [u8; BLOCK], body: &[u8], out: &mut [u8; ANSWER]) -> usize
    ensures { Spec.Serves (Request.request_by Kind.Open body.now) state.old state.new out.old out.new result }
{
    if body.len() < ENDPOINT {
        return answers::plain(out, AnswerKind::Misshapen);
    }
    let endpoint = octets::number32(body, 0);
    let identifier = &body[ENDPOINT..];
    match distributor::open(state, identifier, endpoint) {
        Ok(place) => answers::placed(out, place),
        Err(refusal) => answers::refused(out, refusal, 0),
    }
}

pub(crate) fn end(state: &mut [u8; BLOCK], body: &[u8], out: &mut [u8; ANSWER]) -> usize
    ensures { Spec.Serves (Request.request_by Kind.End body.now) state.old state.new out.old out.new result }
{
    if !body.is_empty() {
        return answers::plain(out, AnswerKind::Misshapen);
    }
    match distributor::end(state) {
        Ok(()) => answers::plain(out, AnswerKind::Ended),
        Err(refusal) => answers::refused(out, refusal, 0),
    }
}

pub(crate) fn look(state: &[u8; BLOCK], body: &[u8], out: &mut [u8; ANSWER]) -> usize
    ensures { Spec.Replies (Spec.reply state.now (Request.request_by Kind.Look body.now)) out.old out.new result }
{
    if body.len() != ENDPOINT {
        return answers::plain(out, AnswerKind::Misshapen);
    }
    match distributor::look(state, octets::number32(body, 0)) {
        Ok(r) => record::found(out, &r),
        Err(refusal) => answers::refused(out, refusal, 0),
    }
}
