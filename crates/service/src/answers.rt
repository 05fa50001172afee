// Answer frames, each written at the front of an output that has room for it; each function answers
// the frame's length.
ghost use Rattle.std.specs.Prelude.{◌≡◌, [], ◌∷◌, ◌++◌, ◌+◌, ◌≤◌, length};
ghost use Rattle.octets.specs.Number.{octets16, octets_of_32};
ghost use Rattle.octets.specs.Refusal.{number_of};
ghost use Rattle.octets.specs.Write.{over};
ghost use Rattle.rules.specs.Answer as Answer;
ghost use Rattle.service.specs.AnswerKind as Kind;
ghost use Rattle.service.specs.Limits.{answer_limit, endpoint_length, head_length};
ghost use Rattle.service.specs.Reply as Spec;
ghost use Rattle.service.specs.Sending as Sending;

use crate::answer_kind::AnswerKind;
use crate::limits::{ANSWER, HEAD};
use octets::Refusal;

// The two lowest octets of a number.
fn lowest(n: usize) -> [u8; 2]
    ensures { result ≡ octets16 n }
{
    ((n % 65536) as u16).to_be_bytes()
}

// The head of an answer with so many octets behind it.
#[tactic(auto, using(octets::proofs::WriteLaws::put_whole))]
pub(crate) fn put_head(out: &mut [u8; ANSWER], kind: AnswerKind, count: usize)
    requires { head_length + count ≤ answer_limit }
    ensures { out.new ≡ over out.old 0 (octets16 (1 + count) ++ Kind.number_of kind ∷ []) }
{
    let [high, low] = lowest(1 + count);
    octets::put_octets(out, 0, &[high, low, u8::from(kind)]);
}

// An answer of a kind and its values.
fn frame(out: &mut [u8; ANSWER], kind: AnswerKind, values: &[u8]) -> usize
    requires { head_length + length values.now ≤ answer_limit }
    ensures { Spec.Replies (Spec.frame_of (Kind.number_of kind ∷ values.now)) out.old out.new result }
{
    put_head(out, kind, values.len());
    octets::put_octets(out, HEAD, values)
}

// An answer that is its kind alone.
pub(crate) fn plain(out: &mut [u8; ANSWER], kind: AnswerKind) -> usize
    ensures { Spec.Replies (Spec.frame_of (Kind.number_of kind ∷ [])) out.old out.new result }
{
    frame(out, kind, &[])
}

pub(crate) fn refused(out: &mut [u8; ANSWER], refusal: Refusal, taken: usize) -> usize
    ensures { Spec.Replies (Spec.frame_of (Spec.answer_octets [] (Answer.refused (number_of refusal) taken))) out.old out.new result }
{
    let [high, low] = lowest(taken);
    frame(out, AnswerKind::Refused, &[u8::from(refusal), high, low])
}

pub(crate) fn placed(out: &mut [u8; ANSWER], place: usize) -> usize
    ensures { Spec.Replies (Spec.frame_of (Spec.answer_octets [] (Answer.placed place))) out.old out.new result }
{
    frame(out, AnswerKind::Placed, &lowest(place))
}

pub(crate) fn version(out: &mut [u8; ANSWER], number: u8, taken: usize) -> usize
    ensures { Spec.Replies (Spec.frame_of (Spec.answer_octets [] (Answer.version number taken))) out.old out.new result }
{
    let [high, low] = lowest(taken);
    frame(out, AnswerKind::Version, &[high, low, number])
}

// The octets taken, and the endpoint of the association that the message names.
fn named(taken: usize, endpoint: u32) -> [u8; 6]
    ensures { result ≡ octets16 taken ++ octets_of_32 endpoint }
{
    let [high, low] = lowest(taken);
    let [e0, e1, e2, e3] = endpoint.to_be_bytes();
    [high, low, e0, e1, e2, e3]
}

// A kind, and these.
pub(crate) fn of_endpoint(
    out: &mut [u8; ANSWER],
    kind: AnswerKind,
    endpoint: u32,
    taken: usize,
) -> usize
    ensures { Spec.Replies (Spec.frame_of ((Kind.number_of kind ∷ octets16 taken) ++ octets_of_32 endpoint)) out.old out.new result }
{
    frame(out, kind, &named(taken, endpoint))
}

// Octets for an endpoint.
pub(crate) fn delivery(out: &mut [u8; ANSWER], endpoint: u32, dtls: &[u8], taken: usize) -> usize
    requires { head_length + 2 + endpoint_length + length dtls.now ≤ answer_limit }
    ensures { Spec.Replies (Spec.frame_of ((7 ∷ octets16 taken) ++ octets_of_32 endpoint ++ dtls.now)) out.old out.new result }
{
    let front = named(taken, endpoint);
    put_head(out, AnswerKind::Delivery, front.len() + dtls.len());
    let at = octets::put_octets(out, HEAD, &front);
    octets::put_octets(out, at, dtls)
}

// What a call that writes has sent, by the kind of its answer where it wrote: what it wrote stands behind the head
// already.
pub(crate) fn sent(out: &mut [u8; ANSWER], kind: AnswerKind, what: Result<usize, Refusal>) -> usize
    requires { head_length + Sending.behind_head what ≤ answer_limit }
    ensures { (result ≡ head_length + Sending.behind_head what) × (out.new ≡ over out.old 0 (Sending.front (Kind.number_of kind) what)) }
{
    match what {
        Ok(count) => {
            put_head(out, kind, count);
            HEAD + count
        }
        Err(refusal) => refused(out, refusal, 0),
    }
}
