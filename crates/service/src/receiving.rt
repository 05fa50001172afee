// Tunnel octets.
ghost use Rattle.std.specs.Prelude.{◌≤◌, length};
ghost use Rattle.service.specs.Limits.{room};
ghost use Rattle.service.specs.Request as Request;
ghost use Rattle.service.specs.Reply as Spec;

use crate::answer_kind::AnswerKind;
use crate::answers;
use crate::kind::Kind;
use crate::limits::ANSWER;
use distributor::{BLOCK, Received};
use message::Refused;

pub(crate) fn tunnel_octets(state: &mut [u8; BLOCK], body: &[u8], out: &mut [u8; ANSWER]) -> usize
    requires { length body.now ≤ room }
    ensures { Spec.Serves (Request.request_by Kind.TunnelOctets body.now) state.old state.new out.old out.new result }
{
    match distributor::tunnel_octets(state, body) {
        Ok(Received::MoreNeeded) => answers::plain(out, AnswerKind::MoreNeeded),
        Ok(Received::KeysStored { endpoint, taken }) => {
            answers::of_endpoint(out, AnswerKind::KeysStored, endpoint, taken)
        }
        Ok(
            Received::Delivery {
                endpoint,
                dtls,
                taken,
            },
        ) => answers::delivery(out, endpoint, octets::part_in(body, dtls), taken),
        Ok(Received::Disconnected { endpoint, taken }) => {
            answers::of_endpoint(out, AnswerKind::Removed, endpoint, taken)
        }
        Ok(Received::Version { version, taken }) => answers::version(out, version, taken),
        Err(Refused { refusal, taken }) => answers::refused(out, refusal, taken),
    }
}
