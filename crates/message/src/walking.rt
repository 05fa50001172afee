// A walk over a body, field by field, which stands still at the first bad field. A step answers the offset behind its field, or
// the offset where the walk stands still.
ghost use Rattle.std.specs.Prelude.{◌≡◌, true};
ghost use Rattle.message.specs.Walk as Spec;

// Past n octets where all was good, these are and they end within the body. Beside a test,
// as in specs/Walk.antt: an Option of n is no plainer for its two callers.
#[tactic(auto, unfolding(crate::specs::Walk::past))]
fn past(body_length: usize, good: bool, n: usize, at: usize) -> Result<usize, usize>
    ensures { Spec.walk_of result ≡ Spec.past body_length good n (Spec.walk_at true at) }
{
    if good && at <= body_length && n <= body_length - at {
        Ok(at + n)
    } else {
        Err(at)
    }
}

// A field of n octets.
#[tactic(auto, unfolding(crate::specs::Walk::fixed))]
pub fn fixed(body: &[u8], n: usize, at: usize) -> Result<usize, usize>
    ensures { Spec.walk_of result ≡ Spec.fixed body.now n (Spec.walk_at true at) }
{
    past(body.len(), true, n, at)
}

// A profile list behind its two length octets.
#[tactic(auto, unfolding(crate::specs::Walk::profile_list))]
pub fn profile_list(body: &[u8], at: usize) -> Result<usize, usize>
    ensures { Spec.walk_of result ≡ Spec.profile_list body.now (Spec.walk_at true at) }
{
    let n = octets::number16(body, at);
    past(body.len(), (1 <= n) & (n % 2 == 0), 2 + n as usize, at)
}
