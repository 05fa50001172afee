// Whether the numbers of a list differ.
ghost use Rattle.std.specs.Prelude.{◌≡◌};
ghost use Rattle.status.specs.Numbers.{apart};

#[tactic(auto, using(crate::proofs::NumbersLaws::apart_not, crate::proofs::NumbersLaws::apart_next, crate::proofs::NumbersLaws::apart_none, octets::proofs::PartLaws::tail))]
pub(crate) fn differ(list: &[u32]) -> bool
    ensures { result ≡ apart list.now }
{
    for (i, n) in list.iter().enumerate() {
        if list[i + 1..].contains(n) {
            return false;
        }
    }
    true
}
