// The profiles that we speak, and lists of them. A profile stands at the front of the octets.
use crate::cases::Case;
use lines::print::YesOrNo;
use std::io;

pub fn case(to: &mut impl io::Write, case: Case<'_>) -> io::Result<()> {
    let profile = octets::number16(case.given, 0);
    let list = octets::part(case.given, 2, case.given.len());
    match case.call() {
        // The length is 0 where the profile is none of ours.
        b'k' => case.answer(to, &message::key_length(profile).unwrap_or(0)),
        b'g' => case.answer(to, &YesOrNo(message::good_list(case.given))),
        _ => case.answer(to, &YesOrNo(message::in_list(profile, list))),
    }
}
