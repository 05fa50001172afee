// The example of RFC 9185, section 7, compared whole with what is written for a list.
use crate::cases::Case;
use crate::outputs::FILL;
use lines::print::Row;
use std::io;

pub fn case(to: &mut impl io::Write, case: Case<'_>) -> io::Result<()> {
    let example = message::two_profiles();
    let mut out = [FILL; 10];
    // What is refused leaves the output as it was.
    let _ = writers::write_supported_profiles(0, case.given, &mut out);
    let answer = if example == out { "same" } else { "different" };
    case.echo(to)?;
    writeln!(to, " {}: {answer}", Row(&example))
}
