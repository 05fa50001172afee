// AES Key Wrap with Padding, and RFC 3394's process over registers. The octets are those of the key and then of the
// plaintext, the ciphertext or the registers; the numbers that end the text are the lengths of the key and of the output.
use crate::blocks;
use crate::cases::Case;
use crate::outputs::{FILL, Refused};
use keywrap::limits::CIPHERTEXT;
use lines::print::{Part, Row};
use octets::Refusal;
use std::io;

// The longest output.
const ROOM: usize = 256;

// Closures, since the check has no name for another crate's function as a value.
pub fn case(to: &mut impl io::Write, case: Case<'_>) -> io::Result<()> {
    match case.call() {
        b'w' => whole(to, case, |key, text, out| keywrap::wrap(key, text, out)),
        b'u' => whole(to, case, |key, text, out| keywrap::unwrap(key, text, out)),
        b'p' => registers(to, case, |w, x| keywrap::wrap_in_place(w, x)),
        _ => registers(to, case, |w, x| keywrap::unwrap_in_place(w, x)),
    }
}

// Wrapped or unwrapped to an output.
fn whole<F: FnOnce(&[u8], &[u8], &mut [u8]) -> Result<usize, Refusal>>(
    to: &mut impl io::Write,
    case: Case<'_>,
    call: F,
) -> io::Result<()>
    requires { F.IsAlwaysCallable call }
{
    let mut space = [FILL; ROOM];
    let out = &mut space[..case.number(0).min(ROOM)];
    let end = case.number(1);
    let key = octets::part(case.given, 0, end);
    let text = octets::part(case.given, end, case.given.len());
    match call(key, text, out) {
        Ok(count) => {
            let row = Row(octets::part(out, 0, count));
            let behind = Part(octets::part(out, count, out.len()));
            case.answer(to, &format_args!("{row} behind={behind}"))
        }
        Err(refusal) => case.answer(to, &Refused { refusal, out }),
    }
}

// The registers in place, forward or back.
fn registers<F: FnOnce(&[u8; 176], &mut [u8]) -> bool>(
    to: &mut impl io::Write,
    case: Case<'_>,
    process: F,
) -> io::Result<()>
    requires { F.IsAlwaysCallable process }
{
    let mut space = [0; CIPHERTEXT];
    let registers = octets::part(case.given, 16, case.given.len());
    let count = octets::put_octets(&mut space, 0, registers);
    let x = &mut space[..count.min(CIPHERTEXT)];
    process(&blocks::schedule(case.given), x);
    case.answer(to, &Row(x))
}
