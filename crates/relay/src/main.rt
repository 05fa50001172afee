// Requests on standard input, answers on standard output, one for each in order, until the input
// ends (docs/RELAY.md). What an answer is stands in the crate `service`; here octets only move.
#![tactic(auto)]

use anyhow::{Context, Result};
use distributor::BLOCK;
use service::{ANSWER, FRAME_LIMIT};
use std::io::{ErrorKind, Read, Write};

const UNREAD: &str = "a request could not be read";

const UNWRITTEN: &str = "an answer could not be written";

// Fills the octets; false where the input ends before.
fn fill(input: &mut impl Read, octets: &mut [u8]) -> Result<bool> {
    match input.read_exact(octets) {
        Ok(()) => Ok(true),
        Err(e) if e.kind() == ErrorKind::UnexpectedEof => Ok(false),
        Err(e) => Err(e).context(UNREAD),
    }
}

// Reads n octets into the room of a request and drops them; false where the input ends before. By `io::copy` they would stand
// in 8,192 octets of the stack besides: the relay's memory is fixed.
fn skip(input: &mut impl Read, frame: &mut [u8; FRAME_LIMIT], n: usize) -> Result<bool> {
    for _ in 0..n / FRAME_LIMIT {
        if !fill(input, frame)? {
            return Ok(false);
        }
    }
    fill(input, &mut frame[..n % FRAME_LIMIT])
}

// Writes the answer's octets out at once, since a caller may wait for them.
fn write(output: &mut impl Write, answer: &[u8]) -> Result<()> {
    output.write_all(answer).context(UNWRITTEN)?;
    output.flush().context(UNWRITTEN)
}

// One request; false where there is none.
fn turn(
    input: &mut impl Read,
    output: &mut impl Write,
    state: &mut [u8; BLOCK],
    frame: &mut [u8; FRAME_LIMIT],
    out: &mut [u8; ANSWER],
) -> Result<bool> {
    let mut head = [0; 2];
    if !fill(input, &mut head)? {
        return Ok(false);
    }
    let n = usize::from(u16::from_be_bytes(head));
    let count = if FRAME_LIMIT < n {
        if !skip(input, frame, n)? {
            return Ok(false);
        }
        service::too_long(out)
    } else {
        if !fill(input, &mut frame[..n])? {
            return Ok(false);
        }
        service::serve_one(state, octets::part(frame, 0, n), out)
    };
    write(output, octets::part(out, 0, count))?;
    Ok(true)
}

// Every loop has to end, so this one counts to a number of requests that no run uses up: at ten
// million in a second it takes 58,000 years.
fn main(rt: HostRuntime) -> Result<()> {
    let mut input = rt.stdin();
    let mut output = rt.stdout();
    let mut state = distributor::first_state();
    let mut frame = [0; FRAME_LIMIT];
    let mut out = [0; ANSWER];
    for _ in 0..u64::MAX {
        if !turn(&mut input, &mut output, &mut state, &mut frame, &mut out)? {
            break;
        }
    }
    Ok(())
}
