// AES-128: a key schedule, and a block either way. The octets are those of the key and then of the block.
use crate::cases::Case;
use lines::print::Row;
use std::io;

pub fn case(to: &mut impl io::Write, case: Case<'_>) -> io::Result<()> {
    let w = schedule(case.given);
    let block = block_of(octets::part(case.given, 16, 32));
    match case.call() {
        b'k' => case.answer(to, &Row(&w)),
        b'd' => case.answer(to, &Row(&aes::decrypt_block(&w, block))),
        _ => case.answer(to, &Row(&aes::encrypt_block(&w, block))),
    }
}

// Of the key in front.
pub fn schedule(given: &[u8]) -> [u8; 176] {
    aes::expand(block_of(octets::part(given, 0, 16)))
}

// The octets, and zeros where there are too few.
fn block_of(s: &[u8]) -> [u8; 16] {
    let mut block = [0; 16];
    octets::put_octets(&mut block, 0, s);
    block
}
