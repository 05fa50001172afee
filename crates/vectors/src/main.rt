// Worked octets and limits of documents 01 and 02, run through the libraries. Standard input holds the cases,
// one in a line; each is written out again with what the library answered.
#![tactic(auto)]

mod blocks;
mod cases;
mod example;
mod index;
mod keys;
mod messages;
mod outputs;
mod pages;
mod profiles;
mod reading;
mod receiving;
mod records;
mod sending;
mod sorting;
mod table;
mod tags;
mod writing;

use std::io;
use std::io::Read;

fn main(rt: HostRuntime) -> io::Result<()> {
    let mut text = Vec::new(rt.alloc());
    rt.stdin().read_to_end(&mut text)?;
    cases::run(&mut rt.stdout(), &text)
}
