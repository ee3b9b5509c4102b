// Reads inputs of the program that lists functions, and writes the listing of each. It compares nothing: the gate compares what is written
// with the file `stdout`, so a wrong byte anywhere fails it, and there are no controls.
//
// An input is its length, a little-endian number of 32 bits, and its bytes. The file `stdin` has 22 of them: no bytes; 27 and 28 zeros; a header without
// lists; S, its first 79 bytes, and S with two other versions, with too many global opcodes and with too many pages; refused pages and
// functions between listed ones; several blocks; 65,535, 65,536 and 65,537 bytes; seven real sections. So 1, 2, 3, 15 and 30 come up. The
// listings in `stdout` are the second reader's (compare/src/model.rs). Both were made by
//
//   compare/run record-listings crates/replay_listings
#![tactic(auto)]

use reader::{part, read_or_0};
use records::{Headed, Records};
use std::io;

fn main(rt: HostRuntime) -> io::Result<()> {
    let mut buffer = [0u8; 262144];
    let n = streams::read_full(&mut rt.reader(), &mut buffer)?;
    replay(&rt, &buffer[..n]);
    Ok(())
}

fn replay(rt: &(impl Print + Eprint), s: &[u8]) {
    for input in Records::new(s, Headed::<4, 0>) {
        lister::list(rt, part(input, 4, length(input) as usize));
    }
}

fn length(input: &[u8]) -> u32 {
    read_or_0(input, 0)
}
