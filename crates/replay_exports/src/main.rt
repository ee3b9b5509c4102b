// Calls the exports that no other replay calls, on records that it reads from standard input, and writes a line for each: the export's name
// without `brasspurse_`, then the answer's numbers in hexadecimal, a struct's in the header's order, after them those of a list that was lent to
// write. It compares nothing: the gate compares the lines with the recorded ones.
//
// The input has little-endian numbers of 32 bits, if nothing else is said. First comes the place of the first record, then the sections'
// bytes. A record is a tag, its section's place and length, how many bytes the call takes, the line's name in 20 bytes, and these bytes.
// Each file here says what its tags have. What is missing is 0.
//
// The file `stdin` has 451 records of 19 exports, each refusal that they can give among them. The lines in `stdout` are the second reader's and
// the Rust's, and never our own; where both answer, they say the same. Both files were made by
//
//   compare/run record-exports crates/replay_exports
#![tactic(auto)]

ghost use Rattle.std.specs.Prelude.{◌<◌, ◌^◌};

use reader::part;
use records::{Headed, Records, nth};
use std::fmt::Radix;
use std::io;

mod frames;
mod reads;
mod sections;
mod words;

fn main(rt: HostRuntime) -> io::Result<()> {
    let mut buffer = [0u8; 65536];
    let n = streams::read_full(&mut rt.reader(), &mut buffer)?;
    replay(&rt, &buffer[..n])
}

fn replay(rt: &impl Print, s: &[u8]) -> io::Result<()> {
    let first: u32 = nth(s, 0);
    let records = part(s, first as usize, s.len());
    for record in Records::new(records, Headed::<36, 12>) {
        answer(rt, s, record)?;
    }
    Ok(())
}

fn answer(rt: &impl Print, s: &[u8], record: &[u8]) -> io::Result<()> {
    rt.write_all(part(record, 16, 20))?;
    let section = part(s, size(record, 1), size(record, 2));
    let asked = part(record, 36, size(record, 3));
    call(rt, nth(record, 0), section, asked)?;
    println!(rt)
}

// A place or a length of the record's head.
fn size(head: &[u8], k: usize) -> usize
    ensures { result < 2 ^ 32 }
{
    nth::<u32>(head, k) as usize
}

fn call(rt: &impl Print, tag: u32, section: &[u8], asked: &[u8]) -> io::Result<()> {
    match tag {
        1..=4 => reads::answer(rt, tag, section, asked),
        5..=8 | 19 => words::answer(rt, tag, asked),
        9..=12 => frames::answer(rt, tag, section, asked),
        _ => sections::answer(rt, tag, section, asked),
    }
}

fn put<N: Radix + Copy>(rt: &impl Print, numbers: &[N]) -> io::Result<()> {
    records::put(rt, numbers)?;
    Ok(())
}
