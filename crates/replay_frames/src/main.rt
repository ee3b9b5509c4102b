// Reads recorded steps of one frame from standard input, compares ours with them, and writes how many were compared and how many
// differed. Controls are records with one number of the answer changed: each must differ.
//
// A record is little-endian numbers of 64 bits, and then the window's bytes, filled up with zeros to whole numbers:
//
//   tag                     1 x86_64, 2 arm64, 101 and 102 their controls; 0 comes last and alone
//   word, base              word and length are read from their lowest four bytes
//   the window's length     in bytes
//   the registers given     pc, stack pointer, then the preserved ones in the header's order: 8 numbers on x86_64, 22 on arm64
//   refusal, value          0 and 0 where there is an answer
//   the registers after     as many
//
// The file `stdin` has 309 steps and 68 controls. 212 steps are of real frames, with the caller that the processor had, or refused with 21 or
// 25; 97 are made (named cases, each refusal, edges of the window), with the answer of the second account in compare/src/model/frame.rs. That
// account gives the same answer for the real ones too. It was made by
//
//   compare/run record-frames crates/replay_frames/stdin
#![tactic(auto)]

ghost use Rattle.std.specs.Prelude.{◌≤◌};

use answers::{Machine, is_ours};
use reader::read_or_0;
use records::{Framing, Records, Tally, nth, show_all, show_count};
use std::io;
use streams::read_full;

mod answers;

const MACHINES: [(&[u8], Machine); 2] = [(b"x86_64", Machine::X86_64), (b"arm64", Machine::Arm64)];

// The tag of the last record, which is alone.
const END: u64 = 0;

// A record is a question and its recorded answer, and what comes with them.
#[derive(Clone, Copy)]
struct Answered;

fn main(rt: HostRuntime) -> io::Result<()> {
    let mut buffer = [0u8; 131072];
    let n = read_full(&mut rt.reader(), &mut buffer)?;
    report(&rt, &buffer[..n])
}

fn report(rt: &impl Print, s: &[u8]) -> io::Result<()> {
    compared(rt, s, false)?;
    compared(rt, s, true)?;
    show_count(rt, b"other", others(s))?;
    Ok(())
}

// A line for each machine, or for each machine's controls. Each is written before the next is counted.
fn compared(rt: &impl Print, s: &[u8], control: bool) -> io::Result<()> {
    for (name, machine) in MACHINES {
        show_all(rt, &[(name, replay(s, machine, control))], control)?;
    }
    Ok(())
}

// The machine's records, or their controls.
fn replay(s: &[u8], machine: Machine, control: bool) -> Tally {
    let asked = machine.tag(control);
    Records::new(s, Answered)
        .filter(|record| tag(record) == asked)
        .fold(
            Tally::default(),
            |tally, record| tally.count(is_ours(machine, record)),
        )
}

// The records whose tag is none of those that are known.
fn others(s: &[u8]) -> Tally {
    Records::new(s, Answered)
        .filter(|record| tag(record) != END && Machine::of(tag(record)).is_none())
        .fold(Tally::default(), |tally, _| tally.count(true))
}

fn tag(record: &[u8]) -> u64 {
    nth(record, 0)
}

// Of a record that is no machine's only the tag is passed.
impl Framing for Answered {
    ghost use Rattle.std.specs.Prelude.{⊤};

    ghost takes = { λ bytes n. ⊤ };

    fn bytes(self, record: &[u8]) -> usize {
        Machine::of(tag(record)).map_or(8, |machine| machine.window() + padded(record))
    }
}

// The window's length in whole numbers.
fn padded(record: &[u8]) -> usize
    ensures { result ≤ 0x1_0000_0000 }
{
    let n: u32 = read_or_0(record, 24);
    8 * (n as usize).div_ceil(8)
}
