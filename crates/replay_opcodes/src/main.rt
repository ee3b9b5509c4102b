// Reads recorded answers of the Rust from standard input, compares ours with them, and writes how many were compared and how many
// differed. Controls are records with one number of the answer changed: each must differ.
//
// A record is eight little-endian numbers of 32 bits: a tag, two inputs, and the five numbers of the answer. Registers are six bytes, the
// first four in one number and the last two in the next.
//
//   1 permutation    count, encoding    refusal, 0, 0, registers
//   2 x86_64 word    word, 0            case, value, stack adjust, registers: fields, or a list
//   3 arm64 word     word, 0            case, value or pair count, pairs as bits, 0, 0
//   101 to 103       their controls
//
// Cases and values are those of the C interface (include/brasspurse.h). The file `stdin` has 11,856 records. 5,832 permutations: every encoding
// from 0 to 720 for counts 0 to 7, and 64 large counts and encodings. 4,000 x86_64 words over all kinds, counts and bounds; a field that is
// 7 is recorded as 0, as the Rust tells it. 2,000 arm64 words, frame-based ones without a bit of 5 to 11, where the Rust has d
// pairs at other bits. Last 24 controls, in which each of the five numbers is changed in turn. It was made by
//
//   compare/run record crates/replay_opcodes/stdin
//
// which asks release 0.5.0, and stops if 0.3.0 says something else.
#![tactic(auto)]

ghost use Rattle.std.specs.Prelude.{◌≡◌, length};

use answers::{Question, answer};
use reader::part;
use records::{Tally, is_recorded, nth, show_all};
use std::io;
use streams::read_full;

mod answers;

const QUESTIONS: [(&[u8], Question); 3] = [
    (b"permutations", Question::Permutation),
    (b"x86_64 words", Question::X86_64),
    (b"arm64 words", Question::Arm64),
];

// Room for the input; only its length matters.
fn room_for_input() -> [u8; 524288]
    ensures { 524288 ≡ length result }
{
    [0u8; 524288]
}

fn main(rt: HostRuntime) -> io::Result<()> {
    let mut buffer = room_for_input();
    let n = read_full(&mut rt.reader(), &mut buffer)?;
    report(&rt, &buffer[..n])
}

fn report(rt: &impl Print, s: &[u8]) -> io::Result<()> {
    compared(rt, s, false)?;
    compared(rt, s, true)?;
    Ok(())
}

// A line for each question, or for each question's controls. Each is written before the next is counted.
fn compared(rt: &impl Print, s: &[u8], control: bool) -> io::Result<()> {
    for (name, question) in QUESTIONS {
        show_all(rt, &[(name, replay(s, question, control))], control)?;
    }
    Ok(())
}

// The records that ask the question, or the question's controls.
fn replay(s: &[u8], question: Question, control: bool) -> Tally {
    let tag = question.tag(control);
    s.chunks(32)
        .filter(|record| nth::<u32>(record, 0) == tag)
        .fold(
            Tally::default(),
            |tally, record| tally.count(is_ours(question, record)),
        )
}

fn is_ours(question: Question, record: &[u8]) -> bool {
    let ours = answer(question, nth(record, 1), nth(record, 2));
    is_recorded(&ours, part(record, 12, 20))
}
