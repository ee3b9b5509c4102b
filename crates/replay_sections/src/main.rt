// Reads sections with recorded answers about them from standard input, compares ours with them, and writes how many were compared and
// how many differed. Controls are records with one number of the answer changed: each must differ.
//
// A record is thirteen little-endian numbers of 32 bits: a tag, two inputs, and the ten numbers of the answer. A record with the tag 0 is a
// section: its length is the first input, its bytes follow, filled up with zeros to a multiple of 4, and the records after it are about it.
//
//   1 lookup             address, 0     outcome, refusal, start, end, opcode, page, index, origin, probes, 0
//   2 call at a cursor   page, index    outcome, refusal, start, end, opcode, page, index, origin, next page, next index
//   3 parse              0, 0           1 or 2, refusal, global opcodes' offset and count, pages' offset and count, and zeros
//   4 address range      0, 0           1 or 2, refusal, start, end, and zeros
//   5 well formed        0, 0           1 or 0, and zeros
//   101 to 105           their controls
//
// Outcome is 0 for none or the end, 1 for a function, 2 for a refusal; of a parse and a range 1, or 2 for a refusal. Page and index of an answer are
// the function's, origin is 1 for a regular page's entry, 2 for a global opcode, 3 for a local one; all three are 0 without a function. The file
// `stdin` has 64 sections: S, named cases, real ones and damaged ones; 601 questions, of which 402 answers are also the Rust's, as far as the Rust
// tells; and 120 controls. The rest (where a function came from, probes, cursors, whether it is well formed, what lies outside the Rust's domain) is
// the second reader's, which is written from docs/FORMAT.md's rules and not from this code (compare/src/model.rs). It was made by
//
//   compare/run record-sections crates/replay_sections/stdin
#![tactic(auto)]

ghost use Rattle.std.specs.Prelude.{◌<◌, ◌^◌};

use answers::{Question, answer};
use reader::part;
use records::{Framing, Records, Tally, is_recorded, nth, show_all, show_count};
use std::io;
use streams::read_full;

mod answers;

const QUESTIONS: [(&[u8], Question); 5] = [
    (b"lookups", Question::Lookup),
    (b"nexts", Question::Next),
    (b"parses", Question::Parse),
    (b"ranges", Question::Range),
    (b"well formed", Question::WellFormed),
];

// The tag of a record that is a section.
const SECTION: u32 = 0;

// A record is a question and its recorded answer, and what comes with them.
#[derive(Clone, Copy)]
struct Answered;

fn main(rt: HostRuntime) -> io::Result<()> {
    let mut buffer = [0u8; 65536];
    let n = read_full(&mut rt.reader(), &mut buffer)?;
    report(&rt, &buffer[..n])
}

fn report(rt: &impl Print, s: &[u8]) -> io::Result<()> {
    compared(rt, s, false)?;
    compared(rt, s, true)?;
    show_count(rt, b"sections", counted(s, |tag| tag == SECTION))?;
    show_count(rt, b"other", counted(s, is_other))?;
    Ok(())
}

// A line for each question, or for each question's controls. Each is written before the next is counted.
fn compared(rt: &impl Print, s: &[u8], control: bool) -> io::Result<()> {
    for (name, question) in QUESTIONS {
        show_all(rt, &[(name, replay(s, question, control))], control)?;
    }
    Ok(())
}

// The records that ask the question, or the question's controls, each of the last section before it.
fn replay(s: &[u8], question: Question, control: bool) -> Tally {
    let asked = question.tag(control);
    let mut tally = Tally::default();
    let mut section = &s[..0];
    for record in Records::new(s, Answered) {
        if tag(record) == SECTION {
            section = part(record, 52, bytes_after(record));
        } else if tag(record) == asked {
            tally = tally.count(is_ours(question, section, record));
        }
    }
    tally
}

// The records whose tag is meant, with nothing compared.
fn counted<F: Fn(u32) -> bool>(s: &[u8], meant: F) -> Tally
    requires { F.IsAlwaysCallable meant }
{
    Records::new(s, Answered)
        .filter(|record| meant(tag(record)))
        .fold(Tally::default(), |tally, _| tally.count(true))
}

fn is_other(tag: u32) -> bool {
    tag != SECTION && !QUESTIONS.iter().any(|(_, question)| question.has(tag))
}

fn tag(record: &[u8]) -> u32 {
    nth(record, 0)
}

impl Framing for Answered {
    ghost use Rattle.std.specs.Prelude.{⊤};

    ghost takes = { λ bytes n. ⊤ };

    fn bytes(self, record: &[u8]) -> usize {
        52 + 4 * bytes_after(record).div_ceil(4)
    }
}

fn bytes_after(record: &[u8]) -> usize
    ensures { result < 2 ^ 32 }
{
    if tag(record) == SECTION {
        nth::<u32>(record, 1) as usize
    } else {
        0
    }
}

fn is_ours(question: Question, section: &[u8], record: &[u8]) -> bool {
    let ours = answer(question, section, nth(record, 1), nth(record, 2));
    is_recorded(&ours, part(record, 12, 40))
}
