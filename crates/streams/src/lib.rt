// What the programs read, and what they say where a read or a write fails.
#![tactic(auto)]

ghost use Rattle.std.specs.Prelude.{◌≤◌, length, IfOk};

use std::io;
use std::io::{Cursor, Read, Write};

// Reads until the buffer is full or the input ends, and answers how many bytes stand at the buffer's front. An error says that a read failed:
// what came before it may then stand at the front. No other error comes.
pub fn read_full(input: &mut impl Read, buffer: &mut [u8]) -> io::Result<usize>
    ensures { IfOk result (λ n. n ≤ length buffer.new) }
{
    let mut done = 0;
    while done < buffer.len() {
        match input.read(&mut buffer[done..])? {
            0 => break,
            n => done += n,
        }
    }
    Ok(done)
}

// Writes a line to standard error: what failed, and the system's text for the error, without its number. Where that write fails too, nothing is
// left to say.
pub fn say(rt: &impl Eprint, what: &str, error: &io::Error) {
    let mut told = Cursor::new([0u8; 256]);
    let _ = write!(told, "{error}");
    let n = told.position().min(256) as usize;
    let text = str::from_utf8(&told.get_ref()[..n]).unwrap_or("");
    let why = text
        .split_once(" (os error ")
        .map_or(text, |(before, _)| before);
    let _ = eprintln!(rt; "{what}: {why}");
}
