// What is written to standard output: lines of counts, and hexadecimal numbers with a space before each. An error says that a write
// failed: some of the text may then stand in the output. No other error comes.
ghost use Rattle.std.specs.Prelude.{◌≡◌, length, IfOk};

use crate::Tally;
use std::fmt::Radix;
use std::io;

// Answers how many records it told of.
pub fn show(rt: &impl Print, name: &[u8], t: Tally) -> io::Result<u64>
    ensures { IfOk result (λ told. told ≡ t.compared) }
{
    rt.write_all(name)?;
    println!(rt; ": {} compared, {} differed", t.compared, t.differed)?;
    Ok(t.compared)
}

// A line for each name's tally, or for that of its controls. Answers how many lines there were.
pub fn show_all(rt: &impl Print, tallies: &[(&[u8], Tally)], control: bool) -> io::Result<usize>
    ensures { IfOk result (λ lines. lines ≡ length tallies.now) }
{
    let after: &[u8] = if control { b", controls" } else { b"" };
    for (name, tally) in tallies {
        rt.write_all(name)?;
        show(rt, after, *tally)?;
    }
    Ok(tallies.len())
}

// For records with nothing to compare.
pub fn show_count(rt: &impl Print, name: &[u8], t: Tally) -> io::Result<u64>
    ensures { IfOk result (λ told. told ≡ t.compared) }
{
    rt.write_all(name)?;
    println!(rt; ": {}", t.compared)?;
    Ok(t.compared)
}

// Answers how many numbers there were.
pub fn put<N: Radix + Copy>(rt: &impl Print, numbers: &[N]) -> io::Result<usize>
    ensures { IfOk result (λ count. count ≡ length numbers.now) }
{
    for n in numbers {
        print!(rt; " {n:x}")?;
    }
    Ok(numbers.len())
}
