// The listing of a section (docs/FORMAT.md, 12), block after block: the program `functions` without its input.
#![tactic(auto)]

ghost use Rattle.std.specs.Prelude.{◌≡◌, ◌+◌, ◌*◌, ◌≤◌, ◌++◌, length};
ghost use Rattle.reader.specs.Reader.{slice_told};
ghost use Rattle.raw.specs.Section.{standing};
ghost use Rattle.fill.specs.Fill.{why_of, taken_of};
ghost use Rattle.listing.specs.Listing.{written, over, whole_of, refused_of, end_of};
ghost use Rattle.lister.specs.declared.Refusal.TheVariants.{Section as OfSection};
ghost use Rattle.lister.specs.Lister.{accepted_of, listing_of};
ghost use Rattle.lister.specs.Block.{start, room_in, counted, stop_text, is_end, taken_block, block_of, block_told, number_of, accepted_told};

use fill::Stop;
use iterate::Cursor;
use raw::{Error, Section};
use std::io;
use streams::say;

// Where a listing stands: the cursor of the next call, the functions so far, and whether the end is written.
#[derive(Clone, Copy, Debug, PartialEq, Eq)]
pub struct Place {
    pub cursor: Cursor,
    pub functions: u64,
    pub ended: bool,
}

#[derive(Clone, Copy, Debug, PartialEq, Eq)]
pub struct Block {
    pub written: usize,
    pub next: Place,
}

// Why an input is not listed.
#[derive(Clone, Copy, Debug, PartialEq, Eq)]
enum Refusal {
    TooLong,
    Section(Error),
}

impl Refusal {
    fn number(self) -> u8
        ensures { result ≡ number_of self }
    {
        match self {
            Refusal::TooLong => 30,
            Refusal::Section(error) => error.number(),
        }
    }
}

impl From<Error> for Refusal {
    ghost from_gives = { λ error refusal. refusal ≡ OfSection error };

    fn from(error: Error) -> Refusal {
        Refusal::Section(error)
    }
}

// Before the first block.
pub fn start_place() -> Place
    ensures { result ≡ start }
{
    Place {
        cursor: Cursor { page: 0, index: 0 },
        functions: 0,
        ended: false,
    }
}

fn accept(s: &[u8]) -> Result<Section, Refusal>
    ensures { accepted_told result ≡ standing (slice_told s.entry) (accepted_of s.now) }
{
    if 65536 < s.len() {
        return Err(Refusal::TooLong);
    }
    Ok(Section::parse(s)?)
}

// Three numbers for each of 1,024 functions, and the text of a block of them; only their lengths matter.
fn room_for_numbers() -> [u32; 3072]
    ensures { 3072 ≡ length result }
{
    [0u32; 3072]
}

fn room_for_text() -> [u8; 27673]
    ensures { 27673 ≡ length result }
{
    [0u8; 27673]
}

// What stands after a block's functions.
#[tactic(auto, using(crate::proofs::Cases::nothing_written))]
fn write_stop(stop: Stop, functions: u64, out: &mut [u8]) -> usize
    ensures { written result out.new ≡ whole_of (stop_text functions (why_of stop)) out.old }
{
    match stop {
        Stop::Full => 0,
        Stop::End => listing::write_end(functions, out),
        Stop::Refused(error) => listing::write_refused(error.number(), out),
    }
}

// `refused N`, and the end.
fn write_refusal(number: u8, out: &mut [u8]) -> usize
    requires { 52 ≤ length out.old }
    ensures { written result out.new ≡ over (refused_of number ++ end_of 0) out.old }
{
    let n = listing::write_refused(number, out);
    n + listing::write_end(0, &mut out[n..])
}

// The functions from a place on, three numbers each into one list and a line each into the other, and the line after them.
fn write_functions(section: Section, at: Place, numbers: &mut [u32], out: &mut [u8]) -> Block
    requires { (52 ≤ length out.old) × (length numbers.old ≡ 3 * room_in out.old) }
    ensures { block_told result out.new ≡ taken_block at.functions (taken_of section.entry.bytes.now section.entry.lists (room_in out.old) at.cursor) out.old }
{
    let block = fill::fill_of(section, at.cursor, numbers);
    let stop = block.stop;
    let functions = at.functions.saturating_add(block.functions as u64);
    let n = listing::write_lines(numbers, block.functions, out);
    let rest = write_stop(stop, functions, &mut out[n..]);
    Block {
        written: n + rest,
        next: Place {
            cursor: block.next,
            functions,
            ended: matches!(stop, Stop::End),
        },
    }
}

// The next block of the listing, as much as has room.
pub fn write_block(s: &[u8], at: Place, out: &mut [u8]) -> Block
    ensures { block_told result out.new ≡ block_of s.now at out.old }
{
    if at.ended || out.len() < 52 {
        return Block {
            written: 0,
            next: at,
        };
    }
    match accept(s) {
        Err(refusal) => Block {
            written: write_refusal(refusal.number(), out),
            next: Place { ended: true, ..at },
        },
        Ok(section) => {
            let mut numbers = room_for_numbers();
            let n = 3 * usize::min(1024, (out.len() - 25) / 27);
            write_functions(section, at, &mut numbers[..n], out)
        }
    }
}

// Hands a block on to standard output; where that fails, a line on standard error says why.
fn hand_on(rt: &(impl Print + Eprint), text: &[u8]) -> io::Result<()> {
    rt.write_all(text)
        .inspect_err(|error| say(rt, "standard output", error))
}

// Writes the listing of a section to standard output, block after block, as long as no write fails. Answers how many bytes the listing
// has, as far as 64 bits count.
pub fn list(rt: &(impl Print + Eprint), s: &[u8]) -> u64
    ensures { result ≡ counted 0 (length (listing_of s.now)) }
{
    let mut text = room_for_text();
    let mut at = start_place();
    let mut total = 0u64;
    let mut handed = Ok(());
    while !at.ended {
        let block = write_block(s, at, &mut text);
        let n = block.written;
        handed = handed.and_then(|()| hand_on(rt, reader::part(&text, 0, n)));
        total = total.saturating_add(n as u64);
        at = block.next;
    }
    total
}
