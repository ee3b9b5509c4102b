// Iteration by blocks: functions from a cursor on, three numbers each, into a lent list. A page is opened once.
#![tactic(auto)]

ghost use Rattle.std.specs.Prelude.{◌≡◌, ◌+◌, ◌*◌, ◌/◌, ◌≤◌, ◌<◌, length};
ghost use Rattle.raw.specs.Section.{section_told};
ghost use Rattle.entries.specs.Placed.{read_of};
ghost use Rattle.fill.specs.Block.{put_of, PageFilled};
ghost use Rattle.fill.specs.Fill.{filled, fill_of, fill_in, fill_on, filled_on, filled_told};

use entries::{Function, PageAt};
use iterate::Cursor;
use raw::{Error, Lists, Section};

// Why no more was written.
#[derive(Clone, Copy, Debug, PartialEq, Eq)]
pub enum Stop {
    Full,
    End,
    Refused(Error),
}

// How many functions were written, and the cursor for the next call.
#[derive(Clone, Copy, Debug, PartialEq, Eq)]
pub struct Filled {
    pub functions: usize,
    pub next: Cursor,
    pub stop: Stop,
}

// How many functions stand in the list, the index that comes next in the page, and why the page gives no more: `End` is its own.
#[derive(Clone, Copy)]
struct Paged {
    pub functions: usize,
    pub index: u32,
    pub stop: Stop,
}

// Writes a function as the k-th of the list.
fn put(out: &mut [u32], k: usize, f: Function)
    requires { 3 * k + 3 ≤ length out.old }
    ensures { out.new ≡ put_of out.old k f }
{
    let at = 3 * k;
    out[at] = f.start_address;
    out[at + 1] = f.end_address;
    out[at + 2] = f.opcode;
}

// Functions of a page from an index on.
fn fill_page(page: PageAt, from: u32, written: usize, out: &mut [u32]) -> Paged
    requires { written < length out.old / 3 }
    ensures { PageFilled (read_of page.entry.section.now page.entry.globals.now page.entry.place) page.entry.place.page.functions_len written from out.old result out.new }
{
    let room = out.len() / 3;
    let count = page.place.page.functions_len;
    let stop = usize::min(count as usize, from as usize + (room - written)) as u32;
    let mut functions = written;
    for i in from..stop {
        match page.function(i) {
            Ok(f) => put(out, functions, f),
            Err(error) => {
                return Paged {
                    functions,
                    index: i + 1,
                    stop: Stop::Refused(error),
                };
            }
        }
        functions += 1;
    }
    if functions < room {
        return Paged {
            functions,
            index: count,
            stop: Stop::End,
        };
    }
    Paged {
        functions,
        index: stop,
        stop: Stop::Full,
    }
}

fn stopped(functions: usize, page: u32, index: u32, stop: Stop) -> Filled
    ensures { result ≡ filled functions page index stop }
{
    Filled {
        functions,
        next: Cursor { page, index },
        stop,
    }
}

// The functions of a section from a cursor on, three numbers each (start, end, opcode), as many as the list has room for.
pub fn fill_of(section: Section, c: Cursor, out: &mut [u32]) -> Filled
    ensures { filled_told result out.new ≡ fill_of section.entry.bytes.now section.entry.lists c out.old }
{
    if out.len() / 3 == 0 {
        return stopped(0, c.page, c.index, Stop::Full);
    }
    let last = iterate::end_cursor(section.lists);
    let mut k = 0;
    let mut i = c.index;
    for p in c.page..last.page {
        match iterate::open_at(section, p) {
            Err(error) => return stopped(k, p + 1, 0, Stop::Refused(error)),
            Ok(page) => {
                let paged = fill_page(page, i, k, out);
                k = paged.functions;
                let Stop::End = paged.stop else {
                    return stopped(k, p, paged.index, paged.stop);
                };
            }
        }
        i = 0;
    }
    stopped(k, last.page, last.index, Stop::End)
}

// The same where there is a section; where there is none, the list stays as it was.
fn filled_on(section: Result<Section, Error>, c: Cursor, out: &mut [u32]) -> Filled
    ensures { filled_told result out.new ≡ filled_on (section_told section.entry) c out.old }
{
    match section {
        Ok(section) => fill_of(section, c, out),
        Err(error) => stopped(0, c.page, c.index, Stop::Refused(error)),
    }
}

// The same of lists that anyone may name.
#[tactic(auto, using(crate::proofs::Calls::over_section), unfolding(crate::specs::Fill::fill_in))]
pub fn fill_in(s: &[u8], lists: Lists, c: Cursor, out: &mut [u32]) -> Filled
    ensures { filled_told result out.new ≡ fill_in s.now lists c out.old }
{
    filled_on(Section::new(s, lists), c, out)
}

#[tactic(auto, using(crate::proofs::Calls::over_section), unfolding(crate::specs::Fill::fill_on))]
pub fn fill(s: &[u8], c: Cursor, out: &mut [u32]) -> Filled
    ensures { filled_told result out.new ≡ fill_on s.now c out.old }
{
    filled_on(Section::parse(s), c, out)
}
