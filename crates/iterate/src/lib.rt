// Iteration by a cursor, and the range of addresses.
#![tactic(auto)]

ghost use Rattle.std.specs.Prelude.{◌≡◌};
ghost use Rattle.reader.specs.Reader.{slice_told};
ghost use Rattle.raw.specs.Checked.{told};
ghost use Rattle.raw.specs.Section.{section_told};
ghost use Rattle.iterate.specs.Iterate.{end_cursor, next_of, next_in, next_on, next_told, called_on};
ghost use Rattle.iterate.specs.Range.{range_of, range_in, range_on};
ghost use Rattle.iterate.specs.Opened.{opens, opened_told};

use entries::{Function, PageAt, Place};
use raw::{Error, Lists, Section};

// A page and the index of a function in it: any two numbers.
#[derive(Clone, Copy, Debug, PartialEq, Eq)]
pub struct Cursor {
    pub page: u32,
    pub index: u32,
}

// What a call answers, none at the end; and the cursor for the next call.
#[derive(Clone, Copy, Debug, PartialEq, Eq)]
pub struct Next {
    pub next: Cursor,
    pub function: Result<Option<Function>, Error>,
}

#[derive(Clone, Copy, Debug, PartialEq, Eq)]
pub struct Range {
    pub start: u32,
    pub end: u32,
}

#[tactic(auto, using(reader::proofs::Laws::bytes_of), unfolding(crate::specs::Range::range_of, entries::specs::Section::first_of))]
fn range_of(section: Section) -> Range
    ensures { result ≡ range_of section.entry.bytes.now section.entry.lists }
{
    let n = section.lists.pages_len;
    let pages = section.pages();
    if n == 0 {
        return Range { start: 0, end: 0 };
    }
    Range {
        start: raw::first_address(pages, 0),
        end: raw::first_address(pages, n - 1),
    }
}

// The range of addresses between the first page and the last, of lists that anyone may name.
#[tactic(auto, unfolding(crate::specs::Range::range_in))]
pub fn address_range_in(s: &[u8], lists: Lists) -> Result<Range, Error>
    ensures { told result ≡ range_in s.now lists }
{
    Ok(range_of(Section::new(s, lists)?))
}

#[tactic(auto, unfolding(crate::specs::Range::range_on))]
pub fn address_range(s: &[u8]) -> Result<Range, Error>
    ensures { told result ≡ range_on s.now }
{
    Ok(range_of(Section::parse(s)?))
}

// Where a cursor stands at the end: at the last page.
pub fn end_cursor(lists: Lists) -> Cursor
    ensures { result ≡ end_cursor lists }
{
    Cursor {
        page: lists.pages_len.saturating_sub(1),
        index: 0,
    }
}

// Page p, opened whole. For speed laid into its callers.
#[inline(always)]
pub fn open_at<'a>(section: Section<'a>, p: u32) -> Result<PageAt<'a>, Error>
    ensures { opened_told result ≡ opens (slice_told section.entry.bytes) section.entry.lists p }
{
    let entry = raw::page_entry(section.pages(), p);
    let offset = entry.offset;
    let page = raw::open_page(section.bytes, offset, entry.first)?;
    Ok(PageAt {
        section: section.bytes,
        globals: section.global_opcodes(),
        place: Place {
            index: p,
            offset,
            next: entry.next,
            page,
        },
    })
}

fn next_of(section: Section, c: Cursor) -> Next
    ensures { next_told result ≡ next_of section.entry.bytes.now section.entry.lists c }
{
    let last = end_cursor(section.lists);
    let mut i = c.index;
    for p in c.page..last.page {
        match open_at(section, p) {
            Err(error) => {
                return Next {
                    next: Cursor {
                        page: p + 1,
                        index: 0,
                    },
                    function: Err(error),
                };
            }
            Ok(page) => {
                if i < page.place.page.functions_len {
                    return Next {
                        next: Cursor {
                            page: p,
                            index: i + 1,
                        },
                        function: page.function(i).map(Some),
                    };
                }
            }
        }
        i = 0;
    }
    Next {
        next: last,
        function: Ok(None),
    }
}

// The call at a cursor; where there is no section, the cursor is handed back. For speed laid into its two callers.
#[inline(always)]
fn called_on(section: Result<Section, Error>, c: Cursor) -> Next
    ensures { next_told result ≡ called_on (section_told section.entry) c }
{
    match section {
        Ok(section) => next_of(section, c),
        Err(error) => Next {
            next: c,
            function: Err(error),
        },
    }
}

// What the call at a cursor answers, with the cursor for the next call; of lists that anyone may name.
#[tactic(auto, using(crate::proofs::Calls::over_section), unfolding(crate::specs::Iterate::next_in))]
pub fn next_function_in(s: &[u8], lists: Lists, c: Cursor) -> Next
    ensures { next_told result ≡ next_in s.now lists c }
{
    called_on(Section::new(s, lists), c)
}

#[tactic(auto, using(crate::proofs::Calls::over_section), unfolding(crate::specs::Iterate::next_on))]
pub fn next_function(s: &[u8], c: Cursor) -> Next
    ensures { next_told result ≡ next_on s.now c }
{
    called_on(Section::parse(s), c)
}
