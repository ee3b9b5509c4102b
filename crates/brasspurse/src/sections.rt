// Sections. The calls that end in `_in` take the places of the two lists, which anyone may name: they are granted anew.
ghost use Rattle.std.specs.Prelude.{◌≡◌, ◌<◌};
ghost use Rattle.raw.specs.Checked.{told};
ghost use Rattle.raw.specs.Raw.{parse_of};
ghost use Rattle.iterate.specs.Iterate.{next_on, next_in, next_told};
ghost use Rattle.iterate.specs.Range.{range_on, range_in};
ghost use Rattle.lookup.specs.Lookup.{lookup_on, lookup_in, looked_told, probes_of};
ghost use Rattle.batch.specs.Batch.{batch, batch_of};
ghost use Rattle.fill.specs.Fill.{fill_on, fill_in};
ghost use Rattle.well_formed.specs.WellFormed.{well_formed};
ghost use Rattle.brasspurse.specs.Sections.{parse_answer, range_answer, lookup_answer, next_answer, fill_answer, flat_filled, filled_outcome};

use fill::{Filled, Stop};
use iterate::{Cursor, Next, Range};
use lookup::Found;
use raw::{Error, Lists};

// refusal is 0, or 1, 15, 2 or 3 with every other number 0.
#[repr(C)]
#[derive(Clone, Copy, Debug, Default, PartialEq, Eq)]
pub struct ParseAnswer {
    pub refusal: u32,
    pub global_opcodes_offset: u32,
    pub global_opcodes_len: u32,
    pub pages_offset: u32,
    pub pages_len: u32,
}

#[repr(C)]
#[derive(Clone, Copy, Debug, Default, PartialEq, Eq)]
pub struct RangeAnswer {
    pub refusal: u32,
    pub start: u32,
    pub end: u32,
}

// outcome is 0 for none, 1 for a function, 2 for a refusal with its number; page and index are the function's, and a cursor.
#[repr(C)]
#[derive(Clone, Copy, Debug, Default, PartialEq, Eq)]
pub struct LookupAnswer {
    pub start: u32,
    pub end: u32,
    pub opcode: u32,
    pub page: u32,
    pub index: u32,
    pub origin: u8,
    pub probes: u8,
    pub outcome: u8,
    pub refusal: u8,
}

// outcome is 0 for the end, 1 for a function, 2 for a refusal with its number; page and index are the cursor for the next call.
#[repr(C)]
#[derive(Clone, Copy, Debug, Default, PartialEq, Eq)]
pub struct NextAnswer {
    pub start: u32,
    pub end: u32,
    pub opcode: u32,
    pub page: u32,
    pub index: u32,
    pub function_page: u32,
    pub function_index: u32,
    pub origin: u8,
    pub outcome: u8,
    pub refusal: u8,
}

// outcome is 0 for the end, 1 where the list is full, 2 for a refusal with its number; 1, 15, 2 and 3 are refused whatever the room.
#[repr(C)]
#[derive(Clone, Copy, Debug, Default, PartialEq, Eq)]
pub struct FillAnswer {
    pub functions: usize,
    pub page: u32,
    pub index: u32,
    pub outcome: u16,
    pub refusal: u16,
}

impl From<Result<Lists, Error>> for ParseAnswer {
    ghost from_gives = { λ parsed answer. answer ≡ parse_answer (told parsed) };

    fn from(parsed: Result<Lists, Error>) -> ParseAnswer {
        match parsed {
            Ok(lists) => ParseAnswer {
                refusal: 0,
                global_opcodes_offset: lists.global_opcodes_offset,
                global_opcodes_len: lists.global_opcodes_len,
                pages_offset: lists.pages_offset,
                pages_len: lists.pages_len,
            },
            Err(error) => ParseAnswer {
                refusal: u32::from(error.number()),
                ..ParseAnswer::default()
            },
        }
    }
}

impl From<Result<Range, Error>> for RangeAnswer {
    ghost from_gives = { λ range answer. answer ≡ range_answer (told range) };

    fn from(range: Result<Range, Error>) -> RangeAnswer {
        match range {
            Ok(range) => RangeAnswer {
                refusal: 0,
                start: range.start,
                end: range.end,
            },
            Err(error) => RangeAnswer {
                refusal: u32::from(error.number()),
                ..RangeAnswer::default()
            },
        }
    }
}

impl From<Next> for NextAnswer {
    ghost from_gives = { λ next answer. answer ≡ next_answer (next_told next) };

    fn from(answer: Next) -> NextAnswer {
        let next = answer.next;
        let none = NextAnswer {
            page: next.page,
            index: next.index,
            ..NextAnswer::default()
        };
        match answer.function {
            Ok(None) => none,
            Ok(Some(function)) => NextAnswer {
                start: function.start_address,
                end: function.end_address,
                opcode: function.opcode,
                function_page: function.page,
                function_index: function.index,
                origin: function.origin.number(),
                outcome: 1,
                ..none
            },
            Err(error) => NextAnswer {
                outcome: 2,
                refusal: error.number(),
                ..none
            },
        }
    }
}

impl From<Filled> for FillAnswer {
    ghost from_gives = { λ filled answer. answer ≡ flat_filled filled };

    fn from(filled: Filled) -> FillAnswer {
        let (outcome, refusal) = match filled.stop {
            Stop::End => (0, 0),
            Stop::Full => (1, 0),
            Stop::Refused(error) => (2, u16::from(error.number())),
        };
        FillAnswer {
            functions: filled.functions,
            page: filled.next.page,
            index: filled.next.index,
            outcome,
            refusal,
        }
    }
}

// No `From`, which could not ask that the probes fit into a byte.
fn flat_lookup(found: Found) -> LookupAnswer
    requires { probes_of (looked_told found) < 256 }
    ensures { result ≡ lookup_answer (looked_told found) }
{
    let none = LookupAnswer {
        probes: found.probes as u8,
        ..LookupAnswer::default()
    };
    match found.function {
        Ok(None) => none,
        Ok(Some(function)) => LookupAnswer {
            start: function.start_address,
            end: function.end_address,
            opcode: function.opcode,
            page: function.page,
            index: function.index,
            origin: function.origin.number(),
            outcome: 1,
            ..none
        },
        Err(error) => LookupAnswer {
            outcome: 2,
            refusal: error.number(),
            ..none
        },
    }
}

pub fn brasspurse_parse(section: &[u8]) -> ParseAnswer
    ensures { result ≡ parse_answer (parse_of section.now) }
{
    raw::parse(section).into()
}

pub fn brasspurse_address_range(section: &[u8]) -> RangeAnswer
    ensures { result ≡ range_answer (range_on section.now) }
{
    iterate::address_range(section).into()
}

pub fn brasspurse_address_range_in(section: &[u8], lists: Lists) -> RangeAnswer
    ensures { result ≡ range_answer (range_in section.now lists) }
{
    iterate::address_range_in(section, lists).into()
}

pub fn brasspurse_lookup(section: &[u8], address: u32) -> LookupAnswer
    ensures { result ≡ lookup_answer (lookup_on section.now address) }
{
    flat_lookup(lookup::lookup(section, address))
}

pub fn brasspurse_lookup_in(section: &[u8], lists: Lists, address: u32) -> LookupAnswer
    ensures { result ≡ lookup_answer (lookup_in section.now lists address) }
{
    flat_lookup(lookup::lookup_in(section, lists, address))
}

// Looks up as many of the addresses as there is room for, and says how many. Answer i is the six numbers from 6 * i on: start, end, opcode,
// page, index, and origin + 256 * probes + 65,536 * outcome + 16,777,216 * refusal, which are the 24 bytes of a LookupAnswer.
pub fn brasspurse_lookup_batch(section: &[u8], addresses: &[u32], answers: &mut [u32]) -> usize
    ensures { batch result answers.new ≡ batch_of section.now addresses.now answers.old }
{
    batch::lookup_batch(section, addresses, answers)
}

pub fn brasspurse_next(section: &[u8], page: u32, index: u32) -> NextAnswer
    ensures { result ≡ next_answer (next_on section.now (record { page = page; index = index })) }
{
    iterate::next_function(section, Cursor { page, index }).into()
}

pub fn brasspurse_next_in(section: &[u8], lists: Lists, page: u32, index: u32) -> NextAnswer
    ensures { result ≡ next_answer (next_in section.now lists (record { page = page; index = index })) }
{
    iterate::next_function_in(section, lists, Cursor { page, index }).into()
}

pub fn brasspurse_fill(section: &[u8], page: u32, index: u32, out: &mut [u32]) -> FillAnswer
    ensures { filled_outcome result out.new ≡ fill_answer (fill_on section.now (record { page = page; index = index }) out.old) }
{
    fill::fill(section, Cursor { page, index }, out).into()
}

pub fn brasspurse_fill_in(
    section: &[u8],
    lists: Lists,
    page: u32,
    index: u32,
    out: &mut [u32],
) -> FillAnswer
    ensures { filled_outcome result out.new ≡ fill_answer (fill_in section.now lists (record { page = page; index = index }) out.old) }
{
    fill::fill_in(section, lists, Cursor { page, index }, out).into()
}

pub fn brasspurse_is_well_formed(section: &[u8]) -> bool
    ensures { result ≡ well_formed section.now }
{
    well_formed::is_well_formed(section)
}
