// A section's lists and pages.
#![tactic(auto)]

pub mod section;

ghost use Rattle.std.specs.Prelude.{◌≡◌, ◌+◌, ◌*◌, ◌≤◌, ◌<◌, length, drop};
ghost use Rattle.reader.specs.Reader.{granted_of, slice_told, part_at};
ghost use Rattle.raw.specs.Checked.{number_of, told, check};
ghost use Rattle.raw.specs.Raw.{grant_of, header_of, parse_of, globals_of, pages_of, first_in, offset_in, entry_of, regular_of, compressed_of, page_of, locals_granted, layout, open_of};

pub use crate::section::Section;
use reader::{Number, read_or_0};
use search::Layout;

// The one version of the format that is read.
pub const UNWIND_SECTION_VERSION: u32 = 1;

pub const PAGE_KIND_SENTINEL: u32 = 1;

pub const PAGE_KIND_REGULAR: u32 = 2;

pub const PAGE_KIND_COMPRESSED: u32 = 3;

// Why a section is refused, by the numbers of docs/FORMAT.md, 11.
#[derive(Clone, Copy, Debug, PartialEq, Eq)]
pub enum Error {
    Header = 1,
    GlobalOpcodes = 2,
    Pages = 3,
    PageKind = 4,
    UnexpectedSentinelPage = 5,
    InvalidPageKind = 6,
    RegularPage = 7,
    RegularPageFunctions = 8,
    CompressedPage = 9,
    CompressedPageFunctions = 10,
    LocalOpcodes = 11,
    InvalidPageEntryFirstAddress = 12,
    AddressTooLarge = 13,
    LocalIndex = 14,
    WrongVersion = 15,
}

impl Error {
    // The refusal's number.
    pub fn number(self) -> u8
        ensures { result ≡ number_of self }
    {
        self as u8
    }
}

// Places and counts of the two lists; laid out as C does, for the interface.
#[repr(C)]
#[derive(Clone, Copy)]
pub struct Lists {
    pub global_opcodes_offset: u32,
    pub global_opcodes_len: u32,
    pub pages_offset: u32,
    pub pages_len: u32,
}

#[derive(Clone, Copy, Debug, PartialEq, Eq)]
pub enum Kind {
    Regular,
    Compressed,
}

// How the entries of a page's functions lie.
impl From<Kind> for Layout {
    ghost from_gives = { λ kind answer. answer ≡ layout kind };

    fn from(kind: Kind) -> Layout {
        match kind {
            Kind::Regular => Layout::Regular,
            Kind::Compressed => Layout::Compressed,
        }
    }
}

// An entry of the list of pages: the page's first address and its offset in the section; and where the next page starts.
#[derive(Clone, Copy)]
pub struct PageEntry {
    pub first: u32,
    pub offset: u32,
    pub next: u32,
}

// A page that was opened: offsets count from the page's start, and keys from `base`.
#[derive(Clone, Copy)]
pub struct Page {
    pub kind: Kind,
    pub base: u32,
    pub functions_offset: u32,
    pub functions_len: u32,
    pub local_opcodes_offset: u32,
    pub local_opcodes_len: u32,
}

// Nothing, or the error where a check fails.
pub fn check(passed: bool, error: Error) -> Result<(), Error>
    ensures { told result ≡ check (number_of error) passed }
{
    if passed { Ok(()) } else { Err(error) }
}

// The lists, if they lie in the section: any numbers may come in.
#[tactic(auto, unfolding(crate::specs::Raw::grant_of))]
pub fn grant(s: &[u8], lists: Lists) -> Result<Lists, Error>
    ensures { told result ≡ grant_of s.now lists }
{
    let opcodes_at = lists.global_opcodes_offset;
    let opcodes = lists.global_opcodes_len;
    let pages_at = lists.pages_offset;
    let pages = lists.pages_len;
    check(
        reader::is_granted(s, opcodes_at as usize, 4 * opcodes as usize),
        Error::GlobalOpcodes,
    )?;
    check(
        reader::is_granted(s, pages_at as usize, search::PAGE_ENTRY * pages as usize),
        Error::Pages,
    )?;
    Ok(lists)
}

// The lists that the section's header names, if its version is the one that is read.
#[tactic(auto, unfolding(crate::specs::Raw::parse_of, crate::specs::Raw::header_of))]
pub fn parse(s: &[u8]) -> Result<Lists, Error>
    ensures { told result ≡ parse_of s.now }
{
    check(reader::is_granted(s, 0, 28), Error::Header)?;
    let version: u32 = read_or_0(s, 0);
    check(version == UNWIND_SECTION_VERSION, Error::WrongVersion)?;
    grant(
        s,
        Lists {
            global_opcodes_offset: read_or_0(s, 4),
            global_opcodes_len: read_or_0(s, 8),
            pages_offset: read_or_0(s, 20),
            pages_len: read_or_0(s, 24),
        },
    )
}

// The bytes of the global opcodes.
pub fn global_opcodes(s: &[u8], lists: Lists) -> &[u8]
    ensures { slice_told result ≡ part_at (slice_told s.entry) lists.global_opcodes_offset (globals_of s.now lists) }
{
    let at = lists.global_opcodes_offset;
    let n = lists.global_opcodes_len;
    reader::part(s, at as usize, 4 * n as usize)
}

// The bytes of the page entries.
pub fn pages(s: &[u8], lists: Lists) -> &[u8]
    ensures { slice_told result ≡ part_at (slice_told s.entry) lists.pages_offset (pages_of s.now lists) }
{
    let at = lists.pages_offset;
    let n = lists.pages_len;
    reader::part(s, at as usize, search::PAGE_ENTRY * n as usize)
}

pub fn first_address(pages: &[u8], p: u32) -> u32
    ensures { result ≡ first_in pages.now p }
{
    search::key::<search::PageEntry>(pages, p)
}

pub fn page_offset(pages: &[u8], p: u32) -> u32
    ensures { result ≡ offset_in pages.now p }
{
    read_or_0(pages, search::PAGE_ENTRY * p as usize + 4)
}

// For speed what an entry and the next one have is tested at once. The last entry has no next one.
pub fn page_entry(pages: &[u8], p: u32) -> PageEntry
    ensures { result ≡ entry_of pages.now p }
{
    let at = search::PAGE_ENTRY * p as usize;
    if !reader::is_granted(pages, at, search::PAGE_ENTRY + 4) {
        return PageEntry {
            first: first_address(pages, p),
            offset: page_offset(pages, p),
            next: 0,
        };
    }
    PageEntry {
        first: read_or_0(pages, at),
        offset: read_or_0(pages, at + 4),
        next: read_or_0(pages, at + search::PAGE_ENTRY),
    }
}

#[tactic(auto, unfolding(crate::specs::Raw::regular_of))]
fn regular(page: &[u8]) -> Result<Page, Error>
    ensures { told result ≡ regular_of page.now }
{
    check(reader::is_granted(page, 0, 8), Error::RegularPage)?;
    let at = u32::from(read_or_0::<u16>(page, 4));
    let n = u32::from(read_or_0::<u16>(page, 6));
    check(
        reader::is_granted(page, at as usize, search::REGULAR_ENTRY * n as usize),
        Error::RegularPageFunctions,
    )?;
    Ok(Page {
        kind: Kind::Regular,
        base: 0,
        functions_offset: at,
        functions_len: n,
        local_opcodes_offset: 0,
        local_opcodes_len: 0,
    })
}

#[tactic(auto, unfolding(crate::specs::Raw::compressed_of))]
fn compressed(page: &[u8], first: u32) -> Result<Page, Error>
    ensures { told result ≡ compressed_of page.now first }
{
    check(reader::is_granted(page, 0, 12), Error::CompressedPage)?;
    let at = u32::from(read_or_0::<u16>(page, 4));
    let n = u32::from(read_or_0::<u16>(page, 6));
    let locals_at = u32::from(read_or_0::<u16>(page, 8));
    let locals = u32::from(read_or_0::<u16>(page, 10));
    check(
        reader::is_granted(page, at as usize, search::COMPRESSED_ENTRY * n as usize),
        Error::CompressedPageFunctions,
    )?;
    Ok(Page {
        kind: Kind::Compressed,
        base: first,
        functions_offset: at,
        functions_len: n,
        local_opcodes_offset: locals_at,
        local_opcodes_len: locals,
    })
}

// The page at the offset, without its local opcodes' check: as lookup reads it.
pub fn read_page(s: &[u8], offset: u32, first: u32) -> Result<Page, Error>
    ensures { told result ≡ page_of s.now offset first }
{
    let page_offset = offset as usize;
    let Some(kind) = u32::read(s, page_offset) else {
        return Err(Error::PageKind);
    };
    match kind {
        PAGE_KIND_REGULAR => regular(&s[page_offset..]),
        PAGE_KIND_COMPRESSED => compressed(&s[page_offset..], first),
        PAGE_KIND_SENTINEL => Err(Error::UnexpectedSentinelPage),
        _ => Err(Error::InvalidPageKind),
    }
}

// Whether the page's local opcodes lie in it.
pub fn has_local_opcodes(page: &[u8], pg: Page) -> bool
    ensures { result ≡ locals_granted page.now pg }
{
    let at = pg.local_opcodes_offset;
    let n = pg.local_opcodes_len;
    reader::is_granted(page, at as usize, 4 * n as usize)
}

// The page opened whole, as iteration does.
#[tactic(auto, unfolding(crate::specs::Raw::open_of))]
pub fn open_page(s: &[u8], offset: u32, first: u32) -> Result<Page, Error>
    ensures { told result ≡ open_of s.now offset first }
{
    let page = read_page(s, offset, first)?;
    let from = offset as usize;
    check(has_local_opcodes(&s[from..], page), Error::LocalOpcodes)?;
    Ok(page)
}
