// The functions of a page: one reader for all who ask for a function.
#![tactic(auto)]

ghost use Rattle.std.specs.Prelude.{◌≡◌, true, cond, [], ◌+◌, ◌*◌, ◌≤◌, ◌<◌, length};
ghost use Rattle.reader.specs.Reader.{word_at, slice_told, part_in};
ghost use Rattle.search.specs.Search.{size_of};
ghost use Rattle.raw.specs.declared.Error.{Error};
ghost use Rattle.raw.specs.Checked.{told};
ghost use Rattle.raw.specs.Raw.{layout};
ghost use Rattle.entries.specs.Entries.{is_global, palette_of, opcode_part_in, resolve_of, origin_number, sourced};
ghost use Rattle.entries.specs.Placed.{first_at, size_at, list_there, entry_there, list_at, list_in, locals_there, locals_at, no_entry, read_of, entry_in, opcode_for};

use raw::{Error, Kind, Page, check};
use search::Layout;

// Where an opcode stands: in the function's own entry of a regular page, in the section's global list, or in the page's local one.
#[derive(Clone, Copy, Debug, PartialEq, Eq)]
pub enum Origin {
    Regular = 1,
    Global = 2,
    Local = 3,
}

impl Origin {
    // 0 is left for no function.
    pub fn number(self) -> u8
        ensures { result ≡ origin_number self }
    {
        self as u8
    }
}

// Page and index are the cursor at which iteration answers this function. The order is for speed: values that stand side by side here and in
// a flat answer are loaded at once, and have to wait where each was stored by itself.
#[derive(Clone, Copy, Debug, PartialEq, Eq)]
pub struct Function {
    pub start_address: u32,
    pub opcode: u32,
    pub origin: Origin,
    pub page: u32,
    pub end_address: u32,
    pub index: u32,
}

// A page's place: its index, its offset in the section, the next page's first address, and what it was read as. Any numbers.
#[derive(Clone, Copy)]
pub struct Place {
    pub index: u32,
    pub offset: u32,
    pub next: u32,
    pub page: Page,
}

// A page in its section: the section's bytes and its global opcodes, and the page's place. Any bytes.
#[derive(Clone, Copy)]
pub struct PageAt<'a> {
    pub section: &'a [u8],
    pub globals: &'a [u8],
    pub place: Place,
}

// An entry's first word, and where its function starts.
#[derive(Clone, Copy)]
struct Entry {
    pub word: u32,
    pub start: u64,
}

// Bytes that are there, with no test of it.
fn word(s: &[u8], at: usize) -> u32
    requires { at + 4 ≤ length s.now }
    ensures { result ≡ word_at 4 s.now at }
{
    u32::from_le_bytes([s[at], s[at + 1], s[at + 2], s[at + 3]])
}

fn inside(s: &[u8], at: usize, n: usize) -> &[u8]
    requires { at + n ≤ length s.now }
    ensures { slice_told result ≡ part_in (slice_told s.entry) at n }
{
    let end = at + n;
    &s[at..end]
}

impl Place {
    // Where the page's list of functions starts, and its bytes. No number here is so large that a sum wraps.
    fn first(self) -> usize
        ensures { (result ≡ first_at self) × (result < 8589934592) }
    {
        self.offset as usize + self.page.functions_offset as usize
    }

    fn size(self) -> usize
        ensures { (result ≡ size_at self) × (result < 68719476736) }
    {
        let kind = self.page.kind;
        search::entry_size(Layout::from(kind)) * self.page.functions_len as usize
    }
}

// Whether an opcode's index names a global one.
fn is_global(globals: &[u8], index: u32) -> bool
    ensures { result ≡ is_global globals.now index }
{
    (index as usize) < globals.len() / 4
}

#[tactic(auto, unfolding(crate::specs::Entries::palette_of))]
fn palette_of(globals: &[u8], index: u32) -> Origin
    ensures { result ≡ palette_of globals.now index }
{
    if is_global(globals, index) {
        Origin::Global
    } else {
        Origin::Local
    }
}

// The four bytes of the opcode that the index names, a part of the one palette or of the other; an empty part where it names none.
pub fn opcode_part<'a>(globals: &'a [u8], locals: &'a [u8], index: u32) -> &'a [u8]
    ensures { slice_told result ≡ opcode_part_in (slice_told globals.entry) (slice_told locals.entry) index }
{
    let i = index as usize;
    let n = globals.len() / 4;
    let m = locals.len() / 4;
    if i >= n + m {
        return &locals[..0];
    }
    if is_global(globals, index) {
        return inside(globals, 4 * i, 4);
    }
    inside(locals, 4 * (i - n), 4)
}

fn unnamed(there: bool) -> Error
    ensures { result ≡ cond there Error.LocalIndex Error.LocalOpcodes }
{
    if there {
        Error::LocalIndex
    } else {
        Error::LocalOpcodes
    }
}

// Entry i of a list; past the last, the next page's first address.
fn entry_at(list: &[u8], pg: Page, next: u32, i: usize) -> Entry
    requires { size_of (layout pg.kind) * pg.functions_len ≤ length list.now }
    ensures { result ≡ entry_in list.now pg next i }
{
    let kind = pg.kind;
    let base = pg.base as u64;
    if pg.functions_len as usize <= i {
        let start = next as u64;
        return Entry { word: 0, start };
    }
    match kind {
        Kind::Regular => {
            let word = word(list, search::REGULAR_ENTRY * i);
            let start = base + word as u64;
            Entry { word, start }
        }
        Kind::Compressed => {
            let word = word(list, search::COMPRESSED_ENTRY * i);
            let start = base + (word % search::COMPRESSED_KEYS) as u64;
            Entry { word, start }
        }
    }
}

// Why there is no such entry.
fn no_entry(kind: Kind) -> Error
    ensures { result ≡ no_entry kind }
{
    match kind {
        Kind::Regular => Error::RegularPageFunctions,
        Kind::Compressed => Error::CompressedPageFunctions,
    }
}

impl<'a> PageAt<'a> {
    fn has_list(self) -> bool
        ensures { result ≡ list_there self.entry.section.now self.entry.place }
    {
        self.place.first() + self.place.size() <= self.section.len()
    }

    // Whether the list has entry i, and lies in the section.
    fn has_entry(self, i: u32) -> bool
        ensures { result ≡ entry_there self.entry.section.now self.entry.place i }
    {
        i < self.place.page.functions_len && self.has_list()
    }

    fn list_there(self) -> &'a [u8]
        requires { list_there self.section.now self.place ≡ true }
        ensures { slice_told result ≡ part_in (slice_told self.entry.section) (first_at self.entry.place) (size_at self.entry.place) }
    {
        inside(self.section, self.place.first(), self.place.size())
    }

    // The bytes of the page's functions; none where they don't lie in the section.
    pub fn list(self) -> &'a [u8]
        ensures { slice_told result ≡ list_in (slice_told self.entry.section) self.entry.place }
    {
        if self.has_list() {
            self.list_there()
        } else {
            &self.section[..0]
        }
    }

    // Whether the page's local opcodes lie in the section.
    pub fn has_local_opcodes(self) -> bool
        ensures { result ≡ locals_there self.entry.section.now self.entry.place }
    {
        let page = self.place.page;
        let at = self.place.offset as usize + page.local_opcodes_offset as usize;
        at + 4 * page.local_opcodes_len as usize <= self.section.len()
    }

    // The page's local opcodes; none where they are not there.
    fn local_opcodes(self, there: bool) -> &'a [u8]
        requires { there ≡ locals_there self.section.now self.place }
        ensures { result.now ≡ cond there (locals_at self.entry.section.now self.entry.place) [] }
    {
        if !there {
            return &self.section[..0];
        }
        let page = self.place.page;
        let at = self.place.offset as usize + page.local_opcodes_offset as usize;
        inside(self.section, at, 4 * page.local_opcodes_len as usize)
    }

    // The opcode that the index names, and where it stands.
    fn named(self, index: u32) -> Result<(u32, Origin), Error>
        ensures { told result ≡ sourced (palette_of self.entry.globals.now index) (resolve_of self.entry.globals.now (locals_at self.entry.section.now self.entry.place) (locals_there self.entry.section.now self.entry.place) index) }
    {
        let there = self.has_local_opcodes();
        let bytes = opcode_part(self.globals, self.local_opcodes(there), index);
        if bytes.len() < 4 {
            return Err(unnamed(there));
        }
        Ok((word(bytes, 0), palette_of(self.globals, index)))
    }

    // The opcode of entry i, whose first word is known.
    fn opcode(self, list: &[u8], i: usize, first: u32) -> Result<(u32, Origin), Error>
        requires { (list.now ≡ list_at self.section.now self.place) × (size_at self.place ≤ length list.now) × (i < self.place.page.functions_len) × (first ≡ word_at 4 list.now (size_of (layout self.place.page.kind) * i)) }
        ensures { told result ≡ opcode_for self.entry.section.now self.entry.globals.now self.entry.place i }
    {
        let kind = self.place.page.kind;
        match kind {
            Kind::Regular => Ok((word(list, search::REGULAR_ENTRY * i + 4), Origin::Regular)),
            Kind::Compressed => self.named(first / search::COMPRESSED_KEYS),
        }
    }

    // Function i of the page there: a few comparisons show that what is read lies in the section, and then it is read straight.
    // For speed it is laid into its callers, whose loops would call it for each function.
    #[inline(always)]
    pub fn function(self, i: u32) -> Result<Function, Error>
        ensures { told result ≡ read_of self.entry.section.now self.entry.globals.now self.entry.place i }
    {
        let page = self.place.page;
        let next = self.place.next;
        let kind = page.kind;
        let k = i as usize;
        check(self.has_entry(i), no_entry(kind))?;
        let list = self.list_there();
        let here = entry_at(list, page, next, k);
        let after = entry_at(list, page, next, k + 1);
        // For speed one test for both: whether either has more than 32 bits.
        check(
            here.start / 4294967296 + after.start / 4294967296 == 0,
            Error::AddressTooLarge,
        )?;
        let (opcode, origin) = self.opcode(list, k, here.word)?;
        Ok(Function {
            start_address: here.start as u32,
            end_address: after.start as u32,
            opcode,
            page: self.place.index,
            index: i,
            origin,
        })
    }
}
