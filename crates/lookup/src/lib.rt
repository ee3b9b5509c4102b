// Lookup of the function that covers an address.
#![tactic(auto)]

ghost use Rattle.std.specs.Prelude.{◌≡◌, true, ◌+◌, ◌-◌, ◌≤◌, ◌<◌, drop};
ghost use Rattle.raw.specs.Checked.{told};
ghost use Rattle.raw.specs.Section.{section_told};
ghost use Rattle.raw.specs.Raw.{layout, pages_of};
ghost use Rattle.entries.specs.Placed.{list_there, list_at};
ghost use Rattle.lookup.specs.Lookup.{telling, at_page, lookup_of, lookup_in, lookup_on, looked_on, looked_told};
ghost use Rattle.lookup.specs.Searched.{WasRead, searched_in};

use entries::{Function, PageAt, Place};
use raw::{Error, Kind, Lists, Section};
use search::{CompressedEntry, Entry, PageEntry, RegularEntry};

// What was found, none or a refusal, with the number of entries that the searches probed.
#[derive(Clone, Copy, Debug, PartialEq, Eq)]
pub struct Found {
    pub probes: u32,
    pub function: Result<Option<Function>, Error>,
}

// The address that is looked for, and the entries that the search of pages probed.
#[derive(Clone, Copy)]
struct Sought {
    pc: u32,
    probes: u32,
    ghost few: { probes ≤ 64 },
}

// What a page's function tells, with the probes.
pub fn answered(answer: Result<Function, Error>, probes: u32) -> Found
    ensures { looked_told result ≡ telling probes (told answer) }
{
    Found {
        probes,
        function: answer.map(Some),
    }
}

// How far pc lies above the base, 0 if below it.
pub fn above(pc: u32, base: u32) -> u32
    ensures { result ≡ pc - base }
{
    pc.saturating_sub(base)
}

// The functions of a page that was read, with no test that they are there: that was tested once.
fn functions_of<'a, E: Entry>(at: PageAt<'a>) -> &'a [u8]
    requires { (list_there at.section.now at.place ≡ true) × (layout at.place.page.kind ≡ E.layout) }
    ensures { result.now ≡ list_at at.entry.section.now at.entry.place }
{
    let page = at.place.page;
    let start = at.place.offset as usize + page.functions_offset as usize;
    let end = start + E::SIZE * page.functions_len as usize;
    &at.section[start..end]
}

// In a page of one kind: so the compiler knows the kind in the search and in the read.
fn in_kind<E: Entry>(at: PageAt, sought: Sought) -> Found
    requires { WasRead at.section.now at.place × (layout at.place.page.kind ≡ E.layout) }
    ensures { looked_told result ≡ searched_in at.entry.place.index at.entry.globals.now (drop at.entry.place.offset at.entry.section.now) at.entry.place.page at.entry.place.next sought.pc sought.probes }
{
    let page = at.place.page;
    let spot = search::search::<E>(functions_of::<E>(at), above(sought.pc, page.base));
    let all = sought.probes + spot.probes;
    if spot.at == 0 {
        return answered(Err(Error::InvalidPageEntryFirstAddress), all);
    }
    answered(at.function((spot.at - 1) as u32), all)
}

// In a page that was read.
fn in_page(at: PageAt, sought: Sought) -> Found
    requires { WasRead at.section.now at.place }
    ensures { looked_told result ≡ searched_in at.entry.place.index at.entry.globals.now (drop at.entry.place.offset at.entry.section.now) at.entry.place.page at.entry.place.next sought.pc sought.probes }
{
    let kind = at.place.page.kind;
    match kind {
        Kind::Regular => in_kind::<RegularEntry>(at, sought),
        Kind::Compressed => in_kind::<CompressedEntry>(at, sought),
    }
}

// Page p: its entry and the next one are in the list.
fn at_page(section: Section, pages: &[u8], sought: Sought, p: u32) -> Found
    requires { (pages.now ≡ pages_of section.bytes.now section.lists) × (p + 1 < section.lists.pages_len) }
    ensures { looked_told result ≡ at_page section.entry.bytes.now section.entry.lists sought.pc p sought.probes }
{
    let e = raw::page_entry(pages, p);
    // The page's local opcodes are not asked for.
    let page = match raw::read_page(section.bytes, e.offset, e.first) {
        Ok(page) => page,
        Err(error) => return answered(Err(error), sought.probes),
    };
    let place = Place {
        index: p,
        offset: e.offset,
        next: e.next,
        page,
    };
    let at = PageAt {
        section: section.bytes,
        globals: section.global_opcodes(),
        place,
    };
    in_page(at, sought)
}

fn lookup_of(section: Section, pc: u32) -> Found
    ensures { looked_told result ≡ lookup_of section.entry.bytes.now section.entry.lists pc }
{
    let n = section.lists.pages_len;
    let pages = section.pages();
    let spot = search::search::<PageEntry>(pages, pc);
    let at = spot.at;
    let probes = spot.probes;
    if at == 0 {
        return Found {
            probes,
            function: Ok(None),
        };
    }
    if at == n as usize {
        return Found {
            probes,
            function: Ok(None),
        };
    }
    let sought = Sought { pc, probes };
    at_page(section, pages, sought, (at - 1) as u32)
}

// The lookup on a section, or what refuses it.
fn looked_on(section: Result<Section, Error>, pc: u32) -> Found
    ensures { looked_told result ≡ looked_on (section_told section.entry) pc }
{
    match section {
        Ok(section) => lookup_of(section, pc),
        Err(error) => answered(Err(error), 0),
    }
}

// The function that covers the address, of lists that anyone may name.
#[tactic(auto, using(crate::proofs::Calls::over_section), unfolding(crate::specs::Lookup::lookup_in))]
pub fn lookup_in(s: &[u8], lists: Lists, pc: u32) -> Found
    ensures { looked_told result ≡ lookup_in s.now lists pc }
{
    looked_on(Section::new(s, lists), pc)
}

#[tactic(auto, using(crate::proofs::Calls::over_section), unfolding(crate::specs::Lookup::lookup_on))]
pub fn lookup(s: &[u8], pc: u32) -> Found
    ensures { looked_told result ≡ lookup_on s.now pc }
{
    looked_on(Section::parse(s), pc)
}
