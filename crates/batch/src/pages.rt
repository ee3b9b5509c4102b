// The page of an address, before its functions are searched side by side with those of three others.
ghost use Rattle.std.specs.Prelude.{◌≡◌, ◌≤◌, ⊤, MatchOption};
ghost use Rattle.raw.specs.Raw.{globals_of, pages_of};

use entries::{PageAt, Place};
use raw::{Kind, Section};
use search::four::Four;
use search::{CompressedEntry, Entry, RegularEntry, Spot};

// A page's kind that the compiler knows, by the layout of its functions: so it knows it in the search and in each read.
pub(crate) trait PageKind: Entry {
    ghost use Rattle.std.specs.Prelude.{◌≡◌};
    ghost use Rattle.raw.specs.declared.Kind.{Kind};
    ghost use Rattle.raw.specs.Raw.{layout};

    ghost KIND: { Kind };

    const KIND: Kind;

    ghost laid: { layout KIND ≡ Self.layout };
}

impl PageKind for RegularEntry {
    ghost use Rattle.std.specs.Prelude.{refl};
    ghost use Rattle.raw.specs.declared.Kind.{Kind};

    ghost KIND = { Kind.Regular };

    const KIND: Kind = Kind::Regular;

    ghost laid = { refl };
}

impl PageKind for CompressedEntry {
    ghost use Rattle.std.specs.Prelude.{refl};
    ghost use Rattle.raw.specs.declared.Kind.{Kind};

    ghost KIND = { Kind.Compressed };

    const KIND: Kind = Kind::Compressed;

    ghost laid = { refl };
}

// The page of an address, and the probes of its search.
#[derive(Clone, Copy)]
pub(crate) struct PageFound {
    pub place: Place,
    pub probes: u32,
}

// A section with its lists, cut out once for all addresses.
#[derive(Clone, Copy)]
pub(crate) struct Opened<'a> {
    pub section: Section<'a>,
    pub globals: &'a [u8],
    pub pages: &'a [u8],
    pub ghost globals_are: { globals.now ≡ globals_of section.bytes.now section.lists },
    pub ghost pages_are: { pages.now ≡ pages_of section.bytes.now section.lists },
}

impl<'a> Opened<'a> {
    ghost use Rattle.batch.specs.Pages.{PageOf, PagesOf};

    pub fn new(section: Section<'a>) -> Opened<'a>
        ensures { (result.section.bytes.now ≡ section.entry.bytes.now) × (result.section.lists ≡ section.entry.lists) }
    {
        Opened {
            section,
            globals: section.global_opcodes(),
            pages: section.pages(),
        }
    }

    // A page in the section.
    pub fn at(self, place: Place) -> PageAt<'a>
        ensures { (result.section.now ≡ self.entry.section.bytes.now) × (result.globals.now ≡ self.entry.globals.now) × (result.place ≡ place) }
    {
        PageAt {
            section: self.section.bytes,
            globals: self.globals,
            place,
        }
    }

    // The page where the search of pages ended, if it is of the kind and its local opcodes are there. No answer needs these: for speed they are
    // asked for once, so that no read asks again.
    #[inline(always)]
    fn page<K: PageKind>(self, spot: Spot) -> Option<PageFound>
        requires { spot.at ≤ self.section.lists.pages_len }
        ensures { MatchOption result ⊤ (λ m. PageOf self.entry.section.bytes.now self.entry.section.lists spot K.KIND m) }
    {
        let at = spot.at;
        if at == 0 || at == self.section.lists.pages_len as usize {
            return None;
        }
        let index = (at - 1) as u32;
        let e = raw::page_entry(self.pages, index);
        let Ok(page) = raw::read_page(self.section.bytes, e.offset, e.first) else {
            return None;
        };
        let place = Place {
            index,
            offset: e.offset,
            next: e.next,
            page,
        };
        if page.kind != K::KIND || !self.at(place).has_local_opcodes() {
            return None;
        }
        Some(PageFound {
            place,
            probes: spot.probes,
        })
    }

    // The four pages, if each is such a one.
    pub(crate) fn four<K: PageKind>(self, spots: Four<Spot>) -> Option<Four<PageFound>>
        requires { (spots.a.at ≤ self.section.lists.pages_len) × (spots.b.at ≤ self.section.lists.pages_len) × (spots.c.at ≤ self.section.lists.pages_len) × (spots.d.at ≤ self.section.lists.pages_len) }
        ensures { MatchOption result ⊤ (λ m. PagesOf self.entry.section.bytes.now self.entry.section.lists spots K.KIND m) }
    {
        Some(Four {
            a: self.page::<K>(spots.a)?,
            b: self.page::<K>(spots.b)?,
            c: self.page::<K>(spots.c)?,
            d: self.page::<K>(spots.d)?,
        })
    }
}
