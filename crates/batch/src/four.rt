// Four addresses side by side, so that the memory's waits of their searches overlap; each answer is the single lookup's.
ghost use Rattle.std.specs.Prelude.{◌≡◌, ◌+◌, ◌-◌, ◌*◌, ◌≤◌, ◌<◌, length};
ghost use Rattle.reader.specs.Reader.{slice_told};
ghost use Rattle.search.specs.Search.{spots_in};
ghost use Rattle.search.specs.Steps.{lists_of};
ghost use Rattle.search.specs.declared.Layout.{Layout};
ghost use Rattle.entries.specs.Placed.{read_of};
ghost use Rattle.lookup.specs.Lookup.{lookup_in};
ghost use Rattle.batch.specs.Batch.{numbers_of, put_of, four_found};
ghost use Rattle.batch.specs.Pages.{PagesFor, lists_in, keys_in, tell_of};

use crate::pages::{Opened, PageFound, PageKind};
use crate::{Numbers, flat, put};
use lookup::answered;
use raw::{Error, Section};
use search::four::Four;
use search::{CompressedEntry, PageEntry, RegularEntry, Spot};

// For speed it is laid into its caller, which has four of it.
#[inline(always)]
fn put_lookup(section: Section, address: u32, out: &mut [u32], k: usize)
    requires { 6 * k + 6 ≤ length out.old }
    ensures { out.new ≡ put_of out.old k (numbers_of (lookup_in section.entry.bytes.now section.entry.lists address)) }
{
    let found = lookup::lookup_in(section.bytes, section.lists, address);
    put(out, k, flat(found));
}

// For speed it is said to be rare: so the compiler keeps what the searches side by side need in registers.
#[cold]
fn one_after_another(section: Section, x: Four<u32>, out: &mut [u32], k: usize)
    requires { 6 * k + 24 ≤ length out.old }
    ensures { out.new ≡ four_found (lookup_in section.entry.bytes.now section.entry.lists) out.old k x }
{
    put_lookup(section, x.a, out, k);
    put_lookup(section, x.b, out, k + 1);
    put_lookup(section, x.c, out, k + 2);
    put_lookup(section, x.d, out, k + 3);
}

// What the search in a page tells: the function before its end. For speed it is laid into its callers, which know the page's kind.
#[inline(always)]
fn answer(opened: Opened, m: PageFound, spot: Spot) -> Numbers
    requires { (spot.at < 4294967296) × (m.probes ≤ 32) × (spot.probes ≤ 32) }
    ensures { result ≡ numbers_of (tell_of m.probes spot (read_of opened.entry.section.bytes.now opened.entry.globals.now m.place (spot.at - 1))) }
{
    let function = opened
        .at(m.place)
        .function(spot.at.saturating_sub(1) as u32);
    let probes = m.probes + spot.probes;
    if spot.at == 0 {
        return flat(answered(Err(Error::InvalidPageEntryFirstAddress), probes));
    }
    flat(answered(function, probes))
}

// The functions of each page.
fn lists_in<'a>(opened: Opened<'a>, m: Four<PageFound>) -> Four<&'a [u8]>
    ensures { lists_of result ≡ lists_in (slice_told opened.entry.section.bytes) m }
{
    Four {
        a: opened.at(m.a.place).list(),
        b: opened.at(m.b.place).list(),
        c: opened.at(m.c.place).list(),
        d: opened.at(m.d.place).list(),
    }
}

// What is sought in each page: how far the address lies above the page's base.
fn keys_in(m: Four<PageFound>, x: Four<u32>) -> Four<u32>
    ensures { result ≡ keys_in m x }
{
    Four {
        a: lookup::above(x.a, m.a.place.page.base),
        b: lookup::above(x.b, m.b.place.page.base),
        c: lookup::above(x.c, m.c.place.page.base),
        d: lookup::above(x.d, m.d.place.page.base),
    }
}

// Four searches side by side, each in its page; then each function is read, and put before the next one's is.
fn side_by_side<K: PageKind>(
    opened: Opened,
    m: Four<PageFound>,
    x: Four<u32>,
    out: &mut [u32],
    k: usize,
)
    requires { PagesFor opened.section.bytes.now opened.section.lists K.KIND m x × (6 * k + 24 ≤ length out.old) }
    ensures { out.new ≡ four_found (lookup_in opened.entry.section.bytes.now opened.entry.section.lists) out.old k x }
{
    let q = search::four::search::<K>(lists_in(opened, m), keys_in(m, x));
    put(out, k, answer(opened, m.a, q.a));
    put(out, k + 1, answer(opened, m.b, q.b));
    put(out, k + 2, answer(opened, m.c, q.c));
    put(out, k + 3, answer(opened, m.d, q.d));
}

// Side by side where four pages are of one kind, else one after another. For speed each page is asked for as soon as it is read.
fn in_kind<K: PageKind>(opened: Opened, p: Four<Spot>, x: Four<u32>, out: &mut [u32], k: usize)
    requires { (p ≡ spots_in Layout.Pages opened.pages.now opened.pages.now opened.pages.now opened.pages.now x) × (6 * k + 24 ≤ length out.old) }
    ensures { out.new ≡ four_found (lookup_in opened.entry.section.bytes.now opened.entry.section.lists) out.old k x }
{
    match opened.four::<K>(p) {
        Some(m) => side_by_side::<K>(opened, m, x, out, k),
        None => one_after_another(opened.section, x, out, k),
    }
}

// Whether the page where a search of pages ended says that it is a regular one.
fn is_regular(opened: Opened, spot: Spot) -> bool
    requires { spot.at < 4294967296 }
{
    let offset = raw::page_offset(opened.pages, spot.at.saturating_sub(1) as u32);
    reader::read_or_0::<u32>(opened.section.bytes, offset as usize) == raw::PAGE_KIND_REGULAR
}

pub(crate) fn answer_four(opened: Opened, x: Four<u32>, out: &mut [u32], k: usize)
    requires { 6 * k + 24 ≤ length out.old }
    ensures { out.new ≡ four_found (lookup_in opened.entry.section.bytes.now opened.entry.section.lists) out.old k x }
{
    let p = search::four::search_in::<PageEntry>(opened.pages, x);
    if is_regular(opened, p.a) {
        return in_kind::<RegularEntry>(opened, p, x, out, k);
    }
    in_kind::<CompressedEntry>(opened, p, x, out, k);
}
