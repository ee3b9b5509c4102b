// Whether a section is well formed.
#![tactic(auto)]

ghost use Rattle.std.specs.Prelude.{◌≡◌, eqb};
ghost use Rattle.entries.specs.Placed.{read_of};
ghost use Rattle.well_formed.specs.WellFormed.{all, given, good_page, good_pages, well_formed, good_read};

use entries::PageAt;
use raw::Section;

// Whether function i is read and starts below its end.
fn is_good_function(page: PageAt, i: u32) -> bool
    ensures { result ≡ good_read page.entry.section.now page.entry.globals.now page.entry.place i }
{
    page.function(i)
        .is_ok_and(|f| f.start_address < f.end_address)
}

fn are_good_functions(page: PageAt) -> bool
    ensures { result ≡ all page.entry.place.page.functions_len (good_read page.entry.section.now page.entry.globals.now page.entry.place) }
{
    (0..page.place.page.functions_len).all(|i| is_good_function(page, i))
}

// Whether the page has a first function, and that starts at the address.
fn starts_at(page: PageAt, first: u32) -> bool
    ensures { result ≡ given (λ x y. eqb x first) (read_of page.entry.section.now page.entry.globals.now page.entry.place 0) }
{
    page.function(0).is_ok_and(|f| f.start_address == first)
}

// Whether page p opens and has functions, from its first address on, that are all good.
fn is_good_page(section: Section, p: u32) -> bool
    ensures { result ≡ good_page section.entry.bytes.now section.entry.lists p }
{
    let Ok(page) = iterate::open_at(section, p) else {
        return false;
    };
    let first = raw::first_address(section.pages(), p);
    starts_at(page, first) && are_good_functions(page)
}

// The last page entry only marks the end.
fn are_good_pages(section: Section) -> bool
    ensures { result ≡ good_pages section.entry.bytes.now section.entry.lists }
{
    (0..section.lists.pages_len.saturating_sub(1)).all(|p| is_good_page(section, p))
}

// The checker: yes exactly for a well-formed section.
pub fn is_well_formed(s: &[u8]) -> bool
    ensures { result ≡ well_formed s.now }
{
    Section::parse(s).is_ok_and(are_good_pages)
}
