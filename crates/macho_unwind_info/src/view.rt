// A section together with its two list places, which each function grants anew.
ghost use Rattle.std.specs.Prelude.{◌≡◌};
ghost use Rattle.raw.specs.Checked.{told};
ghost use Rattle.raw.specs.Raw.{parse_of};
ghost use Rattle.lookup.specs.Lookup.{lookup_in, looked_told};
ghost use Rattle.iterate.specs.Iterate.{next_in, next_told};
ghost use Rattle.iterate.specs.Range.{range_in};
ghost use Rattle.macho_unwind_info.specs.View.{view_of, viewed};

use iterate::{Cursor, Next, Range};
use lookup::Found;
use raw::{Error, Lists};

#[derive(Clone, Copy)]
pub struct UnwindInfo<'a> {
    pub section: &'a [u8],
    pub lists: Lists,
}

impl<'a> UnwindInfo<'a> {
    // Of lists that anyone may name: each call grants them anew.
    pub fn new(section: &'a [u8], lists: Lists) -> UnwindInfo<'a>
        ensures { result ≡ view_of section.entry lists }
    {
        UnwindInfo { section, lists }
    }

    // Of the lists that the header names.
    pub fn parse(section: &'a [u8]) -> Result<UnwindInfo<'a>, Error>
        ensures { told result ≡ viewed section.entry (parse_of section.now) }
    {
        let lists = raw::parse(section)?;
        Ok(UnwindInfo::new(section, lists))
    }

    pub fn lookup(&self, pc: u32) -> Found
        ensures { looked_told result ≡ lookup_in self.now.section.now self.now.lists pc }
    {
        lookup::lookup_in(self.section, self.lists, pc)
    }

    pub fn address_range(&self) -> Result<Range, Error>
        ensures { told result ≡ range_in self.now.section.now self.now.lists }
    {
        iterate::address_range_in(self.section, self.lists)
    }

    pub fn next_function(&self, c: Cursor) -> Next
        ensures { next_told result ≡ next_in self.now.section.now self.now.lists c }
    {
        iterate::next_function_in(self.section, self.lists, c)
    }
}

// From plain parameters to the view and back.
pub fn lookup_in(section: &[u8], lists: Lists, pc: u32) -> Found
    ensures { looked_told result ≡ lookup_in section.now lists pc }
{
    UnwindInfo::new(section, lists).lookup(pc)
}
