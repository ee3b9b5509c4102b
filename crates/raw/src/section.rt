// A section whose two lists lie in it.
ghost use Rattle.std.specs.Prelude.{◌≡◌};
ghost use Rattle.reader.specs.Reader.{slice_told, part_at};
ghost use Rattle.raw.specs.Checked.{good};
ghost use Rattle.raw.specs.Raw.{grant_of, parse_of, globals_of, pages_of};

use crate::{Error, Lists, grant, parse};

// Its bytes, and where its lists stand.
#[derive(Clone, Copy)]
pub struct Section<'a> {
    pub bytes: &'a [u8],
    pub lists: Lists,
    pub ghost granted: { grant_of bytes.now lists ≡ good lists },
}

impl<'a> Section<'a> {
    ghost use Rattle.raw.specs.Section.{standing, section_told};

    // Of lists that anyone may name.
    pub fn new(bytes: &'a [u8], lists: Lists) -> Result<Section<'a>, Error>
        ensures { section_told result ≡ standing (slice_told bytes.entry) (grant_of bytes.now lists) }
    {
        let lists = grant(bytes, lists)?;
        Ok(Section { bytes, lists })
    }

    // Of the lists that the header names.
    pub fn parse(bytes: &'a [u8]) -> Result<Section<'a>, Error>
        ensures { section_told result ≡ standing (slice_told bytes.entry) (parse_of bytes.now) }
    {
        let lists = parse(bytes)?;
        Ok(Section { bytes, lists })
    }

    // For speed this and `pages` test nothing: that the lists lie in the section is known.
    pub fn global_opcodes(self) -> &'a [u8]
        ensures { slice_told result ≡ part_at (slice_told self.entry.bytes) self.entry.lists.global_opcodes_offset (globals_of self.entry.bytes.now self.entry.lists) }
    {
        let at = self.lists.global_opcodes_offset as usize;
        let end = at + 4 * self.lists.global_opcodes_len as usize;
        &self.bytes[at..end]
    }

    pub fn pages(self) -> &'a [u8]
        ensures { slice_told result ≡ part_at (slice_told self.entry.bytes) self.entry.lists.pages_offset (pages_of self.entry.bytes.now self.entry.lists) }
    {
        let at = self.lists.pages_offset as usize;
        let end = at + search::PAGE_ENTRY * self.lists.pages_len as usize;
        &self.bytes[at..end]
    }
}
