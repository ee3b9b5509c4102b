// For C: sections. The calls that end in `_in` take the places of the two lists, which anyone may name: they are granted anew.
ghost use Rattle.std.specs.Prelude.{◌≡◌};
ghost use Rattle.raw.specs.Raw.{parse_of};
ghost use Rattle.iterate.specs.Iterate.{next_on, next_in};
ghost use Rattle.iterate.specs.Range.{range_on, range_in};
ghost use Rattle.lookup.specs.Lookup.{lookup_on, lookup_in};
ghost use Rattle.batch.specs.Batch.{batch, batch_of};
ghost use Rattle.fill.specs.Fill.{fill_on, fill_in};
ghost use Rattle.well_formed.specs.WellFormed.{well_formed};
ghost use Rattle.brasspurse.specs.Sections.{parse_answer, range_answer, lookup_answer, next_answer, fill_answer, filled_outcome};

use brasspurse::sections::{FillAnswer, LookupAnswer, NextAnswer, ParseAnswer, RangeAnswer};
use raw::Lists;

#[unsafe(no_mangle)]
pub extern "C" fn brasspurse_parse(section: &[u8]) -> ParseAnswer
    ensures { result ≡ parse_answer (parse_of section.now) }
{
    brasspurse::sections::brasspurse_parse(section)
}

#[unsafe(no_mangle)]
pub extern "C" fn brasspurse_address_range(section: &[u8]) -> RangeAnswer
    ensures { result ≡ range_answer (range_on section.now) }
{
    brasspurse::sections::brasspurse_address_range(section)
}

#[unsafe(no_mangle)]
pub extern "C" fn brasspurse_address_range_in(section: &[u8], lists: Lists) -> RangeAnswer
    ensures { result ≡ range_answer (range_in section.now lists) }
{
    brasspurse::sections::brasspurse_address_range_in(section, lists)
}

#[unsafe(no_mangle)]
pub extern "C" fn brasspurse_lookup(section: &[u8], address: u32) -> LookupAnswer
    ensures { result ≡ lookup_answer (lookup_on section.now address) }
{
    brasspurse::sections::brasspurse_lookup(section, address)
}

#[unsafe(no_mangle)]
pub extern "C" fn brasspurse_lookup_in(section: &[u8], lists: Lists, address: u32) -> LookupAnswer
    ensures { result ≡ lookup_answer (lookup_in section.now lists address) }
{
    brasspurse::sections::brasspurse_lookup_in(section, lists, address)
}

// Looks up as many of the addresses as there is room for, and says how many. Answer i is the six numbers from 6 * i on: start, end, opcode,
// page, index, and origin + 256 * probes + 65,536 * outcome + 16,777,216 * refusal, which are the 24 bytes of a LookupAnswer.
#[unsafe(no_mangle)]
pub extern "C" fn brasspurse_lookup_batch(
    section: &[u8],
    addresses: &[u32],
    answers: &mut [u32],
) -> usize
    ensures { batch result answers.new ≡ batch_of section.now addresses.now answers.old }
{
    brasspurse::sections::brasspurse_lookup_batch(section, addresses, answers)
}

#[unsafe(no_mangle)]
pub extern "C" fn brasspurse_next(section: &[u8], page: u32, index: u32) -> NextAnswer
    ensures { result ≡ next_answer (next_on section.now (record { page = page; index = index })) }
{
    brasspurse::sections::brasspurse_next(section, page, index)
}

#[unsafe(no_mangle)]
pub extern "C" fn brasspurse_next_in(
    section: &[u8],
    lists: Lists,
    page: u32,
    index: u32,
) -> NextAnswer
    ensures { result ≡ next_answer (next_in section.now lists (record { page = page; index = index })) }
{
    brasspurse::sections::brasspurse_next_in(section, lists, page, index)
}

#[unsafe(no_mangle)]
pub extern "C" fn brasspurse_fill(
    section: &[u8],
    page: u32,
    index: u32,
    out: &mut [u32],
) -> FillAnswer
    ensures { filled_outcome result out.new ≡ fill_answer (fill_on section.now (record { page = page; index = index }) out.old) }
{
    brasspurse::sections::brasspurse_fill(section, page, index, out)
}

#[unsafe(no_mangle)]
pub extern "C" fn brasspurse_fill_in(
    section: &[u8],
    lists: Lists,
    page: u32,
    index: u32,
    out: &mut [u32],
) -> FillAnswer
    ensures { filled_outcome result out.new ≡ fill_answer (fill_in section.now lists (record { page = page; index = index }) out.old) }
{
    brasspurse::sections::brasspurse_fill_in(section, lists, page, index, out)
}

#[unsafe(no_mangle)]
pub extern "C" fn brasspurse_is_well_formed(section: &[u8]) -> bool
    ensures { result ≡ well_formed section.now }
{
    brasspurse::sections::brasspurse_is_well_formed(section)
}
