// Many addresses in one call, four at a time; each answer is the single lookup's.
#![tactic(auto)]

ghost use Rattle.std.specs.Prelude.{◌≡◌, ◌+◌, ◌*◌, ◌≤◌, length};
ghost use Rattle.raw.specs.Checked.{good};
ghost use Rattle.raw.specs.Raw.{parse_of};
ghost use Rattle.lookup.specs.Lookup.{lookup_on, looked_told, probes_of};
ghost use Rattle.batch.specs.Batch.{numbers, numbers_of, standing, batch, batch_of, put_of};

use four::answer_four;
use lookup::Found;
use pages::Opened;
use raw::Section;
use search::four::Four;

mod four;
mod pages;

// An answer: start, end, opcode, page and index of the function; then its opcode's origin, and above it the probes; above both 1 for a
// function, 2 for a refusal with its number above that.
#[derive(Clone, Copy)]
pub(crate) struct Numbers {
    pub start: u32,
    pub end: u32,
    pub opcode: u32,
    pub page: u32,
    pub index: u32,
    pub told: u32,
}

// The numbers of an answer with no function.
fn only(told: u32) -> Numbers
    ensures { result ≡ numbers 0 0 0 0 0 told }
{
    Numbers {
        start: 0,
        end: 0,
        opcode: 0,
        page: 0,
        index: 0,
        told,
    }
}

pub(crate) fn flat(found: Found) -> Numbers
    requires { probes_of (looked_told found) ≤ 128 }
    ensures { result ≡ numbers_of (looked_told found) }
{
    let probes = 256 * found.probes;
    match found.function {
        Ok(Some(function)) => {
            let origin = function.origin;
            Numbers {
                start: function.start_address,
                end: function.end_address,
                opcode: function.opcode,
                page: function.page,
                index: function.index,
                told: u32::from(origin.number()) + probes + 65536,
            }
        }
        Ok(None) => only(probes),
        Err(error) => only(probes + 131072 + 16777216 * u32::from(error.number())),
    }
}

// For speed each number is written by itself: in an array, copied, they went through memory first.
pub(crate) fn put(out: &mut [u32], k: usize, n: Numbers)
    requires { 6 * k + 6 ≤ length out.old }
    ensures { out.new ≡ put_of out.old k n }
{
    let at = 6 * k;
    out[at] = n.start;
    out[at + 1] = n.end;
    out[at + 2] = n.opcode;
    out[at + 3] = n.page;
    out[at + 4] = n.index;
    out[at + 5] = n.told;
}

// The answers four by four, as long as there are four; how many they are.
fn by_fours(section: Section, addresses: &[u32], out: &mut [u32]) -> usize
    requires { (parse_of section.bytes.now ≡ good section.lists) × (6 * length addresses.now ≤ length out.old) }
    ensures { (result ≤ length addresses.now) × (out.new ≡ standing (lookup_on section.entry.bytes.now) addresses.now out.old result) }
{
    let opened = Opened::new(section);
    let (fours, _) = addresses.as_chunks::<4>();
    for (i, &[a, b, c, d]) in fours.iter().enumerate() {
        answer_four(opened, Four { a, b, c, d }, out, 4 * i);
    }
    4 * fours.len()
}

// Whole fours of answers, if the section parses; how many answers they are.
fn whole_fours(s: &[u8], addresses: &[u32], out: &mut [u32]) -> usize
    requires { 6 * length addresses.now ≤ length out.old }
    ensures { (result ≤ length addresses.now) × (out.new ≡ standing (lookup_on s.now) addresses.now out.old result) }
{
    match Section::parse(s) {
        Ok(section) => by_fours(section, addresses, out),
        Err(_) => 0,
    }
}

// Looks up as many of the addresses as the list has room for, six numbers each, and says how many.
pub fn lookup_batch(s: &[u8], addresses: &[u32], out: &mut [u32]) -> usize
    ensures { batch result out.new ≡ batch_of s.now addresses.now out.old }
{
    let n = addresses.len().min(out.len() / 6);
    let asked = &addresses[..n];
    for k in whole_fours(s, asked, out)..n {
        put(out, k, flat(lookup::lookup(s, asked[k])));
    }
    n
}
