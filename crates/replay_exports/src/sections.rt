// 13 address_range_in: lists; 14 lookup_in: lists and address; 15 next_in: lists, page and index; 16 fill: how many numbers are lent, page and
// index; 17 fill_in: the same and lists; 18 lookup_batch: how many numbers are lent, how many addresses there are, and nine addresses. A list to
// write has 60 numbers, each 7 before the call, and the first ones of it are lent.
ghost use Rattle.std.specs.Prelude.{◌≡◌, ◌≤◌, length, take};

use crate::put;
use brasspurse::sections::{
    FillAnswer, LookupAnswer, NextAnswer, RangeAnswer, brasspurse_address_range_in,
    brasspurse_fill, brasspurse_fill_in, brasspurse_lookup_batch, brasspurse_lookup_in,
    brasspurse_next_in,
};
use raw::Lists;
use reader::part;
use records::nth;
use std::{array, io};

pub fn answer(rt: &impl Print, tag: u32, section: &[u8], asked: &[u8]) -> io::Result<()> {
    match tag {
        13 => put_range(rt, brasspurse_address_range_in(section, lists(asked))),
        14 => lookup_in(rt, section, asked),
        15 => next_in(rt, section, asked),
        _ => lent(rt, tag, section, asked),
    }
}

fn lists(asked: &[u8]) -> Lists {
    Lists {
        global_opcodes_offset: nth(asked, 0),
        global_opcodes_len: nth(asked, 1),
        pages_offset: nth(asked, 2),
        pages_len: nth(asked, 3),
    }
}

fn put_range(rt: &impl Print, range: RangeAnswer) -> io::Result<()> {
    put(rt, &[range.refusal, range.start, range.end])
}

fn lookup_in(rt: &impl Print, section: &[u8], asked: &[u8]) -> io::Result<()> {
    put_lookup(
        rt,
        brasspurse_lookup_in(section, lists(asked), nth(asked, 4)),
    )
}

fn put_lookup(rt: &impl Print, found: LookupAnswer) -> io::Result<()> {
    put(rt, &[found.start, found.end, found.opcode])?;
    put(rt, &[found.page, found.index])?;
    put(
        rt,
        &[found.origin, found.probes, found.outcome, found.refusal],
    )
}

fn next_in(rt: &impl Print, section: &[u8], asked: &[u8]) -> io::Result<()> {
    put_next(
        rt,
        brasspurse_next_in(section, lists(asked), nth(asked, 4), nth(asked, 5)),
    )
}

fn put_next(rt: &impl Print, next: NextAnswer) -> io::Result<()> {
    put(rt, &[next.start, next.end, next.opcode])?;
    put(rt, &[next.page, next.index])?;
    put(rt, &[next.function_page, next.function_index])?;
    put(rt, &[next.origin, next.outcome, next.refusal])
}

fn lent(rt: &impl Print, tag: u32, section: &[u8], asked: &[u8]) -> io::Result<()> {
    let mut list = [7u32; 60];
    let n = room(asked, 0, &list);
    write(rt, tag, section, asked, &mut list[..n])?;
    put(rt, &list)
}

// How many numbers of a list the record asks for, in its kth number; at most all of them.
fn room(asked: &[u8], k: usize, list: &[u32]) -> usize
    ensures inside { result ≤ length list.now }
    ensures front { result ≡ length (take result list.now) }
{
    let n: u32 = nth(asked, k);
    list.len().min(n as usize)
}

fn write(
    rt: &impl Print,
    tag: u32,
    section: &[u8],
    asked: &[u8],
    list: &mut [u32],
) -> io::Result<()> {
    match tag {
        16 => fill(rt, section, asked, list),
        17 => fill_in(rt, section, asked, list),
        _ => batch(rt, section, asked, list),
    }
}

fn fill(rt: &impl Print, section: &[u8], asked: &[u8], list: &mut [u32]) -> io::Result<()> {
    put_fill(
        rt,
        brasspurse_fill(section, nth(asked, 1), nth(asked, 2), list),
    )
}

fn fill_in(rt: &impl Print, section: &[u8], asked: &[u8], list: &mut [u32]) -> io::Result<()> {
    let lists = lists(part(asked, 12, 16));
    put_fill(
        rt,
        brasspurse_fill_in(section, lists, nth(asked, 1), nth(asked, 2), list),
    )
}

fn put_fill(rt: &impl Print, filled: FillAnswer) -> io::Result<()> {
    put(rt, &[filled.functions])?;
    put(rt, &[filled.page, filled.index])?;
    put(rt, &[filled.outcome, filled.refusal])
}

fn batch(rt: &impl Print, section: &[u8], asked: &[u8], list: &mut [u32]) -> io::Result<()> {
    // They come after the first two numbers.
    let addresses: [u32; 9] = array::from_fn(|k| nth(asked, k + 2));
    let n = room(asked, 1, &addresses);
    put(
        rt,
        &[brasspurse_lookup_batch(section, &addresses[..n], list)],
    )
}
