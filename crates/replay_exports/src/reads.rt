// 1 is_granted: offset and bytes; 2, 3, 4 read_u16, read_u32, read_u64: offset. All of 64 bits.
use crate::put;
use brasspurse::reads::{
    ReadAnswer, brasspurse_is_granted, brasspurse_read_u16, brasspurse_read_u32,
    brasspurse_read_u64,
};
use records::nth;
use std::io;

pub fn answer(rt: &impl Print, tag: u32, section: &[u8], asked: &[u8]) -> io::Result<()> {
    let offset = size(asked, 0);
    match tag {
        1 => is_granted(rt, section, offset, size(asked, 1)),
        2 => put_read(rt, brasspurse_read_u16(section, offset)),
        3 => put_read(rt, brasspurse_read_u32(section, offset)),
        _ => put_read(rt, brasspurse_read_u64(section, offset)),
    }
}

fn size(asked: &[u8], k: usize) -> usize {
    nth::<u64>(asked, k) as usize
}

fn is_granted(rt: &impl Print, section: &[u8], offset: usize, bytes: usize) -> io::Result<()> {
    put(
        rt,
        &[u32::from(brasspurse_is_granted(section, offset, bytes))],
    )
}

fn put_read(rt: &impl Print, answer: ReadAnswer) -> io::Result<()> {
    put(rt, &[answer.granted as u64, answer.value])
}
