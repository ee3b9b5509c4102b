// 5 encode_permutation_6: count and six registers; 6, 7 opcode_kind, opcode_specific_bits: word; 8 register_x86_64: register; 19 parse_x86_64:
// word. Of a register's number the call gets the lowest 8 bits.
use crate::put;
use brasspurse::permutations::{EncodingAnswer, brasspurse_encode_permutation_6};
use brasspurse::words::{
    OpcodeX86_64Answer, RegisterAnswer, brasspurse_opcode_kind, brasspurse_opcode_specific_bits,
    brasspurse_parse_x86_64, brasspurse_register_x86_64,
};
use records::nth;
use std::{array, io};

pub fn answer(rt: &impl Print, tag: u32, asked: &[u8]) -> io::Result<()> {
    let word = nth(asked, 0);
    match tag {
        5 => put_encoding(rt, brasspurse_encode_permutation_6(word, &registers(asked))),
        6 => put(rt, &[brasspurse_opcode_kind(word)]),
        7 => put(rt, &[brasspurse_opcode_specific_bits(word)]),
        8 => put_register(rt, brasspurse_register_x86_64(byte(asked, 0))),
        _ => put_word(rt, brasspurse_parse_x86_64(word)),
    }
}

fn put_register(rt: &impl Print, answer: RegisterAnswer) -> io::Result<()> {
    put(rt, &[answer.state, answer.number, answer.dwarf_number])
}

fn put_word(rt: &impl Print, answer: OpcodeX86_64Answer) -> io::Result<()> {
    put(rt, &[answer.value])?;
    put(rt, &[answer.answer, answer.stack_adjust_in_bytes])?;
    put(rt, &[answer.fields, answer.field_states])?;
    put(rt, &answer.popped_regs)
}

fn put_encoding(rt: &impl Print, answer: EncodingAnswer) -> io::Result<()> {
    put(rt, &[answer.refusal, answer.encoding])
}

// The six numbers after the first.
fn registers(asked: &[u8]) -> [u8; 6] {
    array::from_fn(|k| byte(asked, k + 1))
}

fn byte(asked: &[u8], k: usize) -> u8 {
    (nth::<u32>(asked, k) % 256) as u8
}
