// 9, 10 rule_x86_64, rule_arm64: word, of 32 bits; 11, 12 unwind_x86_64, unwind_arm64: address, of 32 bits, base and registers, of 64 bits, and
// the window's bytes.
use crate::put;
use brasspurse::frames::{
    RuleArm64Answer, RuleX86_64Answer, brasspurse_rule_arm64, brasspurse_rule_x86_64,
};
use brasspurse::unwind::{brasspurse_unwind_arm64, brasspurse_unwind_x86_64};
use reader::{part, read_or_0};
use records::array;
use std::io;
use step::arm64::RegistersArm64;
use step::x86_64::RegistersX86_64;

pub fn answer(rt: &impl Print, tag: u32, section: &[u8], asked: &[u8]) -> io::Result<()> {
    let first = read_or_0(asked, 0);
    match tag {
        9 => put_rule_x86_64(rt, brasspurse_rule_x86_64(first)),
        10 => put_rule_arm64(rt, brasspurse_rule_arm64(first)),
        11 => unwind_x86_64(rt, section, first, asked),
        _ => unwind_arm64(rt, section, first, asked),
    }
}

fn put_rule_x86_64(rt: &impl Print, rule: RuleX86_64Answer) -> io::Result<()> {
    put(rt, &[rule.refusal, rule.value])?;
    put(rt, &[rule.cfa_distance, u64::from(rule.cfa_register)])?;
    put(rt, &rule.below)
}

fn put_rule_arm64(rt: &impl Print, rule: RuleArm64Answer) -> io::Result<()> {
    put(rt, &[rule.refusal, rule.value])?;
    put(rt, &[rule.cfa_distance, u64::from(rule.cfa_register)])?;
    put(rt, &rule.below)
}

fn unwind_x86_64(rt: &impl Print, section: &[u8], address: u32, asked: &[u8]) -> io::Result<()> {
    let given = RegistersX86_64 {
        rip: read_or_0(asked, 12),
        rsp: read_or_0(asked, 20),
        saved: array(part(asked, 28, 48)),
    };
    let window = part(asked, 76, asked.len());
    let base = read_or_0(asked, 4);
    let answer = brasspurse_unwind_x86_64(section, address, given, base, window);
    let after = answer.registers;
    put(rt, &[answer.refusal, answer.value, answer.probes])?;
    put(rt, &[after.rip, after.rsp])?;
    put(rt, &after.saved)
}

fn unwind_arm64(rt: &impl Print, section: &[u8], address: u32, asked: &[u8]) -> io::Result<()> {
    let given = RegistersArm64 {
        pc: read_or_0(asked, 12),
        sp: read_or_0(asked, 20),
        saved: array(part(asked, 28, 160)),
    };
    let window = part(asked, 188, asked.len());
    let base = read_or_0(asked, 4);
    let answer = brasspurse_unwind_arm64(section, address, given, base, window);
    let after = answer.registers;
    put(rt, &[answer.refusal, answer.value, answer.probes])?;
    put(rt, &[after.pc, after.sp])?;
    put(rt, &after.saved)
}
