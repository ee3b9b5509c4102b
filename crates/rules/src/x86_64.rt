// Rules of x86_64.
ghost use Rattle.std.specs.Prelude.{◌≡◌, ◌≤◌, length};
ghost use Rattle.opcodes.specs.Registers.{fields_in};
ghost use Rattle.frame.specs.Frame.{distances_of};
ghost use Rattle.frame.specs.Pushes as push;
ghost use Rattle.rules.specs.RulesX86.{rule_of, based, frameless, rule_told};

use crate::{CfaRegister, Refusal, Rule};
use opcodes::x86_64::{Named, OpcodeX86_64, field};

// below: rbx, r12, r13, r14, r15, rbp. The return address lies at CFA - 8.
pub type RuleX86_64 = Rule<6>;

impl RuleX86_64 {
    #[tactic(auto, unfolding(crate::specs::RulesX86::rule_of))]
    pub fn parse(opcode: u32) -> Result<RuleX86_64, Refusal>
        ensures { rule_told result ≡ rule_of opcode }
    {
        match OpcodeX86_64::parse(opcode) {
            OpcodeX86_64::Null => Err(Refusal::Null),
            OpcodeX86_64::FrameBased {
                stack_offset_in_bytes,
                fields,
            } => frame_based(stack_offset_in_bytes, fields),
            OpcodeX86_64::FramelessImmediate {
                stack_size_in_bytes,
                saved_regs,
            } => frameless(
                stack_size_in_bytes,
                &saved_regs[..(opcode / 1024 % 8) as usize],
            ),
            OpcodeX86_64::FramelessIndirect { .. } => Err(Refusal::FramelessIndirect),
            OpcodeX86_64::Dwarf { eh_frame_fde } => Err(Refusal::Dwarf { eh_frame_fde }),
            OpcodeX86_64::InvalidFrameless => Err(Refusal::InvalidFrameless),
            OpcodeX86_64::UnrecognizedKind(kind) => Err(Refusal::UnrecognizedKind(kind)),
        }
    }
}

// Field k, if it names a register, says that it is stored 8k above the lowest slot.
fn frame_based(offset: u16, fields: u16) -> Result<RuleX86_64, Refusal>
    requires { offset ≤ 2040 }
    ensures { rule_told result ≡ based offset (fields_in fields) }
{
    let mut below = [0u16, 0, 0, 0, 0, 16];
    for k in 0..5 {
        let f = match field(fields, k) {
            Named::Absent => continue,
            Named::Register(name) => usize::from(name.number()),
            Named::Unknown(_) => return Err(Refusal::NotSound),
        };
        let high = 8 * k as u16;
        if 5 < f || offset <= high || below[f - 1] != 0 {
            return Err(Refusal::NotSound);
        }
        below[f - 1] = 16 + offset - high;
    }
    Ok(Rule {
        cfa_register: CfaRegister::FramePointer,
        cfa_distance: 16,
        below,
    })
}

// The registers pushed: the size has room for them and the return address.
fn frameless(size: u16, registers: &[u8]) -> Result<RuleX86_64, Refusal>
    requires { (length registers.now ≤ 6) × push.Named 6 registers.now }
    ensures { rule_told result ≡ frameless size registers.now }
{
    if usize::from(size) < 8 + 8 * registers.len() {
        return Err(Refusal::NotSound);
    }
    Ok(Rule {
        cfa_register: CfaRegister::StackPointer,
        cfa_distance: u64::from(size),
        below: pushes(registers),
    })
}

// The last of the list is pushed first, next to the return address.
fn pushes(registers: &[u8]) -> [u16; 6]
    requires { (length registers.now ≤ 6) × push.Named 6 registers.now }
    ensures { result ≡ distances_of 6 (push.pushed 8 registers.now) }
{
    let mut below = [0u16; 6];
    for (i, x) in registers.iter().enumerate() {
        below[usize::from(*x) - 1] = 8 + 8 * (registers.len() - i) as u16;
    }
    below
}
