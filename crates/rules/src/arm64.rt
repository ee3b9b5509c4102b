// Rules of arm64.
ghost use Rattle.std.specs.Prelude.{◌≡◌, ◌<◌};
ghost use Rattle.frame.specs.Downwards as down;
ghost use Rattle.rules.specs.Answers.{ruling};
ghost use Rattle.rules.specs.RulesArm64.{rule_of, pair_place, listed_from, ruled, rule_told};

use crate::{CfaRegister, Refusal, Rule};
use opcodes::arm64::OpcodeArm64;

// below: x19 to x30, then d8 to d15. The return address is x30, loaded from its slot if it has one.
pub type RuleArm64 = Rule<20>;

impl RuleArm64 {
    #[tactic(auto, unfolding(crate::specs::RulesArm64::rule_of))]
    pub fn parse(opcode: u32) -> Result<RuleArm64, Refusal>
        ensures { rule_told result ≡ rule_of opcode }
    {
        match OpcodeArm64::parse(opcode) {
            OpcodeArm64::Null => Err(Refusal::Null),
            OpcodeArm64::Frameless {
                stack_size_in_bytes,
            } => Ok(frameless(stack_size_in_bytes)),
            OpcodeArm64::Dwarf { eh_frame_fde } => Err(Refusal::Dwarf { eh_frame_fde }),
            OpcodeArm64::FrameBased {
                saved_reg_pair_count: _,
                x19_and_x20_saved,
                x21_and_x22_saved,
                x23_and_x24_saved,
                x25_and_x26_saved,
                x27_and_x28_saved,
                d8_and_d9_saved,
                d10_and_d11_saved,
                d12_and_d13_saved,
                d14_and_d15_saved,
            } => Ok(frame_based([
                x19_and_x20_saved,
                x21_and_x22_saved,
                x23_and_x24_saved,
                x25_and_x26_saved,
                x27_and_x28_saved,
                d8_and_d9_saved,
                d10_and_d11_saved,
                d12_and_d13_saved,
                d14_and_d15_saved,
            ])),
            OpcodeArm64::UnrecognizedKind(kind) => Err(Refusal::UnrecognizedKind(kind)),
        }
    }
}

// Nothing is stored.
fn frameless(size: u16) -> RuleArm64
    ensures { ruled result ≡ ruling 20 (down.frameless 11 size) }
{
    Rule {
        cfa_register: CfaRegister::StackPointer,
        cfa_distance: u64::from(size),
        below: [0; 20],
    }
}

// x29 and x30 lie next to CFA, then the pairs that are saved, each with its lower register first.
fn frame_based(pairs: [bool; 9]) -> RuleArm64
    ensures { ruled result ≡ ruling 20 (down.frame_based 8 10 11 (listed_from 0 pairs)) }
{
    let mut below = [0u16; 20];
    below[10] = 16;
    below[11] = 8;
    let mut next: u16 = 24;
    for (p, saved) in pairs.iter().enumerate() {
        if *saved {
            let lower = pair_place(p);
            below[lower] = next;
            below[lower + 1] = next + 8;
            next += 16;
        }
    }
    Rule {
        cfa_register: CfaRegister::FramePointer,
        cfa_distance: 16,
        below,
    }
}

// Where the lower register of a pair stands; x29 and x30 stand between the x pairs and the d pairs.
fn pair_place(p: usize) -> usize
    requires { p < 9 }
    ensures { (result ≡ pair_place p) × (result < 19) }
{
    if p < 5 { 2 * p } else { 2 * p + 2 }
}
