// One frame: the rule of a word, and a step by it.
ghost use Rattle.std.specs.Prelude.{◌≡◌};
ghost use Rattle.rules.specs.RulesX86 as rules_x86;
ghost use Rattle.rules.specs.RulesArm64 as rules_arm64;
ghost use Rattle.step.specs.StepsX86 as steps_x86;
ghost use Rattle.step.specs.StepsArm64 as steps_arm64;
ghost use Rattle.brasspurse.specs.Frames.{register_number, rule_x86_answer, rule_arm64_answer, step_x86_answer, step_arm64_answer};

use rules::{CfaRegister, Refusal, RuleArm64, RuleX86_64};
use step::Registers;
use step::arm64::RegistersArm64;
use step::x86_64::RegistersX86_64;

// refusal is 0, or 20 to 25 with value DWARF's 24 bits for 21, the kind for 22, and every other number 0. cfa_register is 0 for rsp, 1 for rbp.
#[repr(C)]
#[derive(Clone, Copy, Debug, Default, PartialEq, Eq)]
pub struct RuleX86_64Answer {
    pub refusal: u32,
    pub value: u32,
    pub cfa_distance: u64,
    pub cfa_register: u32,
    pub below: [u16; 6],
}

// The same with 20 to 22 alone; cfa_register is 0 for sp, 1 for x29.
#[repr(C)]
#[derive(Clone, Copy, Debug, PartialEq, Eq)]
pub struct RuleArm64Answer {
    pub refusal: u32,
    pub value: u32,
    pub cfa_distance: u64,
    pub cfa_register: u32,
    pub below: [u16; 20],
}

// refusal is 0, or 20 to 27 with the registers as they were, on arm64 without 23 to 25; value as in a rule.
#[repr(C)]
#[derive(Clone, Copy, Debug, PartialEq, Eq)]
pub struct StepX86_64Answer {
    pub refusal: u32,
    pub value: u32,
    pub registers: RegistersX86_64,
}

#[repr(C)]
#[derive(Clone, Copy, Debug, PartialEq, Eq)]
pub struct StepArm64Answer {
    pub refusal: u32,
    pub value: u32,
    pub registers: RegistersArm64,
}

fn register_number(register: CfaRegister) -> u32
    ensures { result ≡ register_number register }
{
    register as u32
}

impl From<Result<RuleX86_64, Refusal>> for RuleX86_64Answer {
    ghost from_gives = { λ rule answer. answer ≡ rule_x86_answer (rules_x86.rule_told rule) };

    fn from(rule: Result<RuleX86_64, Refusal>) -> RuleX86_64Answer {
        match rule {
            Ok(rule) => {
                let below = rule.below;
                RuleX86_64Answer {
                    refusal: 0,
                    value: 0,
                    cfa_distance: rule.cfa_distance,
                    cfa_register: register_number(rule.cfa_register),
                    below,
                }
            }
            Err(refusal) => RuleX86_64Answer {
                refusal: u32::from(refusal.number()),
                value: refusal.value(),
                ..RuleX86_64Answer::default()
            },
        }
    }
}

impl From<Result<RuleArm64, Refusal>> for RuleArm64Answer {
    ghost from_gives = { λ rule answer. answer ≡ rule_arm64_answer (rules_arm64.rule_told rule) };

    fn from(rule: Result<RuleArm64, Refusal>) -> RuleArm64Answer {
        match rule {
            Ok(rule) => {
                let below = rule.below;
                RuleArm64Answer {
                    refusal: 0,
                    value: 0,
                    cfa_distance: rule.cfa_distance,
                    cfa_register: register_number(rule.cfa_register),
                    below,
                }
            }
            // Each number in place: of a default array of 20 the check does not find that all are 0.
            Err(refusal) => RuleArm64Answer {
                refusal: u32::from(refusal.number()),
                value: refusal.value(),
                cfa_distance: 0,
                cfa_register: 0,
                below: [0; 20],
            },
        }
    }
}

pub fn brasspurse_rule_x86_64(opcode: u32) -> RuleX86_64Answer
    ensures { result ≡ rule_x86_answer (rules_x86.rule_of opcode) }
{
    RuleX86_64::parse(opcode).into()
}

pub fn brasspurse_rule_arm64(opcode: u32) -> RuleArm64Answer
    ensures { result ≡ rule_arm64_answer (rules_arm64.rule_of opcode) }
{
    RuleArm64::parse(opcode).into()
}

pub fn brasspurse_step_x86_64(
    opcode: u32,
    registers: RegistersX86_64,
    base: u64,
    window: &[u8],
) -> StepX86_64Answer
    ensures { result ≡ step_x86_answer (steps_x86.step_of opcode base window.now (steps_x86.regs_told registers)) }
{
    let mut after = registers;
    let stepped = after.step(opcode, base, window);
    StepX86_64Answer {
        refusal: u32::from(rules::number_of(&stepped)),
        value: rules::value_of(&stepped),
        registers: after,
    }
}

pub fn brasspurse_step_arm64(
    opcode: u32,
    registers: RegistersArm64,
    base: u64,
    window: &[u8],
) -> StepArm64Answer
    ensures { result ≡ step_arm64_answer (steps_arm64.step_of opcode base window.now (steps_arm64.regs_told registers)) }
{
    let mut after = registers;
    let stepped = after.step(opcode, base, window);
    StepArm64Answer {
        refusal: u32::from(rules::number_of(&stepped)),
        value: rules::value_of(&stepped),
        registers: after,
    }
}
