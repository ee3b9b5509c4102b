// For C: one frame: the rule of a word, and a step by it.
ghost use Rattle.std.specs.Prelude.{◌≡◌};
ghost use Rattle.rules.specs.RulesX86 as rules_x86;
ghost use Rattle.rules.specs.RulesArm64 as rules_arm64;
ghost use Rattle.step.specs.StepsX86 as steps_x86;
ghost use Rattle.step.specs.StepsArm64 as steps_arm64;
ghost use Rattle.brasspurse.specs.Frames.{rule_x86_answer, rule_arm64_answer, step_x86_answer, step_arm64_answer};

use brasspurse::frames::{RuleArm64Answer, RuleX86_64Answer, StepArm64Answer, StepX86_64Answer};
use step::arm64::RegistersArm64;
use step::x86_64::RegistersX86_64;

#[unsafe(no_mangle)]
pub extern "C" fn brasspurse_rule_x86_64(opcode: u32) -> RuleX86_64Answer
    ensures { result ≡ rule_x86_answer (rules_x86.rule_of opcode) }
{
    brasspurse::frames::brasspurse_rule_x86_64(opcode)
}

#[unsafe(no_mangle)]
pub extern "C" fn brasspurse_rule_arm64(opcode: u32) -> RuleArm64Answer
    ensures { result ≡ rule_arm64_answer (rules_arm64.rule_of opcode) }
{
    brasspurse::frames::brasspurse_rule_arm64(opcode)
}

#[unsafe(no_mangle)]
pub extern "C" fn brasspurse_step_x86_64(
    opcode: u32,
    registers: RegistersX86_64,
    base: u64,
    window: &[u8],
) -> StepX86_64Answer
    ensures { result ≡ step_x86_answer (steps_x86.step_of opcode base window.now (steps_x86.regs_told registers)) }
{
    brasspurse::frames::brasspurse_step_x86_64(opcode, registers, base, window)
}

#[unsafe(no_mangle)]
pub extern "C" fn brasspurse_step_arm64(
    opcode: u32,
    registers: RegistersArm64,
    base: u64,
    window: &[u8],
) -> StepArm64Answer
    ensures { result ≡ step_arm64_answer (steps_arm64.step_of opcode base window.now (steps_arm64.regs_told registers)) }
{
    brasspurse::frames::brasspurse_step_arm64(opcode, registers, base, window)
}
