// An address looked up in a section and one frame undone, in one call.
ghost use Rattle.std.specs.Prelude.{◌≡◌};
ghost use Rattle.step.specs.StepsX86 as steps_x86;
ghost use Rattle.step.specs.StepsArm64 as steps_arm64;
ghost use Rattle.macho_unwind_info.specs.UnwindX86 as unwind_x86;
ghost use Rattle.macho_unwind_info.specs.UnwindArm64 as unwind_arm64;
ghost use Rattle.brasspurse.specs.Unwinds.{unwind_x86_answer, unwind_arm64_answer};

use step::arm64::RegistersArm64;
use step::x86_64::RegistersX86_64;

// refusal is 0, or the lookup's 1 to 15, or the step's 20 to 27, 20 also where no function is found; then the registers are as they were.
// value is DWARF's 24 bits for 21, the kind for 22, else 0. probes: the entries that the lookup probed.
#[repr(C)]
#[derive(Clone, Copy, Debug, PartialEq, Eq)]
pub struct UnwindX86_64Answer {
    pub refusal: u32,
    pub value: u32,
    pub probes: u32,
    pub registers: RegistersX86_64,
}

#[repr(C)]
#[derive(Clone, Copy, Debug, PartialEq, Eq)]
pub struct UnwindArm64Answer {
    pub refusal: u32,
    pub value: u32,
    pub probes: u32,
    pub registers: RegistersArm64,
}

#[tactic(auto, unfolding(macho_unwind_info::specs::UnwindX86::unwind_of))]
pub fn brasspurse_unwind_x86_64(
    section: &[u8],
    address: u32,
    registers: RegistersX86_64,
    base: u64,
    window: &[u8],
) -> UnwindX86_64Answer
    ensures { result ≡ unwind_x86_answer (unwind_x86.unwind_of section.now address base window.now (steps_x86.regs_told registers)) }
{
    let mut after = registers;
    let unwound = macho_unwind_info::unwind(section, address, &mut after, base, window);
    UnwindX86_64Answer {
        refusal: u32::from(unwound.number()),
        value: unwound.value(),
        probes: unwound.probes,
        registers: after,
    }
}

#[tactic(auto, unfolding(macho_unwind_info::specs::UnwindArm64::unwind_of))]
pub fn brasspurse_unwind_arm64(
    section: &[u8],
    address: u32,
    registers: RegistersArm64,
    base: u64,
    window: &[u8],
) -> UnwindArm64Answer
    ensures { result ≡ unwind_arm64_answer (unwind_arm64.unwind_of section.now address base window.now (steps_arm64.regs_told registers)) }
{
    let mut after = registers;
    let unwound = macho_unwind_info::unwind(section, address, &mut after, base, window);
    UnwindArm64Answer {
        refusal: u32::from(unwound.number()),
        value: unwound.value(),
        probes: unwound.probes,
        registers: after,
    }
}
