// For C: an address looked up in a section and one frame undone, in one call.
ghost use Rattle.std.specs.Prelude.{◌≡◌};
ghost use Rattle.step.specs.StepsX86 as steps_x86;
ghost use Rattle.step.specs.StepsArm64 as steps_arm64;
ghost use Rattle.macho_unwind_info.specs.UnwindX86 as unwind_x86;
ghost use Rattle.macho_unwind_info.specs.UnwindArm64 as unwind_arm64;
ghost use Rattle.brasspurse.specs.Unwinds.{unwind_x86_answer, unwind_arm64_answer};

use brasspurse::unwind::{UnwindArm64Answer, UnwindX86_64Answer};
use step::arm64::RegistersArm64;
use step::x86_64::RegistersX86_64;

#[unsafe(no_mangle)]
pub extern "C" fn brasspurse_unwind_x86_64(
    section: &[u8],
    address: u32,
    registers: RegistersX86_64,
    base: u64,
    window: &[u8],
) -> UnwindX86_64Answer
    ensures { result ≡ unwind_x86_answer (unwind_x86.unwind_of section.now address base window.now (steps_x86.regs_told registers)) }
{
    brasspurse::unwind::brasspurse_unwind_x86_64(section, address, registers, base, window)
}

#[unsafe(no_mangle)]
pub extern "C" fn brasspurse_unwind_arm64(
    section: &[u8],
    address: u32,
    registers: RegistersArm64,
    base: u64,
    window: &[u8],
) -> UnwindArm64Answer
    ensures { result ≡ unwind_arm64_answer (unwind_arm64.unwind_of section.now address base window.now (steps_arm64.regs_told registers)) }
{
    brasspurse::unwind::brasspurse_unwind_arm64(section, address, registers, base, window)
}
