// One frame undone: from an opcode word, the registers and a stack window to the caller's registers, or a refusal.
#![tactic(auto)]

pub mod arm64;
mod window;
pub mod x86_64;

ghost use Rattle.std.specs.Prelude.{◌≡◌, ℕ, List};
ghost use Rattle.frame.specs.Frame.{Regs};
ghost use Rattle.step.specs.Steps.{Told, step_told};

pub use crate::arm64::RegistersArm64;
pub use crate::x86_64::RegistersX86_64;
use rules::Refusal;

// A machine's registers. A step leaves the caller's, and where it is refused the registers as they were.
pub trait Registers: Copy {
    // What the fields are called in the definitions.
    ghost told: { Self → Regs };

    ghost step_of: { ℕ → ℕ → List ℕ → Regs → Told };

    fn step(&mut self, opcode: u32, base: u64, window: &[u8]) -> Result<(), Refusal>
        ensures { step_told result (told self.new) ≡ step_of opcode base window.now (told self.old) };

    ghost unchanged: { (w base : ℕ) (mem : List ℕ) (r : Regs) → ((step_of w base mem r).refusal.number ≡ 0 → ⊥) → (step_of w base mem r).regs ≡ r };
}
