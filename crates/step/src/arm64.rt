// Steps of arm64.
ghost use Rattle.std.specs.Prelude.{◌≡◌, ◌+◌, get_or, replicate};
ghost use Rattle.frame.specs.Frame.{slot, holds, step_at};
ghost use Rattle.step.specs.Steps.{valueless, step_told};
ghost use Rattle.step.specs.StepsArm64.{regs_told};

use crate::Registers;
use crate::window::Window64;
use rules::{CfaRegister, Refusal, Rule, RuleArm64};

// saved: x19 to x30, then d8 to d15.
#[repr(C)]
#[derive(Clone, Copy, Debug, PartialEq, Eq)]
pub struct RegistersArm64 {
    pub pc: u64,
    pub sp: u64,
    pub saved: [u64; 20],
}

impl Registers for RegistersArm64 {
    ghost use Rattle.step.specs.StepsArm64.{step_of, regs_told};
    ghost use Rattle.step.specs.Refused.{unchanged-arm64};

    ghost told = { regs_told };

    ghost step_of = { step_of };

    ghost unchanged = { unchanged-arm64 };

    fn step(&mut self, opcode: u32, base: u64, window: &[u8]) -> Result<(), Refusal> {
        // For speed the answer is taken apart: else the rule would be copied.
        let Rule {
            cfa_register,
            cfa_distance,
            below,
        } = RuleArm64::parse(opcode)?;
        let window = Window64::new(base, window);
        match cfa_register {
            CfaRegister::FramePointer => self.by_slots(cfa_distance, &below, window),
            CfaRegister::StackPointer => self.by_link(cfa_distance, window),
        }
    }
}

impl RegistersArm64 {
    // The return address and the listed registers, x29 and x30 among them, are loaded.
    fn by_slots(
        &mut self,
        distance: u64,
        below: &[u16; 20],
        window: Window64,
    ) -> Result<(), Refusal>
        ensures { step_told result (regs_told self.new) ≡ valueless (step_at 8 window.entry.base window.entry.bytes.now (get_or self.old.saved 10 0 + distance) (slot 8) below.now (regs_told self.old)) }
    {
        let frame = self.saved[10];
        let landed = window.step(frame, distance, below, &mut self.saved)?;
        self.pc = landed.pc;
        self.sp = landed.sp;
        Ok(())
    }

    // The return address is in x30, and no slot is read.
    fn by_link(&mut self, distance: u64, window: Window64) -> Result<(), Refusal>
        ensures { step_told result (regs_told self.new) ≡ valueless (step_at 8 window.entry.base window.entry.bytes.now (self.old.sp + distance) (holds 11) (replicate 20 0) (regs_told self.old)) }
    {
        let cfa = window
            .find_cfa(self.sp, distance)
            .ok_or(Refusal::AboveAddresses)?;
        self.pc = self.saved[11];
        self.sp = cfa;
        Ok(())
    }
}
