// Steps of x86_64.
ghost use Rattle.std.specs.Prelude.{◌≡◌};

use crate::Registers;
use crate::window::{Window64, choose_anchor};
use rules::{Refusal, Rule, RuleX86_64};

// saved: rbx, r12, r13, r14, r15, rbp.
#[repr(C)]
#[derive(Clone, Copy, Debug, PartialEq, Eq)]
pub struct RegistersX86_64 {
    pub rip: u64,
    pub rsp: u64,
    pub saved: [u64; 6],
}

impl Registers for RegistersX86_64 {
    ghost use Rattle.step.specs.StepsX86.{step_of, regs_told};
    ghost use Rattle.step.specs.Refused.{unchanged-x86-64};

    ghost told = { regs_told };

    ghost step_of = { step_of };

    ghost unchanged = { unchanged-x86-64 };

    fn step(&mut self, opcode: u32, base: u64, window: &[u8]) -> Result<(), Refusal> {
        // For speed the answer is taken apart: else the rule would be copied.
        let Rule {
            cfa_register,
            cfa_distance,
            below,
        } = RuleX86_64::parse(opcode)?;
        let anchor = choose_anchor(cfa_register, self.rsp, self.saved[5]);
        let landed = Window64::new(base, window).step(
            anchor,
            cfa_distance,
            &below,
            &mut self.saved,
        )?;
        self.rip = landed.pc;
        self.rsp = landed.sp;
        Ok(())
    }
}
