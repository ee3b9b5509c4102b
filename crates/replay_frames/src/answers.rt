// The step that a record asks for, and whether the answer recorded is ours.
ghost use Rattle.std.specs.Prelude.{◌≤◌};

use brasspurse::frames::{brasspurse_step_arm64, brasspurse_step_x86_64};
use reader::{part, read_or_0};
use records::{array, is_recorded, nth};
use step::arm64::RegistersArm64;
use step::x86_64::RegistersX86_64;

#[derive(Clone, Copy, Debug, PartialEq, Eq)]
pub enum Machine {
    X86_64 = 1,
    Arm64 = 2,
}

impl Machine {
    // The machine whose records, or whose controls, have the tag.
    pub fn of(tag: u64) -> Option<Machine> {
        [Machine::X86_64, Machine::Arm64]
            .into_iter()
            .find(|machine| machine.has(tag))
    }

    fn has(self, tag: u64) -> bool {
        tag == self.tag(false) || tag == self.tag(true)
    }

    // A control has its machine's tag and 100 more.
    pub fn tag(self, control: bool) -> u64 {
        self as u64 + if control { 100 } else { 0 }
    }

    // Where the window stands in a record.
    pub fn window(self) -> usize
        ensures { result ≤ 400 }
    {
        match self {
            Machine::X86_64 => 176,
            Machine::Arm64 => 400,
        }
    }
}

pub fn is_ours(machine: Machine, record: &[u8]) -> bool {
    let word = read_or_0(record, 8);
    let base = nth(record, 2);
    let n: u32 = read_or_0(record, 24);
    let window = part(record, machine.window(), n as usize);
    match machine {
        Machine::X86_64 => is_x86_64(word, base, window, record),
        Machine::Arm64 => is_arm64(word, base, window, record),
    }
}

fn is_x86_64(word: u32, base: u64, window: &[u8], record: &[u8]) -> bool {
    let given = RegistersX86_64 {
        rip: nth(record, 4),
        rsp: nth(record, 5),
        saved: array(part(record, 48, 48)),
    };
    let ours = brasspurse_step_x86_64(word, given, base, window);
    let after = ours.registers;
    let first = [
        u64::from(ours.refusal),
        u64::from(ours.value),
        after.rip,
        after.rsp,
    ];
    is_recorded(&first, part(record, 96, 32)) && is_recorded(&after.saved, part(record, 128, 48))
}

fn is_arm64(word: u32, base: u64, window: &[u8], record: &[u8]) -> bool {
    let given = RegistersArm64 {
        pc: nth(record, 4),
        sp: nth(record, 5),
        saved: array(part(record, 48, 160)),
    };
    let ours = brasspurse_step_arm64(word, given, base, window);
    let after = ours.registers;
    let first = [
        u64::from(ours.refusal),
        u64::from(ours.value),
        after.pc,
        after.sp,
    ];
    is_recorded(&first, part(record, 208, 32)) && is_recorded(&after.saved, part(record, 240, 160))
}
