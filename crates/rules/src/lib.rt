// What an opcode word says of its frame: where CFA is counted from, and how far below it each listed register lies; or a refusal.
#![tactic(auto)]

pub mod arm64;
pub mod x86_64;

ghost use Rattle.std.specs.Prelude.{◌≡◌};
ghost use Rattle.rules.specs.Answers.{refusal_of, outcome_of, saved_at, slot_told};

pub use crate::arm64::RuleArm64;
pub use crate::x86_64::RuleX86_64;

// Why there is no rule for a word, or no step by it.
#[derive(Clone, Copy, Debug, PartialEq, Eq)]
pub enum Refusal {
    Null,
    Dwarf { eh_frame_fde: u32 },
    UnrecognizedKind(u8),
    InvalidFrameless,
    // The word is a frame's, and no prologue could have left that frame.
    NotSound,
    // The frame's size stands in the function's code.
    FramelessIndirect,
    // The window's end, or CFA, does not fit into a register.
    AboveAddresses,
    OutsideWindow,
}

// The register that CFA is counted from.
#[derive(Clone, Copy, Debug, PartialEq, Eq)]
pub enum CfaRegister {
    StackPointer,
    FramePointer,
}

// A machine's rule, over its N preserved registers: below has the distance below CFA of each saved one's slot, 0 for a register that isn't
// listed.
#[derive(Clone, Copy, Debug, PartialEq, Eq)]
pub struct Rule<const N: usize> {
    pub cfa_register: CfaRegister,
    pub cfa_distance: u64,
    pub below: [u16; N],
}

// How far below CFA the slot of the register at a place starts, by the distances of a rule, if it has one.
pub fn slot(below: &[u16], place: usize) -> Option<u16>
    ensures { slot_told result ≡ saved_at below.now place }
{
    below.get(place).copied().filter(|distance| *distance != 0)
}

impl Refusal {
    // The refusal's number: docs/FORMAT.md, 11.
    pub fn number(self) -> u8
        ensures { result ≡ (refusal_of self).number }
    {
        match self {
            Refusal::Null => 20,
            Refusal::Dwarf { .. } => 21,
            Refusal::UnrecognizedKind(_) => 22,
            Refusal::InvalidFrameless => 23,
            Refusal::NotSound => 24,
            Refusal::FramelessIndirect => 25,
            Refusal::AboveAddresses => 26,
            Refusal::OutsideWindow => 27,
        }
    }

    // What the refusal carries: DWARF's 24 bits, or the kind; otherwise 0.
    pub fn value(self) -> u32
        ensures { result ≡ (refusal_of self).value }
    {
        match self {
            Refusal::Dwarf { eh_frame_fde } => eh_frame_fde,
            Refusal::UnrecognizedKind(kind) => u32::from(kind),
            _ => 0,
        }
    }
}

// The refusal's number, 0 where there is an answer.
pub fn number_of<T>(answer: &Result<T, Refusal>) -> u8
    ensures { result ≡ (outcome_of answer.now).number }
{
    match answer {
        Ok(_) => 0,
        Err(refusal) => refusal.number(),
    }
}

// What the refusal carries, 0 where there is an answer.
pub fn value_of<T>(answer: &Result<T, Refusal>) -> u32
    ensures { result ≡ (outcome_of answer.now).value }
{
    match answer {
        Ok(_) => 0,
        Err(refusal) => refusal.value(),
    }
}
