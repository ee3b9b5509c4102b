// Opcode words of x86_64 in numbers: the one decoder, of which the enum, the rules and what C has are views.
ghost use Rattle.std.specs.Prelude.{◌≡◌, ◌/◌, replicate};
ghost use Rattle.opcodes.specs.Bits.{kind_of};
ghost use Rattle.opcodes.specs.WordsX86.{parse_of, numbers, numbers_of};

use crate::bitfield::OpcodeBitfield;
use crate::consts::{OPCODE_KIND_X86_DWARF, OPCODE_KIND_X86_FRAMEBASED};
use crate::pick::pick;
use crate::x86_64::RegisterNameX86_64;
use permutation::decode_permutation_6;

// answer is 0 null, 1 frame-based, 2 frameless immediate, 3 frameless indirect, 4 DWARF, 5 invalid frameless, 6 unrecognised kind.
// value goes by the answer: for 1 the offset in bytes, for 2 the size in bytes, for 3 the immediate's place, for 4 the 24 bits, for 6 the
// kind. fields are a frame-based word's, saved_regs a frameless one's. What a case doesn't have is 0.
#[derive(Clone, Copy, Debug, PartialEq, Eq)]
pub struct WordX86_64 {
    pub value: u32,
    pub answer: u8,
    pub stack_adjust_in_bytes: u8,
    pub fields: u16,
    pub saved_regs: [u8; 6],
}

impl WordX86_64 {
    pub fn parse(opcode: u32) -> WordX86_64
        ensures { result ≡ numbers_of (parse_of opcode) }
    {
        let kind = OpcodeBitfield::new(opcode).kind();
        // Kinds 2 and 3 list a permutation.
        if kind / 2 == 1 {
            return frameless(opcode);
        }
        if OPCODE_KIND_X86_DWARF < kind {
            return alone(6, u32::from(kind), 0);
        }
        // For speed nothing jumps by the others: their values are picked.
        let based = kind == OPCODE_KIND_X86_FRAMEBASED;
        let low = pick(kind == OPCODE_KIND_X86_DWARF, opcode % 0x100_0000, 0);
        alone(
            kind,
            pick(based, 8 * (opcode / 0x1_0000 % 256), low),
            pick(based, opcode % 0x8000, 0) as u16,
        )
    }
}

// A case that lists no permutation.
fn alone(answer: u8, value: u32, fields: u16) -> WordX86_64
    ensures { result ≡ numbers answer value 0 fields (replicate 6 0) }
{
    WordX86_64 {
        value,
        answer,
        stack_adjust_in_bytes: 0,
        fields,
        saved_regs: [0u8; RegisterNameX86_64::COUNT],
    }
}

// A word of kind 2 or 3. (For speed bit 24 tells which: the kind isn't kept during the call.)
fn frameless(opcode: u32) -> WordX86_64
    requires { kind_of opcode / 2 ≡ 1 }
    ensures { result ≡ numbers_of (parse_of opcode) }
{
    let Ok(saved_regs) = decode_permutation_6(opcode / 1024 % 8, opcode % 1024) else {
        return alone(5, 0, 0);
    };
    let byte = opcode / 0x1_0000 % 256;
    if opcode / 0x100_0000 % 2 == 0 {
        return WordX86_64 {
            value: 8 * byte,
            answer: 2,
            stack_adjust_in_bytes: 0,
            fields: 0,
            saved_regs,
        };
    }
    WordX86_64 {
        value: byte,
        answer: 3,
        stack_adjust_in_bytes: (8 * (opcode / 0x2000 % 8)) as u8,
        fields: 0,
        saved_regs,
    }
}
