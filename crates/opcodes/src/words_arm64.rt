// Opcode words of arm64 in numbers: the one decoder, of which the enum, the rules and what C has are views.
ghost use Rattle.std.specs.Prelude.{◌≡◌, cond, ◌*◌, eqb};
ghost use Rattle.opcodes.specs.Bits.{bits, specific_of};
ghost use Rattle.opcodes.specs.WordsArm64.{parse_of, in_numbers};

use crate::bitfield::OpcodeBitfield;
use crate::consts::{
    OPCODE_KIND_ARM64_DWARF, OPCODE_KIND_ARM64_FRAMEBASED, OPCODE_KIND_ARM64_FRAMELESS,
    OPCODE_KIND_NULL,
};
use crate::pick::pick;

// answer is 0 null, 1 frameless, 2 DWARF, 3 frame-based, 4 unrecognised kind. value goes by the answer: for 1 the size in bytes, for 2 the
// 24 bits, for 4 the kind. saved_pairs has the pairs of a frame-based word at the word's own bits: x19/x20 to x27/x28 at 0 to 4, d8/d9 to
// d14/d15 at 8 to 11. What a case doesn't have is 0.
#[repr(C)]
#[derive(Clone, Copy, Debug, PartialEq, Eq)]
pub struct WordArm64 {
    pub value: u32,
    pub answer: u8,
    pub saved_reg_pair_count: u8,
    pub saved_pairs: u16,
}

impl WordArm64 {
    pub fn parse(opcode: u32) -> WordArm64
        ensures { result ≡ in_numbers (parse_of opcode) }
    {
        let kind = OpcodeBitfield::new(opcode).kind();
        if kind == OPCODE_KIND_ARM64_FRAMEBASED {
            let pairs = opcode & 0xf1f;
            return WordArm64 {
                value: 0,
                answer: 3,
                saved_reg_pair_count: pairs.count_ones() as u8,
                saved_pairs: pairs as u16,
            };
        }
        // For speed nothing jumps by the other kinds.
        WordArm64 {
            value: value_of(kind, opcode),
            answer: answer_of(kind),
            saved_reg_pair_count: 0,
            saved_pairs: 0,
        }
    }
}

// The case of a word that isn't frame-based.
fn answer_of(kind: u8) -> u8
    ensures { result ≡ cond (eqb kind 0) 0 (cond (eqb kind 2) 1 (cond (eqb kind 3) 2 4)) }
{
    let other = pick(kind == OPCODE_KIND_ARM64_DWARF, 2, 4);
    let known = pick(kind == OPCODE_KIND_ARM64_FRAMELESS, 1, other);
    pick(kind == OPCODE_KIND_NULL, 0, known) as u8
}

// The value of a word that isn't frame-based.
fn value_of(kind: u8, opcode: u32) -> u32
    ensures { result ≡ cond (eqb kind 2) (16 * bits 12 12 opcode) (cond (eqb kind 3) (specific_of opcode) kind) }
{
    let low = pick(
        kind == OPCODE_KIND_ARM64_DWARF,
        opcode % 0x100_0000,
        u32::from(kind),
    );
    pick(
        kind == OPCODE_KIND_ARM64_FRAMELESS,
        16 * (opcode / 0x1000 % 0x1000),
        low,
    )
}
