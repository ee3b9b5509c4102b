// Opcode words.
ghost use Rattle.std.specs.Prelude.{◌≡◌};
ghost use Rattle.opcodes.specs.Bits.{kind_of, specific_of};
ghost use Rattle.opcodes.specs.Registers.{named_of, told};
ghost use Rattle.opcodes.specs.WordsX86 as x86;
ghost use Rattle.opcodes.specs.WordsArm64 as arm;
ghost use Rattle.brasspurse.specs.Flat.{register_answer, states_from, x86_answer};

use opcodes::bitfield::OpcodeBitfield;
use opcodes::words_arm64::WordArm64;
use opcodes::words_x86_64::WordX86_64;
use opcodes::x86_64::{Named, RegisterNameX86_64};

// state is 0 absent, 1 a register, 2 unknown.
#[repr(C)]
#[derive(Clone, Copy, Debug, Default, PartialEq, Eq)]
pub struct RegisterAnswer {
    pub state: u32,
    pub number: u32,
    pub dwarf_number: u32,
}

// As the word has it in numbers; field k and its state, as in a RegisterAnswer, are bits 3k to 3k + 2.
#[repr(C)]
#[derive(Clone, Copy, Debug, Default, PartialEq, Eq)]
pub struct OpcodeX86_64Answer {
    pub value: u32,
    pub answer: u8,
    pub stack_adjust_in_bytes: u8,
    pub fields: u16,
    pub field_states: u16,
    pub popped_regs: [u8; 6],
}

pub fn brasspurse_opcode_kind(word: u32) -> u8
    ensures { result ≡ kind_of word }
{
    OpcodeBitfield::new(word).kind()
}

pub fn brasspurse_opcode_specific_bits(word: u32) -> u32
    ensures { result ≡ specific_of word }
{
    OpcodeBitfield::new(word).specific_bits()
}

impl From<Named> for RegisterAnswer {
    ghost from_gives = { λ named answer. answer ≡ register_answer (told named) };

    fn from(named: Named) -> RegisterAnswer {
        match named {
            Named::Absent => RegisterAnswer::default(),
            Named::Register(name) => RegisterAnswer {
                state: 1,
                number: u32::from(name.number()),
                dwarf_number: u32::from(name.dwarf_number()),
            },
            Named::Unknown(number) => RegisterAnswer {
                state: 2,
                number: u32::from(number),
                dwarf_number: 0,
            },
        }
    }
}

pub fn brasspurse_register_x86_64(n: u8) -> RegisterAnswer
    ensures { result ≡ register_answer (named_of n) }
{
    RegisterNameX86_64::parse(n).into()
}

impl From<WordX86_64> for OpcodeX86_64Answer {
    ghost from_gives = { λ word answer. answer ≡ x86_answer word };

    fn from(word: WordX86_64) -> OpcodeX86_64Answer {
        let popped_regs = word.saved_regs;
        OpcodeX86_64Answer {
            value: word.value,
            answer: word.answer,
            stack_adjust_in_bytes: word.stack_adjust_in_bytes,
            fields: word.fields,
            field_states: states(word.fields),
            popped_regs,
        }
    }
}

pub fn brasspurse_parse_x86_64(word: u32) -> OpcodeX86_64Answer
    ensures { result ≡ x86_answer (x86.numbers_of (x86.parse_of word)) }
{
    WordX86_64::parse(word).into()
}

// One for a field that isn't 0, and one more where it is 7. (For speed all five at once: with `RegisterNameX86_64::parse` for each a frame-based
// word took 30 % longer.)
fn states(fields: u16) -> u16
    ensures { result ≡ states_from 5 fields }
{
    let some = (fields | fields / 2 | fields / 4) & 0o11111;
    let all = fields & fields / 2 & fields / 4 & 0o11111;
    some + all
}

pub fn brasspurse_parse_arm64(word: u32) -> WordArm64
    ensures { result ≡ arm.in_numbers (arm.parse_of word) }
{
    WordArm64::parse(word)
}
