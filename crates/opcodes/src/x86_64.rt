// Opcode words of x86_64, and the registers that they list.
ghost use Rattle.std.specs.Prelude.{◌≡◌};
ghost use Rattle.opcodes.specs.Registers.{named_of, number_of, dwarf_of, number_at, field_named, told};
ghost use Rattle.opcodes.specs.WordsX86 as x86;

use crate::words_x86_64::WordX86_64;

// With the registers' own numbers, from 1 on.
#[derive(Clone, Copy, Debug, PartialEq, Eq)]
pub enum RegisterNameX86_64 {
    Rbx = 1,
    R12 = 2,
    R13 = 3,
    R14 = 4,
    R15 = 5,
    Rbp = 6,
}

// What a number in a word names.
#[derive(Clone, Copy, Debug, PartialEq, Eq)]
pub enum Named {
    Absent,
    Register(RegisterNameX86_64),
    Unknown(u8),
}

impl RegisterNameX86_64 {
    // How many registers there are, numbered from 1.
    pub const COUNT: usize = 6;

    pub fn parse(n: u8) -> Named
        ensures { told result ≡ named_of n }
    {
        match n {
            0 => Named::Absent,
            1 => Named::Register(RegisterNameX86_64::Rbx),
            2 => Named::Register(RegisterNameX86_64::R12),
            3 => Named::Register(RegisterNameX86_64::R13),
            4 => Named::Register(RegisterNameX86_64::R14),
            5 => Named::Register(RegisterNameX86_64::R15),
            6 => Named::Register(RegisterNameX86_64::Rbp),
            other => Named::Unknown(other),
        }
    }

    pub fn number(self) -> u8
        ensures { result ≡ number_of self }
    {
        self as u8
    }

    pub fn dwarf_number(self) -> u8
        ensures { result ≡ dwarf_of self }
    {
        match self {
            RegisterNameX86_64::Rbx => 3,
            RegisterNameX86_64::R12 => 12,
            RegisterNameX86_64::R13 => 13,
            RegisterNameX86_64::R14 => 14,
            RegisterNameX86_64::R15 => 15,
            RegisterNameX86_64::Rbp => 6,
        }
    }
}

// The registers that a frameless word lists stand by their numbers: in the order in which they are popped, then zeros.
#[derive(Clone, Copy, Debug, PartialEq, Eq)]
pub enum OpcodeX86_64 {
    Null,
    FrameBased {
        stack_offset_in_bytes: u16,
        // Five fields at the word's own bits; `field` says what each names.
        fields: u16,
    },
    FramelessImmediate {
        stack_size_in_bytes: u16,
        saved_regs: [u8; 6],
    },
    FramelessIndirect {
        // Where the code of the function has the four bytes of its `sub`'s immediate.
        immediate_offset_from_function_start: u8,
        // What to add to them: the return address, and the registers pushed before.
        stack_adjust_in_bytes: u8,
        saved_regs: [u8; 6],
    },
    Dwarf {
        eh_frame_fde: u32,
    },
    InvalidFrameless,
    UnrecognizedKind(u8),
}

impl OpcodeX86_64 {
    pub fn parse(opcode: u32) -> OpcodeX86_64
        ensures { x86.told result ≡ x86.parse_of opcode }
    {
        let word = WordX86_64::parse(opcode);
        let saved_regs = word.saved_regs;
        match word.answer {
            0 => OpcodeX86_64::Null,
            1 => OpcodeX86_64::FrameBased {
                stack_offset_in_bytes: (word.value % 0x1_0000) as u16,
                fields: word.fields,
            },
            2 => OpcodeX86_64::FramelessImmediate {
                stack_size_in_bytes: (word.value % 0x1_0000) as u16,
                saved_regs,
            },
            3 => OpcodeX86_64::FramelessIndirect {
                immediate_offset_from_function_start: (word.value % 256) as u8,
                stack_adjust_in_bytes: word.stack_adjust_in_bytes,
                saved_regs,
            },
            4 => OpcodeX86_64::Dwarf {
                eh_frame_fde: word.value,
            },
            5 => OpcodeX86_64::InvalidFrameless,
            _ => OpcodeX86_64::UnrecognizedKind((word.value % 256) as u8),
        }
    }
}

// What field k of a frame-based word says; there are five.
pub fn field(fields: u16, k: usize) -> Named
    ensures { told result ≡ field_named fields k }
{
    RegisterNameX86_64::parse(number_at(fields, k))
}

fn number_at(fields: u16, k: usize) -> u8
    ensures { result ≡ number_at fields k }
{
    if k < 5 {
        ((fields >> (3 * k)) % 8) as u8
    } else {
        0
    }
}
