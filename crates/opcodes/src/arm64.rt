// Opcode words of arm64.
ghost use Rattle.std.specs.Prelude.{◌≡◌};
ghost use Rattle.opcodes.specs.WordsArm64.{parse_of, told};

use crate::words_arm64::WordArm64;

#[derive(Clone, Copy, Debug, PartialEq, Eq)]
pub enum OpcodeArm64 {
    Null,
    Frameless {
        stack_size_in_bytes: u16,
    },
    Dwarf {
        eh_frame_fde: u32,
    },
    FrameBased {
        saved_reg_pair_count: u8,

        // Whether each register pair was pushed.
        x19_and_x20_saved: bool,
        x21_and_x22_saved: bool,
        x23_and_x24_saved: bool,
        x25_and_x26_saved: bool,
        x27_and_x28_saved: bool,
        d8_and_d9_saved: bool,
        d10_and_d11_saved: bool,
        d12_and_d13_saved: bool,
        d14_and_d15_saved: bool,
    },
    UnrecognizedKind(u8),
}

impl OpcodeArm64 {
    pub fn parse(opcode: u32) -> OpcodeArm64
        ensures { told result ≡ parse_of opcode }
    {
        let word = WordArm64::parse(opcode);
        let pairs = word.saved_pairs;
        match word.answer {
            0 => OpcodeArm64::Null,
            1 => OpcodeArm64::Frameless {
                stack_size_in_bytes: (word.value % 0x1_0000) as u16,
            },
            2 => OpcodeArm64::Dwarf {
                eh_frame_fde: word.value,
            },
            3 => OpcodeArm64::FrameBased {
                saved_reg_pair_count: word.saved_reg_pair_count,
                x19_and_x20_saved: pairs % 2 == 1,
                x21_and_x22_saved: pairs / 2 % 2 == 1,
                x23_and_x24_saved: pairs / 4 % 2 == 1,
                x25_and_x26_saved: pairs / 8 % 2 == 1,
                x27_and_x28_saved: pairs / 0x10 % 2 == 1,
                d8_and_d9_saved: pairs / 0x100 % 2 == 1,
                d10_and_d11_saved: pairs / 0x200 % 2 == 1,
                d12_and_d13_saved: pairs / 0x400 % 2 == 1,
                d14_and_d15_saved: pairs / 0x800 % 2 == 1,
            },
            _ => OpcodeArm64::UnrecognizedKind((word.value % 256) as u8),
        }
    }
}
