// For C: opcode words.
ghost use Rattle.std.specs.Prelude.{◌≡◌};
ghost use Rattle.opcodes.specs.Bits.{kind_of, specific_of};
ghost use Rattle.opcodes.specs.Registers.{named_of};
ghost use Rattle.opcodes.specs.WordsX86 as x86;
ghost use Rattle.opcodes.specs.WordsArm64 as arm;
ghost use Rattle.brasspurse.specs.Flat.{register_answer, x86_answer};

use brasspurse::words::{OpcodeX86_64Answer, RegisterAnswer};
use opcodes::words_arm64::WordArm64;

#[unsafe(no_mangle)]
pub extern "C" fn brasspurse_opcode_kind(word: u32) -> u8
    ensures { result ≡ kind_of word }
{
    brasspurse::words::brasspurse_opcode_kind(word)
}

#[unsafe(no_mangle)]
pub extern "C" fn brasspurse_opcode_specific_bits(word: u32) -> u32
    ensures { result ≡ specific_of word }
{
    brasspurse::words::brasspurse_opcode_specific_bits(word)
}

#[unsafe(no_mangle)]
pub extern "C" fn brasspurse_register_x86_64(n: u8) -> RegisterAnswer
    ensures { result ≡ register_answer (named_of n) }
{
    brasspurse::words::brasspurse_register_x86_64(n)
}

#[unsafe(no_mangle)]
pub extern "C" fn brasspurse_parse_x86_64(word: u32) -> OpcodeX86_64Answer
    ensures { result ≡ x86_answer (x86.numbers_of (x86.parse_of word)) }
{
    brasspurse::words::brasspurse_parse_x86_64(word)
}

#[unsafe(no_mangle)]
pub extern "C" fn brasspurse_parse_arm64(word: u32) -> WordArm64
    ensures { result ≡ arm.in_numbers (arm.parse_of word) }
{
    brasspurse::words::brasspurse_parse_arm64(word)
}
