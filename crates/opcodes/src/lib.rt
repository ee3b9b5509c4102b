// Opcode words: a kind in bits 24 to 27, and 24 bits whose meaning goes by the machine.
#![tactic(auto)]

pub mod arm64;
pub mod bitfield;
pub mod consts;
mod pick;
pub mod words_arm64;
pub mod words_x86_64;
pub mod x86_64;
