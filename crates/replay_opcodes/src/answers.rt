// The answer to a question, as five numbers.
use brasspurse::permutations::brasspurse_decode_permutation_6;
use brasspurse::words::{brasspurse_parse_arm64, brasspurse_parse_x86_64};
use reader::read_or_0;

#[derive(Clone, Copy, Debug, PartialEq, Eq)]
pub enum Question {
    Permutation = 1,
    X86_64 = 2,
    Arm64 = 3,
}

impl Question {
    // A control has its question's tag and 100 more.
    pub fn tag(self, control: bool) -> u32 {
        self as u32 + if control { 100 } else { 0 }
    }
}

pub fn answer(question: Question, a: u32, b: u32) -> [u32; 5] {
    match question {
        Question::Permutation => permutation(a, b),
        Question::X86_64 => x86_64(a),
        Question::Arm64 => arm64(a),
    }
}

fn permutation(count: u32, encoding: u32) -> [u32; 5] {
    let p = brasspurse_decode_permutation_6(count, encoding);
    row(p.refusal, 0, 0, p.registers)
}

fn x86_64(opcode: u32) -> [u32; 5] {
    let o = brasspurse_parse_x86_64(opcode);
    let regs = if o.answer == 1 {
        registers(o.fields, o.field_states)
    } else {
        o.popped_regs
    };
    row(
        u32::from(o.answer),
        o.value,
        u32::from(o.stack_adjust_in_bytes),
        regs,
    )
}

// The registers that the five fields name, and a 0. Where one names none the Rust has nothing, be it absent or unknown.
fn registers(mut fields: u16, mut states: u16) -> [u8; 6] {
    let mut regs = [0u8; 6];
    for reg in &mut regs[..5] {
        if states % 8 == 1 {
            *reg = (fields % 8) as u8;
        }
        fields /= 8;
        states /= 8;
    }
    regs
}

// The second number is the pair count of a frame-based word.
fn arm64(opcode: u32) -> [u32; 5] {
    let o = brasspurse_parse_arm64(opcode);
    let second = if o.answer == 3 {
        u32::from(o.saved_reg_pair_count)
    } else {
        o.value
    };
    [u32::from(o.answer), second, u32::from(o.saved_pairs), 0, 0]
}

// Three numbers, and six registers as bytes in two more.
fn row(case: u32, first: u32, second: u32, regs: [u8; 6]) -> [u32; 5] {
    let high: u16 = read_or_0(&regs, 4);
    [case, first, second, read_or_0(&regs, 0), u32::from(high)]
}
