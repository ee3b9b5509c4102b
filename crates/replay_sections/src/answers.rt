// The answer to a question about a section, as ten numbers: the outcome, the refusal, and eight more.
use brasspurse::sections::{
    brasspurse_address_range, brasspurse_is_well_formed, brasspurse_lookup, brasspurse_next,
    brasspurse_parse,
};

#[derive(Clone, Copy, Debug, PartialEq, Eq)]
pub enum Question {
    Lookup = 1,
    Next = 2,
    Parse = 3,
    Range = 4,
    WellFormed = 5,
}

impl Question {
    // Whether the tag is the question's or its controls'.
    pub fn has(self, tag: u32) -> bool {
        tag == self.tag(false) || tag == self.tag(true)
    }

    // A control has its question's tag and 100 more.
    pub fn tag(self, control: bool) -> u32 {
        self as u32 + if control { 100 } else { 0 }
    }
}

pub fn answer(question: Question, section: &[u8], a: u32, b: u32) -> [u32; 10] {
    match question {
        Question::Lookup => lookup(section, a),
        Question::Next => next(section, a, b),
        Question::Parse => parse(section),
        Question::Range => range(section),
        Question::WellFormed => well_formed(section),
    }
}

fn lookup(section: &[u8], address: u32) -> [u32; 10] {
    let f = brasspurse_lookup(section, address);
    [
        u32::from(f.outcome),
        u32::from(f.refusal),
        f.start,
        f.end,
        f.opcode,
        f.page,
        f.index,
        u32::from(f.origin),
        u32::from(f.probes),
        0,
    ]
}

fn next(section: &[u8], page: u32, index: u32) -> [u32; 10] {
    let f = brasspurse_next(section, page, index);
    [
        u32::from(f.outcome),
        u32::from(f.refusal),
        f.start,
        f.end,
        f.opcode,
        f.function_page,
        f.function_index,
        u32::from(f.origin),
        f.page,
        f.index,
    ]
}

fn parse(section: &[u8]) -> [u32; 10] {
    let l = brasspurse_parse(section);
    let pages = [l.pages_offset, l.pages_len];
    granted(
        l.refusal,
        [l.global_opcodes_offset, l.global_opcodes_len],
        pages,
    )
}

fn range(section: &[u8]) -> [u32; 10] {
    let r = brasspurse_address_range(section);
    granted(r.refusal, [r.start, r.end], [0, 0])
}

fn well_formed(section: &[u8]) -> [u32; 10] {
    let well = u32::from(brasspurse_is_well_formed(section));
    [well, 0, 0, 0, 0, 0, 0, 0, 0, 0]
}

// The outcome is 1, or 2 for a refusal.
fn granted(refusal: u32, first: [u32; 2], second: [u32; 2]) -> [u32; 10] {
    let outcome = if refusal == 0 { 1 } else { 2 };
    let [a, b] = first;
    let [c, d] = second;
    [outcome, refusal, a, b, c, d, 0, 0, 0, 0]
}
