// The permutation field of a frameless word: which registers were pushed, and in what order.
#![tactic(auto)]

ghost use Rattle.std.specs.Prelude.{◌≡◌, suc, ◌≤◌, ◌<◌, length, eqb};
ghost use Rattle.permutation.specs.Permutation.{decode_of, encode_of, told, told_encoded, number_of, member, every};
ghost use Rattle.permutation.specs.Flags.{unused, unset};
ghost use Rattle.permutation.specs.Table.{apart_of, kept_of, places_of};

use table::row;

mod table;

// The weights of the digits, by the count of registers. Bytes, since a constant array is laid out anew where it is used.
pub const WEIGHTS: [[u8; 6]; 7] = [
    [0, 0, 0, 0, 0, 0],
    [1, 0, 0, 0, 0, 0],
    [5, 1, 0, 0, 0, 0],
    [20, 4, 1, 0, 0, 0],
    [60, 12, 3, 1, 0, 0],
    [120, 24, 6, 2, 1, 0],
    [120, 24, 6, 2, 1, 0],
];

// Why a permutation, or the list to encode, is refused.
#[derive(Clone, Copy, Debug, PartialEq, Eq)]
pub enum Error {
    Encoding = 23,
    List = 28,
}

impl Error {
    // The refusal's number.
    pub fn number(self) -> u8
        ensures { result ≡ number_of self }
    {
        self as u8
    }
}

// The registers' numbers, in the order in which they are popped, then zeros.
pub fn decode_permutation_6(count: u32, encoding: u32) -> Result<[u8; 6], Error>
    ensures { told result ≡ decode_of count encoding }
{
    if 6 < count {
        return Err(Error::Encoding);
    }
    let at = (encoding as usize) * apart(count);
    if 720 <= at {
        return Err(Error::Encoding);
    }
    Ok(places(row(at) & kept(count)))
}

// How far apart the rows of neighbouring encodings are. For speed every count has its arm: those left to the last would be told by a jump.
#[tactic(auto, unfolding(crate::specs::Permutation::bounds))]
fn apart(count: u32) -> usize
    requires { count ≤ 6 }
    ensures { result ≡ apart_of count }
{
    match count {
        0 => 0,
        1 => 120,
        2 => 24,
        3 => 6,
        4 => 2,
        5 => 1,
        6 => 1,
        _ => 0,
    }
}

// The places of a row that are registers of the list.
#[tactic(auto, unfolding(crate::specs::Permutation::bounds))]
fn kept(count: u32) -> u64
    requires { count ≤ 6 }
    ensures { result ≡ kept_of count }
{
    match count {
        0 => 0o000000,
        1 => 0o700000,
        2 => 0o770000,
        3 => 0o777000,
        4 => 0o777700,
        5 => 0o777770,
        6 => 0o777777,
        _ => 0,
    }
}

// The last six places of a number, one to a byte.
fn places(x: u64) -> [u8; 6]
    ensures { result ≡ places_of 6 x }
{
    [
        (x / 0o100000 % 8) as u8,
        (x / 0o10000 % 8) as u8,
        (x / 0o1000 % 8) as u8,
        (x / 0o100 % 8) as u8,
        (x / 0o10 % 8) as u8,
        (x % 8) as u8,
    ]
}

pub fn encode_permutation_6(count: u32, registers: [u8; 6]) -> Result<u32, Error>
    ensures { told_encoded result ≡ encode_of count registers }
{
    if 6 < count {
        return Err(Error::List);
    }
    let n = count as usize;
    let row = WEIGHTS[n];
    let mut used = [false; 6];
    let mut sum: u32 = 0;
    let (listed, rest) = registers.split_at(n);
    for (x, weight) in listed.iter().zip(&row) {
        if !is_unused(used, *x) {
            return Err(Error::List);
        }
        let at = place(*x);
        sum += u32::from(*weight) * rank(&used[..at]);
        used[at] = true;
    }
    if are_zeros(rest) {
        Ok(sum)
    } else {
        Err(Error::List)
    }
}

// Whether x names a register that is not used yet.
fn is_unused(used: [bool; 6], x: u8) -> bool
    ensures { result ≡ member x (unused used) }
{
    match x {
        1..=6 => !used[place(x)],
        _ => false,
    }
}

// Where the flag of register x stands.
fn place(x: u8) -> usize
    requires { 0 < x }
    ensures { suc result ≡ x }
{
    usize::from(x - 1)
}

// How many registers are unused.
fn rank(used: &[bool]) -> u32
    requires { length used.now ≤ 6 }
    ensures { (result ≡ unset used.now) × (result ≤ 6) }
{
    used.iter().filter(|flag| !**flag).count() as u32
}

// Whether nothing is listed.
fn are_zeros(registers: &[u8]) -> bool
    ensures { result ≡ every (eqb 0) registers.now }
{
    registers.iter().all(|x| *x == 0)
}
