// What the replays share: numbers of a record, whether an answer is the recorded one, how many are not, and what a replay writes. What is missing
// of a record is 0.
#![tactic(auto)]

ghost use Rattle.std.specs.Prelude.{ℕ, ◌≡◌, ◌<◌, ◌*◌, ◌==◌, length, map, refl};
ghost use Rattle.std.proofs.Common.{rules};
ghost use Rattle.reader.specs.Reader.{word_at};
ghost use Rattle.records.specs.Records.{numbers_of, same_of, counted_of};

use reader::Number;

mod records;
mod text;

pub use records::{Framing, Headed, Records};
pub use text::{put, show, show_all, show_count};

// A number of which many stand in a record, one after the other.
pub trait Recorded: Number + PartialEq {
    // How many bytes each takes.
    const BYTES: usize;

    ghost BYTES: { ℕ };

    ghost has_bytes: { (BYTES ≡ Self.bytes) × (0 < Self.bytes) };

    // Two are equal where they are one number.
    ghost equal: { (x : Self) (y : Self) → Self.eq x y ≡ (Self.value x == Self.value y) };
}

impl Recorded for u32 {
    const BYTES: usize = 4;

    ghost BYTES = { 4 };

    ghost has_bytes = { (refl, Prim.search rules) };

    ghost equal = { λ x y. refl };
}

impl Recorded for u64 {
    const BYTES: usize = 8;

    ghost BYTES = { 8 };

    ghost has_bytes = { (refl, Prim.search rules) };

    ghost equal = { λ x y. refl };
}

// The kth number of those that stand from the front on.
pub fn nth<N: Recorded>(numbers: &[u8], k: usize) -> N
    ensures { N.value result ≡ word_at N.bytes numbers.now (N.bytes * k) }
{
    reader::read_or_0(numbers, N::BYTES.saturating_mul(k))
}

// As many numbers as there is room for.
#[tactic(auto, using(crate::proofs::Turns::one_read), unfolding(crate::specs::Records::numbers_of))]
pub fn load(numbers: &[u8], into: &mut [u64])
    ensures { into.new ≡ numbers_of (length into.old) numbers.now }
{
    for (k, x) in into.iter_mut().enumerate() {
        *x = nth(numbers, k);
    }
}

// The first N numbers.
pub fn array<const N: usize>(numbers: &[u8]) -> [u64; N]
    ensures { result ≡ numbers_of N numbers.now }
{
    let mut first = [0; N];
    load(numbers, &mut first);
    first
}

// Whether the numbers of an answer are the recorded ones.
pub fn is_recorded<N: Recorded>(ours: &[N], numbers: &[u8]) -> bool
    ensures { result ≡ same_of N.bytes (map N.value ours.now) numbers.now (length ours.now) }
{
    ours.iter().enumerate().all(|(k, x)| *x == nth(numbers, k))
}

// How many answers were compared, and how many of them were not the recorded ones.
#[derive(Clone, Copy, Default)]
pub struct Tally {
    pub compared: u64,
    pub differed: u64,
}

impl Tally {
    // One answer more, which is the recorded one or differs.
    pub fn count(self, same: bool) -> Tally
        ensures { result ≡ counted_of self same }
    {
        Tally {
            compared: self.compared.wrapping_add(1),
            differed: self.differed.wrapping_add(u64::from(!same)),
        }
    }
}
