// Little-endian numbers in a slice of bytes, at any offset and alignment.
#![tactic(auto)]

ghost use Rattle.std.specs.Prelude.{ℕ, ◌≡◌, ◌+◌, ◌≤◌, ◌<◌, length, [], ◌∷◌};
ghost use Rattle.reader.specs.Reader.{number_at, granted_of, read_of, word_at, slice_told, part_in, told};

// Whether n bytes at the offset lie in the slice, also for n = 0. No sum is formed, so none wraps.
pub fn is_granted(s: &[u8], offset: usize, n: usize) -> bool
    ensures { result ≡ granted_of n s.now offset }
{
    if s.len() < n {
        return false;
    }
    if s.len() - n < offset {
        return false;
    }
    true
}

// A little-endian number of so many bytes.
pub trait Number: Copy + Drop {
    ghost bytes: { ℕ };

    ghost value: { Self → ℕ };

    // None where the bytes are not granted.
    fn read(s: &[u8], offset: usize) -> Option<Self>
        ensures { told value result ≡ read_of bytes s.now offset };

    fn zero() -> Self
        ensures { value result ≡ 0 };

    // So two answers that conform are one.
    ghost apart: { (x : Self) (y : Self) → value x ≡ value y → x ≡ y };
}

impl Number for u16 {
    ghost bytes = { 2 };

    ghost value = { λ x. x };

    ghost apart = { λ x y e. e };

    #[tactic(auto, using(crate::proofs::Laws::fits, crate::proofs::Laws::fits_not, crate::proofs::Laws::granted, crate::proofs::Laws::refused, crate::proofs::Laws::two_bytes))]
    fn read(s: &[u8], offset: usize) -> Option<u16>
        ensures { result ≡ read_of 2 s.now offset }
    {
        if is_granted(s, offset, 2) {
            Some(u16::from_le_bytes([s[offset], s[offset + 1]]))
        } else {
            None
        }
    }

    fn zero() -> u16 {
        0
    }
}

impl Number for u32 {
    ghost bytes = { 4 };

    ghost value = { λ x. x };

    ghost apart = { λ x y e. e };

    #[tactic(auto, using(crate::proofs::Laws::fits, crate::proofs::Laws::fits_not, crate::proofs::Laws::granted, crate::proofs::Laws::refused, crate::proofs::Laws::four_bytes))]
    fn read(s: &[u8], offset: usize) -> Option<u32>
        ensures { result ≡ read_of 4 s.now offset }
    {
        if is_granted(s, offset, 4) {
            Some(u32::from_le_bytes([s[offset], s[offset + 1], s[offset + 2], s[offset + 3]]))
        } else {
            None
        }
    }

    fn zero() -> u32 {
        0
    }
}

impl Number for u64 {
    ghost bytes = { 8 };

    ghost value = { λ x. x };

    ghost apart = { λ x y e. e };

    #[tactic(auto, using(crate::proofs::Laws::fits, crate::proofs::Laws::fits_not, crate::proofs::Laws::granted, crate::proofs::Laws::refused, crate::proofs::Laws::eight_bytes))]
    fn read(s: &[u8], offset: usize) -> Option<u64>
        ensures { result ≡ read_of 8 s.now offset }
    {
        if is_granted(s, offset, 8) {
            Some(u64::from_le_bytes([
                s[offset],
                s[offset + 1],
                s[offset + 2],
                s[offset + 3],
                s[offset + 4],
                s[offset + 5],
                s[offset + 6],
                s[offset + 7],
            ]))
        } else {
            None
        }
    }

    fn zero() -> u64 {
        0
    }
}

// The number there, or 0 where the read is not granted.
#[tactic(auto, unfolding(crate::specs::Reader::word_at))]
pub fn read_or_0<N: Number>(s: &[u8], offset: usize) -> N
    ensures { N.value result ≡ word_at N.bytes s.now offset }
{
    match N::read(s, offset) {
        Some(x) => x,
        None => N::zero(),
    }
}

// The n bytes from the offset on, or what there is of them.
pub fn part(s: &[u8], offset: usize, n: usize) -> &[u8]
    ensures { slice_told result ≡ part_in (slice_told s.entry) offset n }
{
    if s.len() < offset {
        return &s[..0];
    }
    if s.len() - offset < n {
        return &s[offset..];
    }
    let end = offset + n;
    &s[offset..end]
}
