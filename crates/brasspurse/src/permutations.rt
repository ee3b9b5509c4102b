// Permutations, decoded and encoded.
ghost use Rattle.std.specs.Prelude.{◌≡◌};
ghost use Rattle.permutation.specs.Permutation.{decode_of, encode_of, told, told_encoded};
ghost use Rattle.brasspurse.specs.Flat.{permutation_answer, encoding_answer};

use permutation::{Error, decode_permutation_6, encode_permutation_6};

// refusal is 0, or 23 with every register 0.
#[repr(C)]
#[derive(Clone, Copy, Debug, Default, PartialEq, Eq)]
pub struct PermutationAnswer {
    pub refusal: u32,
    pub registers: [u8; 6],
}

// refusal is 0, or 28 with encoding 0.
#[repr(C)]
#[derive(Clone, Copy, Debug, Default, PartialEq, Eq)]
pub struct EncodingAnswer {
    pub refusal: u32,
    pub encoding: u32,
}

impl From<Result<[u8; 6], Error>> for PermutationAnswer {
    ghost from_gives = { λ decoded answer. answer ≡ permutation_answer (told decoded) };

    #[tactic(auto, unfolding(crate::specs::Flat::permutation_answer))]
    fn from(decoded: Result<[u8; 6], Error>) -> PermutationAnswer {
        match decoded {
            Ok(registers) => PermutationAnswer {
                refusal: 0,
                registers,
            },
            Err(error) => PermutationAnswer {
                refusal: u32::from(error.number()),
                ..PermutationAnswer::default()
            },
        }
    }
}

impl From<Result<u32, Error>> for EncodingAnswer {
    ghost from_gives = { λ encoded answer. answer ≡ encoding_answer (told_encoded encoded) };

    #[tactic(auto, unfolding(crate::specs::Flat::encoding_answer))]
    fn from(encoded: Result<u32, Error>) -> EncodingAnswer {
        match encoded {
            Ok(encoding) => EncodingAnswer {
                refusal: 0,
                encoding,
            },
            Err(error) => EncodingAnswer {
                refusal: u32::from(error.number()),
                ..EncodingAnswer::default()
            },
        }
    }
}

pub fn brasspurse_decode_permutation_6(count: u32, encoding: u32) -> PermutationAnswer
    ensures { result ≡ permutation_answer (decode_of count encoding) }
{
    decode_permutation_6(count, encoding).into()
}

pub fn brasspurse_encode_permutation_6(count: u32, registers: &[u8; 6]) -> EncodingAnswer
    ensures { result ≡ encoding_answer (encode_of count registers.now) }
{
    encode_permutation_6(count, *registers).into()
}
