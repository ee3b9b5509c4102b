// For C: permutations, decoded and encoded.
ghost use Rattle.std.specs.Prelude.{◌≡◌};
ghost use Rattle.permutation.specs.Permutation.{decode_of, encode_of};
ghost use Rattle.brasspurse.specs.Flat.{permutation_answer, encoding_answer};

use brasspurse::permutations::{EncodingAnswer, PermutationAnswer};

#[unsafe(no_mangle)]
pub extern "C" fn brasspurse_decode_permutation_6(count: u32, encoding: u32) -> PermutationAnswer
    ensures { result ≡ permutation_answer (decode_of count encoding) }
{
    brasspurse::permutations::brasspurse_decode_permutation_6(count, encoding)
}

#[unsafe(no_mangle)]
pub extern "C" fn brasspurse_encode_permutation_6(count: u32, registers: &[u8; 6]) -> EncodingAnswer
    ensures { result ≡ encoding_answer (encode_of count registers.now) }
{
    brasspurse::permutations::brasspurse_encode_permutation_6(count, registers)
}
