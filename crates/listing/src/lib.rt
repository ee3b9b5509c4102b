// The text of a listing, written into lists of bytes that the caller lends: lines of functions, refusals, the end.
#![tactic(auto)]

ghost use Rattle.std.specs.Prelude.{◌≡◌, ◌+◌, ◌≤◌, ◌<◌, ◌++◌, ◌∷◌, [], length};
ghost use Rattle.listing.specs.Listing.{digit_of, digits_of, decimal_of, hex_of, line_of, places_of, refused_of, end_of, written, whole_of, lines_in};

// Lines of functions, each three numbers: start, end, opcode. Answers how many bytes were written.
#[tactic(auto, using(crate::proofs::Lines::one_line_written, crate::proofs::Lines::all_written), unfolding(crate::specs::Listing::lines_of))]
pub fn write_lines(numbers: &[u32], lines: usize, out: &mut [u8]) -> usize
    ensures { written result out.new ≡ lines_in numbers.now lines out.old }
{
    let n = lines.min(numbers.len() / 3).min(out.len() / 27);
    for k in 0..n {
        let (i, at) = (3 * k, 27 * k);
        let line = &mut out[at..at + 27];
        write_line(numbers[i], numbers[i + 1], numbers[i + 2], line);
    }
    27 * n
}

// `refused N` and a newline, or nothing where it does not fit.
#[tactic(auto, unfolding(crate::specs::Listing::refused_of))]
pub fn write_refused(number: u8, out: &mut [u8]) -> usize
    ensures { written result out.new ≡ whole_of (refused_of number) out.old }
{
    write_count(b"refused ", u64::from(number), out)
}

// `end F` and a newline, or nothing where it does not fit.
#[tactic(auto, unfolding(crate::specs::Listing::end_of))]
pub fn write_end(functions: u64, out: &mut [u8]) -> usize
    ensures { written result out.new ≡ whole_of (end_of functions) out.old }
{
    write_count(b"end ", functions, out)
}

// A word, a number in decimal and a newline, or nothing where they do not fit.
#[tactic(auto, using(crate::proofs::Stores::count_written, crate::proofs::Stores::too_long))]
fn write_count(word: &[u8], n: u64, out: &mut [u8]) -> usize
    requires { length word.now ≤ 8 }
    ensures { written result out.new ≡ whole_of (word.now ++ decimal_of n ++ (10 ∷ [])) out.old }
{
    let blank = word.len();
    let newline = blank + places(n);
    if out.len() <= newline {
        return 0;
    }
    out[..blank].copy_from_slice(word);
    write_decimal(n, &mut out[blank..newline]);
    out[newline] = b'\n';
    newline + 1
}

fn write_line(a: u32, b: u32, c: u32, out: &mut [u8])
    requires { length out.old ≡ 27 }
    ensures { out.new ≡ line_of a b c }
{
    write_hex(a, &mut out[..8]);
    out[8] = b' ';
    write_hex(b, &mut out[9..17]);
    out[17] = b' ';
    write_hex(c, &mut out[18..26]);
    out[26] = b'\n';
}

// For speed: over 32 bits, and apart from `write_decimal`. So the compiler finds the digits of four lines side by side; over 64 bits a
// line takes a fifth longer.
#[tactic(auto, using(crate::proofs::Digits::last_written, crate::proofs::Digits::none_written), unfolding(crate::specs::Listing::digits_of))]
fn write_hex(n: u32, out: &mut [u8])
    requires { length out.old ≡ 8 }
    ensures { out.new ≡ hex_of n }
{
    let mut rest = n;
    for i in (0..8).rev() {
        out[i] = digit(rest % 16);
        rest /= 16;
    }
}

// The last decimal digits of n, as many as there is room for.
#[tactic(auto, using(crate::proofs::Digits::last_written, crate::proofs::Digits::none_written), unfolding(crate::specs::Listing::digits_of))]
fn write_decimal(n: u64, out: &mut [u8])
    ensures { out.new ≡ digits_of 10 (length out.old) n }
{
    let mut rest = n;
    for i in (0..out.len()).rev() {
        out[i] = digit((rest % 10) as u32);
        rest /= 10;
    }
}

// For speed: over 32 bits, too. Over 8 bits a line takes half as long again.
#[tactic(auto, unfolding(crate::specs::Listing::digit_of))]
fn digit(d: u32) -> u8
    requires { d < 16 }
    ensures { result ≡ digit_of d }
{
    (if d < 10 { 48 + d } else { 87 + d }) as u8
}

// How many decimal digits n has.
#[tactic(auto, using(crate::proofs::Digits::counted))]
fn places(n: u64) -> usize
    ensures { (result ≡ places_of n) × (result ≤ 20) }
{
    n.max(1).ilog10() as usize + 1
}
