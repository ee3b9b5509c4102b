// The layouts of a list's entries with their numbers, and one bisection over such a list; `four` has four side by side.
#![tactic(auto)]

pub mod four;

ghost use Rattle.std.specs.Prelude.{ℕ, ◌≡◌, cond, refl, ◌+◌, ◌*◌, ◌≤◌, length};
ghost use Rattle.reader.specs.Reader.{word_at};
ghost use Rattle.search.specs.Search.{size_of, count_of, key_of, key_in, run, search_of};
ghost use Rattle.search.specs.Steps.{Ready, Took, OnWay, Below, whole, going};

// The bytes of an entry, by its layout.
pub const PAGE_ENTRY: usize = 12;

pub const REGULAR_ENTRY: usize = 8;

pub const COMPRESSED_ENTRY: usize = 4;

// A compressed function's key is what is below this in its word, and its opcode's index what is above.
pub const COMPRESSED_KEYS: u32 = 16777216;

// A layout where it is known only as the program runs.
#[derive(Clone, Copy, Debug, PartialEq, Eq)]
pub enum Layout {
    Pages,
    Regular,
    Compressed,
}

// A layout that the compiler knows: it makes each search for each of these, and so tests no layout in any round.
pub trait Entry {
    ghost use Rattle.search.specs.declared.Layout.{Layout};

    ghost layout: { Layout };

    ghost SIZE: { ℕ };

    // The bytes of an entry.
    const SIZE: usize;

    // The key, by the entry's first number.
    fn key_in(word: u32) -> u32
        ensures { result ≡ key_in layout word };

    ghost sized: { SIZE ≡ size_of layout };
}

#[derive(Clone, Copy)]
pub struct PageEntry;

#[derive(Clone, Copy)]
pub struct RegularEntry;

#[derive(Clone, Copy)]
pub struct CompressedEntry;

impl Entry for PageEntry {
    ghost use Rattle.search.specs.declared.Layout.{Layout};

    ghost layout = { Layout.Pages };

    ghost SIZE = { 12 };

    const SIZE: usize = PAGE_ENTRY;

    #[tactic(auto, unfolding(crate::specs::Search::key_in))]
    fn key_in(word: u32) -> u32 {
        word
    }

    ghost sized = { refl };
}

impl Entry for RegularEntry {
    ghost use Rattle.search.specs.declared.Layout.{Layout};

    ghost layout = { Layout.Regular };

    ghost SIZE = { 8 };

    const SIZE: usize = REGULAR_ENTRY;

    #[tactic(auto, unfolding(crate::specs::Search::key_in))]
    fn key_in(word: u32) -> u32 {
        word
    }

    ghost sized = { refl };
}

impl Entry for CompressedEntry {
    ghost use Rattle.search.specs.declared.Layout.{Layout};

    ghost layout = { Layout.Compressed };

    ghost SIZE = { 4 };

    const SIZE: usize = COMPRESSED_ENTRY;

    #[tactic(auto, unfolding(crate::specs::Search::key_in))]
    fn key_in(word: u32) -> u32 {
        word % COMPRESSED_KEYS
    }

    ghost sized = { refl };
}

// Where a search ended: one past the entry found, 0 if there is none; and how many entries it probed.
#[derive(Clone, Copy, Debug, PartialEq, Eq)]
pub struct Spot {
    pub at: usize,
    pub probes: u32,
}

// The entries that are left to search, len of them from lo on, and the one to probe next.
#[derive(Clone, Copy)]
pub(crate) struct Span {
    pub lo: usize,
    pub len: usize,
    pub mid: usize,
}

// A search on its way; its width goes by the number of entries alone, so that no turn depends on a key.
#[derive(Clone, Copy)]
pub(crate) struct Going {
    pub left: Span,
    pub width: usize,
    pub probes: usize,
}

pub fn entry_size(layout: Layout) -> usize
    ensures { result ≡ size_of layout }
{
    match layout {
        Layout::Pages => PAGE_ENTRY,
        Layout::Regular => REGULAR_ENTRY,
        Layout::Compressed => COMPRESSED_ENTRY,
    }
}

// How many entries the list has.
#[tactic(auto, unfolding(crate::specs::Search::count_of))]
pub(crate) fn count_of<E: Entry>(list: &[u8]) -> usize
    ensures { result ≡ count_of list.now E.layout }
{
    list.len() / E::SIZE
}

// The key of entry i, 0 where the list has none.
#[tactic(auto, using(crate::proofs::Turns::keyed_by))]
pub fn key<E: Entry>(list: &[u8], i: u32) -> u32
    ensures { result ≡ key_of list.now E.layout i }
{
    E::key_in(reader::read_or_0::<u32>(list, E::SIZE * i as usize))
}

#[tactic(auto, using(crate::proofs::Turns::four_bytes))]
fn word(list: &[u8], at: usize) -> u32
    requires { at + 4 ≤ length list.now }
    ensures { result ≡ word_at 4 list.now at }
{
    u32::from_le_bytes([list[at], list[at + 1], list[at + 2], list[at + 3]])
}

// The key of an entry that is there, with no test of it.
#[tactic(auto, using(crate::proofs::Turns::keyed_by))]
pub(crate) fn probe<E: Entry>(list: &[u8], i: usize) -> u32
    requires { size_of E.layout * i + 4 ≤ length list.now }
    ensures { result ≡ key_of list.now E.layout i }
{
    E::key_in(word(list, E::SIZE * i))
}

// For speed: what is chosen so becomes a conditional move, which no key mispredicts.
pub(crate) fn either(first: bool, a: usize, b: usize) -> usize
    ensures { result ≡ cond first a b }
{
    if first { a } else { b }
}

// One round. For speed both next entries to probe are known before the key is, the one to probe is chosen first, and the test is one
// that needs a single flag: `as` keeps it so where `u64::from` does not.
#[tactic(auto, using(crate::proofs::Turns::round))]
fn step<E: Entry>(list: &[u8], x: u32, p: Span) -> Span
    requires { Ready (size_of E.layout) (length list.now) p }
    ensures { Took (key_of list.now E.layout) x 1 p result }
{
    let Span { lo, len, mid } = p;
    let up = (probe::<E>(list, mid) as u64) < x as u64 + 1;
    let half = len / 2;
    let rest = (len - 1) / 2;
    let next = mid + 1;
    let mid = either(up, next + rest / 2, lo + half / 2);
    Span {
        lo: either(up, next, lo),
        len: either(up, rest, half),
        mid,
    }
}

// n entries, of which none was probed.
fn all_of(n: usize) -> Span
    ensures { result ≡ whole n }
{
    Span {
        lo: 0,
        len: n,
        mid: n / 2,
    }
}

// For speed two rounds a turn.
#[tactic(auto, using(crate::proofs::Turns::sets_out))]
fn by_two<E: Entry>(list: &[u8], n: usize, x: u32) -> Going
    requires { size_of E.layout * n ≤ length list.now }
    ensures { Below (key_of list.now E.layout) x n 4 result }
{
    let mut left = all_of(n);
    let mut width = n;
    let mut probes = 0;
    while width >= 4 {
        let half = step::<E>(list, x, left);
        left = step::<E>(list, x, half);
        width /= 4;
        probes += 2;
    }
    Going {
        left,
        width,
        probes,
    }
}

#[tactic(auto, using(crate::proofs::Turns::few, crate::proofs::Turns::onward))]
fn by_one<E: Entry>(list: &[u8], n: usize, x: u32, g: Going) -> Going
    requires { (size_of E.layout * n ≤ length list.now) × Below (key_of list.now E.layout) x n 4 g }
    ensures { Below (key_of list.now E.layout) x n 2 result }
{
    let Going {
        left,
        width,
        probes,
    } = g;
    if width < 2 {
        return g;
    }
    Going {
        left: step::<E>(list, x, left),
        width: width / 2,
        probes: probes + 1,
    }
}

// At most one entry is left: its probe is counted if there is one, and made either way.
#[tactic(auto, using(crate::proofs::Turns::few, crate::proofs::Turns::ends, crate::proofs::Turns::none))]
pub(crate) fn last<E: Entry>(list: &[u8], n: usize, x: u32, g: Going) -> Spot
    requires { (size_of E.layout * n ≤ length list.now) × Below (key_of list.now E.layout) x n 2 g }
    ensures { result ≡ run (key_of list.now E.layout) x 0 n }
{
    if n == 0 {
        return Spot { at: 0, probes: 0 };
    }
    let Span { lo, len, .. } = g.left;
    let there = either(lo < n, lo, n - 1);
    let up = (probe::<E>(list, there) as u64) < x as u64 + 1;
    Spot {
        at: either(up, lo + len, lo),
        probes: (g.probes + len) as u32,
    }
}

// Index and probes are those of docs/FORMAT.md, 3. For speed it is laid into each caller, and is a call in none.
#[tactic(auto, using(crate::proofs::Turns::all_inside), unfolding(crate::specs::Search::search_of))]
#[inline(always)]
pub fn search<E: Entry>(list: &[u8], x: u32) -> Spot
    ensures { result ≡ search_of list.now E.layout x }
{
    let n = count_of::<E>(list);
    let a = by_two::<E>(list, n, x);
    let b = by_one::<E>(list, n, x, a);
    last::<E>(list, n, x, b)
}
