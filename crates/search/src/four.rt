// Four searches side by side: for speed, as no round waits for another's.
ghost use Rattle.std.specs.Prelude.{◌≡◌, ◌+◌, ◌≤◌, ◌<◌, length};
ghost use Rattle.search.specs.Search.{size_of, count_of, key_of, search_of, spots_in};
ghost use Rattle.search.specs.Steps.{Ready, Took, going, span_of, lists_of, counts_of, unprobed_of, Halved, Alike, Ending, Abreast};

use crate::{Entry, Going, Span, Spot, count_of, either, last, probe};

// What four searches have, each its own.
#[derive(Clone, Copy, Debug, PartialEq, Eq)]
pub struct Four<T> {
    pub a: T,
    pub b: T,
    pub c: T,
    pub d: T,
}

impl<T> Four<T> {
    fn map<U, F: Fn(T) -> U>(self, f: F) -> Four<U>
        requires { F.pre f self.a × F.pre f self.b × F.pre f self.c × F.pre f self.d }
        ensures { F.post f self.a result.a × F.post f self.b result.b × F.post f self.c result.c × F.post f self.d result.d }
    {
        Four {
            a: f(self.a),
            b: f(self.b),
            c: f(self.c),
            d: f(self.d),
        }
    }

    fn zip<U>(self, other: Four<U>) -> Four<(T, U)>
        ensures { (result.a ≡ (self.a, other.a)) × (result.b ≡ (self.b, other.b)) × (result.c ≡ (self.c, other.c)) × (result.d ≡ (self.d, other.d)) }
    {
        Four {
            a: (self.a, other.a),
            b: (self.b, other.b),
            c: (self.c, other.c),
            d: (self.d, other.d),
        }
    }
}

// The entries that are left to search. The one to probe next is found anew, which takes a register less.
#[derive(Clone, Copy)]
struct Rest {
    pub lo: usize,
    pub len: usize,
}

fn count_all<E: Entry>(lists: Four<&[u8]>) -> Four<usize>
    ensures { result ≡ counts_of E.layout (lists_of lists.entry) }
{
    lists.map(|list| count_of::<E>(list))
}

fn fewest(n: Four<usize>) -> usize
    ensures { (result ≤ n.a) × (result ≤ n.b) × (result ≤ n.c) × (result ≤ n.d) }
{
    n.a.min(n.b).min(n.c.min(n.d))
}

fn most(n: Four<usize>) -> usize
    ensures { (n.a ≤ result) × (n.b ≤ result) × (n.c ≤ result) × (n.d ≤ result) }
{
    n.a.max(n.b).max(n.c.max(n.d))
}

// How often so many entries can be halved until one is left, or none.
fn halvings(n: usize) -> u32
    ensures { Halved n result }
{
    n.checked_ilog2().unwrap_or(0)
}

// One round. It waits longer for its key than that of a search alone, and has less to do.
#[tactic(auto, using(crate::proofs::Turns::lean_round))]
fn halve<E: Entry>(list: &[u8], x: u32, p: Rest) -> Rest
    requires { Ready (size_of E.layout) (length list.now) (span_of p) }
    ensures { Took (key_of list.now E.layout) x 1 (span_of p) (span_of result) }
{
    let Rest { lo, len } = p;
    let mid = lo + len / 2;
    let up = (probe::<E>(list, mid) as u64) < x as u64 + 1;
    Rest {
        lo: either(up, mid + 1, lo),
        len: either(up, len - 1, len) / 2,
    }
}

fn unprobed(n: Four<usize>) -> Four<Rest>
    ensures { result ≡ unprobed_of n }
{
    n.map(|len| Rest { lo: 0, len })
}

// So many rounds of each search.
fn down<E: Entry>(lists: Four<&[u8]>, x: Four<u32>, n: Four<usize>, rounds: u32) -> Four<Rest>
    requires { (n ≡ counts_of E.layout (lists_of lists)) × Alike rounds n }
    ensures { Abreast E.layout (lists_of lists.entry) x result rounds }
{
    let sought = lists.zip(x);
    let mut p = unprobed(n);
    for _ in 0..rounds {
        p = sought.zip(p).map(|((list, x), p)| halve::<E>(list, x, p));
    }
    p
}

// The search on its way again.
fn going_on(p: Rest, rounds: u32) -> Going
    requires { p.lo + p.len < 18446744073709551616 }
    ensures { result ≡ going (span_of p) p.len rounds }
{
    let Rest { lo, len } = p;
    Going {
        left: Span {
            lo,
            len,
            mid: lo + len / 2,
        },
        width: len,
        probes: rounds as usize,
    }
}

// Where it ends, with at most one entry left.
#[tactic(auto, using(crate::proofs::Turns::counted_inside, crate::proofs::Turns::searched))]
fn ended<E: Entry>(list: &[u8], n: usize, x: u32, p: Rest, rounds: u32) -> Spot
    requires { Ending E.layout list.now x n p rounds }
    ensures { result ≡ search_of list.now E.layout x }
{
    last::<E>(list, n, x, going_on(p, rounds))
}

// Side by side, where each can be halved so often.
fn abreast<E: Entry>(lists: Four<&[u8]>, x: Four<u32>, n: Four<usize>, rounds: u32) -> Four<Spot>
    requires { (n ≡ counts_of E.layout (lists_of lists)) × Alike rounds n }
    ensures { result ≡ spots_in E.layout lists.entry.a.now lists.entry.b.now lists.entry.c.now lists.entry.d.now x }
{
    let p = down::<E>(lists, x, n, rounds);
    lists
        .zip(x)
        .zip(n)
        .zip(p)
        .map(|(((list, x), n), p)| ended::<E>(list, n, x, p, rounds))
}

// Each search with no others beside it.
fn alone<E: Entry>(lists: Four<&[u8]>, x: Four<u32>) -> Four<Spot>
    ensures { result ≡ spots_in E.layout lists.entry.a.now lists.entry.b.now lists.entry.c.now lists.entry.d.now x }
{
    lists.zip(x).map(|(list, x)| crate::search::<E>(list, x))
}

// In one list, so that all four come to their last round at once.
pub fn search_in<E: Entry>(list: &[u8], x: Four<u32>) -> Four<Spot>
    ensures { result ≡ spots_in E.layout list.now list.now list.now list.now x }
{
    let lists = Four {
        a: list,
        b: list,
        c: list,
        d: list,
    };
    let n = count_all::<E>(lists);
    abreast::<E>(lists, x, n, halvings(n.a))
}

// Each in its own list. Where these can be halved so often and so often, each is searched alone.
pub fn search<E: Entry>(lists: Four<&[u8]>, x: Four<u32>) -> Four<Spot>
    ensures { result ≡ spots_in E.layout lists.entry.a.now lists.entry.b.now lists.entry.c.now lists.entry.d.now x }
{
    let n = count_all::<E>(lists);
    let rounds = halvings(fewest(n));
    if rounds != halvings(most(n)) {
        return alone::<E>(lists, x);
    }
    abreast::<E>(lists, x, n, rounds)
}
