// The records of an input, which lie one after the other.
ghost use Rattle.std.specs.Prelude.{ℕ, List, ◌≡◌, ◌+◌, length};
ghost use Rattle.std.specs.Iterator.{at_most};
ghost use Rattle.reader.specs.Reader.{word_at};
ghost use Rattle.records.specs.Records.{HandsOut};

// How an input is cut into records.
pub trait Framing: Copy {
    // What is said of a record, from its first byte to the input's end, and how many bytes it takes.
    ghost takes: { List ℕ → ℕ → Type 0 };

    fn bytes(self, record: &[u8]) -> usize
        ensures { takes record.now result };
}

// A record that has HEAD bytes and as many more as the number of 32 bits says that stands AT in it.
#[derive(Clone, Copy)]
pub struct Headed<const HEAD: u16, const AT: usize>;

impl<const HEAD: u16, const AT: usize> Framing for Headed<HEAD, AT> {
    ghost use Rattle.std.specs.Prelude.{◌≡◌, ◌+◌};
    ghost use Rattle.reader.specs.Reader.{word_at};

    ghost takes = { λ bytes n. n ≡ HEAD + word_at 4 bytes AT };

    fn bytes(self, record: &[u8]) -> usize {
        let more: u32 = reader::read_or_0(record, AT);
        usize::from(HEAD) + more as usize
    }
}

// Each item begins with a record, and what comes after it follows to the input's end. The framing says how many bytes the record takes; a byte
// is passed at least, so the records end.
#[derive(Clone, Copy)]
pub struct Records<'a, F> {
    rest: &'a [u8],
    framing: F,
}

impl<'a, F: Framing> Records<'a, F> {
    pub fn new(s: &'a [u8], framing: F) -> Records<'a, F>
        ensures { result ≡ record { rest = s.entry; framing = framing } }
    {
        Records { rest: s, framing }
    }
}

impl<'a, F: Framing> Iterator for Records<'a, F> {
    type Item = &'a [u8];

    ghost next_gives = { λ it handed after. HandsOut (λ x n. F.takes x.now n) it.rest.now handed after.rest.now × (after.framing ≡ it.framing) };

    ghost remaining = { λ it. at_most (length it.rest.now) };

    fn next(&mut self) -> Option<&'a [u8]> {
        let record = self.rest;
        if record.is_empty() {
            return None;
        }
        let n = self.framing.bytes(record).clamp(1, record.len());
        self.rest = &record[n..];
        Some(record)
    }
}
