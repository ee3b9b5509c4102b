// Reads of little-endian numbers.
ghost use Rattle.std.specs.Prelude.{◌≡◌};
ghost use Rattle.reader.specs.Reader.{granted_of, read_of};
ghost use Rattle.brasspurse.specs.Flat.{read_answer};

use reader::Number;

// granted is 1, or 0 with value 0.
#[repr(C)]
#[derive(Clone, Copy, Debug, Default, PartialEq, Eq)]
pub struct ReadAnswer {
    pub granted: u32,
    pub value: u64,
}

impl From<Option<u64>> for ReadAnswer {
    ghost from_gives = { λ read answer. answer ≡ read_answer read };

    fn from(read: Option<u64>) -> ReadAnswer {
        match read {
            Some(value) => ReadAnswer { granted: 1, value },
            None => ReadAnswer::default(),
        }
    }
}

pub fn brasspurse_is_granted(section: &[u8], offset: usize, bytes: usize) -> bool
    ensures { result ≡ granted_of bytes section.now offset }
{
    reader::is_granted(section, offset, bytes)
}

pub fn brasspurse_read_u16(section: &[u8], offset: usize) -> ReadAnswer
    ensures { result ≡ read_answer (read_of 2 section.now offset) }
{
    ReadAnswer::from(u16::read(section, offset).map(u64::from))
}

pub fn brasspurse_read_u32(section: &[u8], offset: usize) -> ReadAnswer
    ensures { result ≡ read_answer (read_of 4 section.now offset) }
{
    ReadAnswer::from(u32::read(section, offset).map(u64::from))
}

pub fn brasspurse_read_u64(section: &[u8], offset: usize) -> ReadAnswer
    ensures { result ≡ read_answer (read_of 8 section.now offset) }
{
    ReadAnswer::from(u64::read(section, offset))
}
