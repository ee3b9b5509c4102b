// For C: reads of little-endian numbers.
ghost use Rattle.std.specs.Prelude.{◌≡◌};
ghost use Rattle.reader.specs.Reader.{granted_of, read_of};
ghost use Rattle.brasspurse.specs.Flat.{read_answer};

use brasspurse::reads::ReadAnswer;

#[unsafe(no_mangle)]
pub extern "C" fn brasspurse_is_granted(section: &[u8], offset: usize, bytes: usize) -> bool
    ensures { result ≡ granted_of bytes section.now offset }
{
    brasspurse::reads::brasspurse_is_granted(section, offset, bytes)
}

#[unsafe(no_mangle)]
pub extern "C" fn brasspurse_read_u16(section: &[u8], offset: usize) -> ReadAnswer
    ensures { result ≡ read_answer (read_of 2 section.now offset) }
{
    brasspurse::reads::brasspurse_read_u16(section, offset)
}

#[unsafe(no_mangle)]
pub extern "C" fn brasspurse_read_u32(section: &[u8], offset: usize) -> ReadAnswer
    ensures { result ≡ read_answer (read_of 4 section.now offset) }
{
    brasspurse::reads::brasspurse_read_u32(section, offset)
}

#[unsafe(no_mangle)]
pub extern "C" fn brasspurse_read_u64(section: &[u8], offset: usize) -> ReadAnswer
    ensures { result ≡ read_answer (read_of 8 section.now offset) }
{
    brasspurse::reads::brasspurse_read_u64(section, offset)
}
