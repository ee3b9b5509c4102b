// What every opcode word has, whatever the machine.
ghost use Rattle.std.specs.Prelude.{◌≡◌};
ghost use Rattle.opcodes.specs.Bits.{kind_of, specific_of};

#[derive(Clone, Copy, Debug, PartialEq, Eq)]
pub struct OpcodeBitfield(pub u32);

impl OpcodeBitfield {
    pub fn new(value: u32) -> Self
        ensures { result.0 ≡ value }
    {
        Self(value)
    }

    // Which of the machine's forms the word has.
    pub fn kind(self) -> u8
        ensures { result ≡ kind_of self.0 }
    {
        (self.0 / 0x100_0000 % 16) as u8
    }

    // The bits that the form gives a meaning.
    pub fn specific_bits(self) -> u32
        ensures { result ≡ specific_of self.0 }
    {
        self.0 % 0x100_0000
    }
}
