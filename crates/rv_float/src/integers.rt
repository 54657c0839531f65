//! The integers that conversions take and give.

ghost use Rattle.std.specs.Prelude.{◌≡◌, ◌<◌, ◌≤◌, ◌^◌};
ghost use Rattle.rv_float.specs.Conversions.{width, is_signed, is_negative_integer, integer_size, limit, residue_of, extended, integer_bits};

/// An integer's bits, and whether it has a sign.
#[derive(Clone, Copy, Debug, PartialEq, Eq)]
pub enum IntegerKind {
    /// W: signed, 32 bits.
    Word,
    /// WU: unsigned, 32 bits.
    UnsignedWord,
    /// L: signed, 64 bits.
    Long,
    /// LU: unsigned, 64 bits.
    UnsignedLong,
}

impl IntegerKind {
    /// Whether the integer in the low bits of a register is below 0.
    pub(crate) fn is_negative(self, register: u64) -> bool
        ensures { result ≡ is_negative_integer self register }
    {
        match self {
            IntegerKind::Word => register / (1 << 31) % 2 == 1,
            IntegerKind::Long => register / (1 << 63) % 2 == 1,
            IntegerKind::UnsignedWord | IntegerKind::UnsignedLong => false,
        }
    }

    /// The magnitude of the integer in the low bits of a register.
    pub(crate) fn size(self, register: u64) -> u128
        ensures { result ≡ integer_size self register }
    {
        let all = self.modulus();
        let low = u128::from(register) % all;
        if self.is_negative(register) {
            all - low
        } else {
            low
        }
    }

    /// How many integers of this kind there are.
    fn modulus(self) -> u128
        ensures value { result ≡ 2 ^ width self }
        ensures least { 2 ^ 32 ≤ result }
        ensures most { result ≤ 2 ^ 64 }
    {
        match self {
            IntegerKind::Word | IntegerKind::UnsignedWord => 1 << 32,
            IntegerKind::Long | IntegerKind::UnsignedLong => 1 << 64,
        }
    }

    /// The greatest magnitude of an integer with a sign.
    pub(crate) fn limit(self, negative: bool) -> u128
        ensures value { result ≡ limit self negative }
        ensures fits { result < 2 ^ width self }
    {
        match self {
            IntegerKind::Word => { if negative { 1 << 31 } else { (1 << 31) - 1 } }
            IntegerKind::Long => { if negative { 1 << 63 } else { (1 << 63) - 1 } }
            IntegerKind::UnsignedWord => if negative { 0 } else { (1 << 32) - 1 },
            IntegerKind::UnsignedLong => if negative { 0 } else { (1 << 64) - 1 },
        }
    }

    /// A signed magnitude, modulo 2 to the width.
    fn residue(self, negative: bool, magnitude: u128) -> u64
        requires { magnitude < 2 ^ width self }
        ensures value { result ≡ residue_of self negative magnitude }
        ensures fits { result < 2 ^ width self }
    {
        let all = self.modulus();
        if negative {
            ((all - magnitude) % all) as u64
        } else {
            (magnitude % all) as u64
        }
    }

    /// Bits of this width as 64 bits have them: the highest is repeated.
    fn extended(self, bits: u64) -> u64
        requires { bits < 2 ^ width self }
        ensures { result ≡ extended self bits }
    {
        match self {
            IntegerKind::Word | IntegerKind::UnsignedWord => {
                if bits / (1 << 31) % 2 == 1 {
                    0xffff_ffff_0000_0000 + bits
                } else {
                    bits
                }
            }
            IntegerKind::Long | IntegerKind::UnsignedLong => bits,
        }
    }

    /// A signed magnitude as a register has it.
    pub(crate) fn bits(self, negative: bool, magnitude: u128) -> u64
        requires { magnitude < 2 ^ width self }
        ensures { result ≡ integer_bits self negative magnitude }
    {
        self.extended(self.residue(negative, magnitude))
    }
}
