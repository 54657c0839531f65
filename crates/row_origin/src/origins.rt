//! Who wrote what a row read.

ghost use Rattle.std.specs.Prelude.{◌≡◌, ◌≤◌, length};
ghost use Rattle.row_origin.specs.declared.origins.TheConstants.{MOST_BYTES, MOST_REGISTERS};

/// The most registers that an instruction reads.
pub const MOST_REGISTERS: usize = 2;

/// The most bytes of a data access.
pub const MOST_BYTES: usize = 8;

/// A register that a row read, and the last earlier row of its hart whose step wrote it, if any.
#[derive(Clone, Copy, Debug, PartialEq, Eq)]
pub struct RegisterOrigin {
    pub number: u8,
    pub row: Option<u64>,
}

/// A byte of RAM that a row's data access read, and the last earlier row whose step wrote it, if
/// any.
#[derive(Clone, Copy, Debug, PartialEq, Eq)]
pub struct ByteOrigin {
    pub address: u64,
    pub row: Option<u64>,
}

/// Who wrote what a row read: its registers, rs1 first, and its bytes by their addresses.
#[derive(Clone, Copy, Debug)]
pub struct Origins {
    registers: [RegisterOrigin; MOST_REGISTERS],
    register_count: u8,
    bytes: [ByteOrigin; MOST_BYTES],
    byte_count: u8,
    ghost two_registers: { length registers ≡ MOST_REGISTERS },
    ghost some_registers: { register_count ≤ MOST_REGISTERS },
    ghost eight_bytes: { length bytes ≡ MOST_BYTES },
    ghost some_bytes: { byte_count ≤ MOST_BYTES },
}

impl Origins {
    ghost use Rattle.std.specs.Prelude.{◌<◌, ◌++◌, [], ◌∷◌};
    ghost use Rattle.row_origin.specs.Origins.{bytes_in, registers_in};

    /// Nothing read.
    pub(crate) fn none() -> Origins
        ensures registers { registers_in result ≡ [] }
        ensures bytes { bytes_in result ≡ [] }
    {
        Origins {
            registers: [RegisterOrigin {
                number: 0,
                row: None,
            }; MOST_REGISTERS],
            register_count: 0,
            bytes: [ByteOrigin {
                address: 0,
                row: None,
            }; MOST_BYTES],
            byte_count: 0,
        }
    }

    /// The registers that were read, rs1 first.
    pub fn registers(&self) -> &[RegisterOrigin]
        ensures { result.now ≡ registers_in self.now }
    {
        &self.registers[..usize::from(self.register_count)]
    }

    /// The bytes that were read, by their addresses.
    pub fn bytes(&self) -> &[ByteOrigin]
        ensures { result.now ≡ bytes_in self.now }
    {
        &self.bytes[..usize::from(self.byte_count)]
    }

    /// Adds a register.
    pub(crate) fn put_register(&mut self, origin: RegisterOrigin)
        requires { length (registers_in self.old) < MOST_REGISTERS }
        ensures registers { registers_in self.new ≡ registers_in self.old ++ origin ∷ [] }
        ensures bytes { bytes_in self.new ≡ bytes_in self.old }
    {
        self.registers[usize::from(self.register_count)] = origin;
        self.register_count += 1;
    }

    /// Adds a byte.
    pub(crate) fn put_byte(&mut self, origin: ByteOrigin)
        requires { length (bytes_in self.old) < MOST_BYTES }
        ensures bytes { bytes_in self.new ≡ bytes_in self.old ++ origin ∷ [] }
        ensures registers { registers_in self.new ≡ registers_in self.old }
    {
        self.bytes[usize::from(self.byte_count)] = origin;
        self.byte_count += 1;
    }
}
