//! The integer registers. From the Unprivileged ISA's chapter "RV32I Base Integer Instruction Set",
//! programmers' model.

/// The integer registers x1 to x31. x0 is always 0, and writing it does nothing.
#[derive(Clone, Copy, Debug, PartialEq, Eq)]
pub struct Registers {
    /// The value of x1 first.
    pub values: [u64; 31],
}

impl Registers {
    ghost use Rattle.std.specs.Prelude.{◌≡◌};
    ghost use Rattle.hart_words.specs.Registers.{register_of, registers_at_reset, with_register};

    /// All registers are 0.
    #[tactic(auto, unfolding(crate::specs::Registers::registers_at_reset))]
    pub fn zeros() -> Registers
        ensures { result ≡ registers_at_reset }
    {
        Registers { values: [0; 31] }
    }

    /// The value of a register, by its number; 0 for x0.
    pub fn get(&self, number: u8) -> u64
        ensures { result ≡ register_of self.now number }
    {
        self.at_number(u64::from(number))
    }

    /// The same by a number that a row shows.
    pub fn at_number(&self, number: u64) -> u64
        ensures { result ≡ register_of self.now number }
    {
        if number == 0 {
            return 0;
        }
        match self.values.get((number - 1) as usize) {
            Some(value) => *value,
            None => 0,
        }
    }

    /// Puts a value into a register; nothing changes where it is x0.
    pub fn set(&mut self, number: u8, value: u64)
        ensures { self.new ≡ with_register self.old number value }
    {
        if number == 0 {
            return;
        }
        let index = usize::from(number - 1);
        if index < self.values.len() {
            self.values[index] = value;
        }
    }
}
