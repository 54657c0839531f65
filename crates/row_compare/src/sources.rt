//! The registers that an instruction reads.

ghost use Rattle.std.specs.Prelude.{◌≡◌};
ghost use Rattle.row_compare.specs.Sources.{source_read, source_shown, source_value};

use hart_words::Registers;

/// The number of a register that is read, unless it is x0.
pub fn source_read(source: u8) -> Option<u64>
    ensures { result ≡ source_read source }
{
    if source == 0 {
        None
    } else {
        Some(u64::from(source))
    }
}

/// The value of the register that the row names, where it names one, else of the one that is read.
pub fn source_value(registers: &Registers, source: u8, named: Option<u64>) -> Option<u64>
    ensures { result ≡ source_value registers.now source named }
{
    match source_shown(source, named) {
        None => None,
        Some(number) => Some(registers.at_number(number)),
    }
}

fn source_shown(source: u8, named: Option<u64>) -> Option<u64>
    ensures { result ≡ source_shown source named }
{
    match named {
        None => source_read(source),
        Some(named) => Some(named),
    }
}
