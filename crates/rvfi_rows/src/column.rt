//! The columns of a trace, and the ports of a core.

ghost use Rattle.std.specs.Prelude.{◌≡◌, ◌<◌};
ghost use Rattle.rvfi_rows.specs.Ports.{has_suffix, is_column, port_number, port_suffix};

use hart_words::Signal;

/// A port at which a core retires instructions. A line of a trace has a row for each, in order.
#[derive(Clone, Copy, Debug, PartialEq, Eq)]
pub enum Port {
    Zero,
    One,
    Two,
    Three,
}

/// All ports, in order.
pub(crate) const PORTS: [Port; 4] = [Port::Zero, Port::One, Port::Two, Port::Three];

/// A column of a trace: what it shows, of the row of which port.
#[derive(Clone, Copy, Debug, PartialEq, Eq)]
pub struct Column {
    pub signal: Signal,
    pub port: Port,
}

/// The columns of signals at a port each.
macro_rules! columns {
    ($($signal:expr => $port:expr),* $(,)?) => {
        [$(Column { signal: $signal, port: $port }),*]
    };
}

/// What ports need, port by port.
pub(crate) const NEEDED: [Column; 8] = columns![
    Signal::Insn => Port::Zero,
    Signal::PcRdata => Port::Zero,
    Signal::Insn => Port::One,
    Signal::PcRdata => Port::One,
    Signal::Insn => Port::Two,
    Signal::PcRdata => Port::Two,
    Signal::Insn => Port::Three,
    Signal::PcRdata => Port::Three,
];

/// A known column, and its place among all columns.
#[derive(Clone, Copy, Debug)]
pub(crate) struct PlacedColumn {
    pub place: usize,
    pub column: Column,
}

impl Port {
    /// The number of the port, from 0.
    pub fn number(self) -> u32
        ensures number { result ≡ port_number self }
        ensures below_4 { result < 4 }
    {
        match self {
            Port::Zero => 0,
            Port::One => 1,
            Port::Two => 2,
            Port::Three => 3,
        }
    }

    /// The end of a name that says the port.
    fn suffix(self) -> &'static [u8]
        ensures { result.now ≡ port_suffix self }
    {
        match self {
            Port::Zero => b"_0",
            Port::One => b"_1",
            Port::Two => b"_2",
            Port::Three => b"_3",
        }
    }

    /// Whether a name says the port.
    pub(crate) fn is_said_by(self, name: &[u8]) -> bool
        ensures { result ≡ has_suffix name.now self }
    {
        name.ends_with(self.suffix())
    }
}

impl Column {
    /// Whether it is the other column too.
    pub(crate) fn is(self, other: Option<Column>) -> bool
        ensures { result ≡ is_column self other }
    {
        match other {
            None => false,
            Some(other) => {
                other.signal.index() == self.signal.index()
                    && other.port.number() == self.port.number()
            }
        }
    }
}
