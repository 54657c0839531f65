//! Names that stand for words: what is known of a core.

ghost use Rattle.std.specs.Prelude.{◌≡◌, option_map};
ghost use Rattle.clap.specs.Words.{found_of, rows_of};
ghost use Rattle.judge_words.specs.Lists.{value_at};
ghost use Rattle.judge_words.specs.Cores.{core_in, core_names, cva6_words, own_words, plain_words, qemu_registers, qemu_words, rocket_words, said, spike_words, word_of};

use crate::command_line::text_of;
use clap::ArgMatches;

/// A core of which something is known.
#[derive(Clone, Copy, Debug)]
pub enum Core {
    /// Any core, where none is named.
    Plain,
    Qemu,
    Spike,
    Rocket,
    Cva6,
}

/// The core that is named, where one is.
pub fn read_core(text: Option<&str>) -> Option<Core>
    ensures { result ≡ core_in (option_map (λ text. text.now) text.entry) }
{
    match text {
        None => Some(Core::Plain),
        Some(name) => core_named(name),
    }
}

#[tactic(auto, unfolding(crate::specs::Cores::core_names))]
fn core_named(name: &str) -> Option<Core>
    ensures { result ≡ value_at core_names name.now }
{
    match name {
        "qemu" => Some(Core::Qemu),
        "spike" => Some(Core::Spike),
        "rocket" => Some(Core::Rocket),
        "cva6" => Some(Core::Cva6),
        _ => None,
    }
}

/// The text of an option: what is given, else what is known of the core, else what stands where
/// nothing is said.
#[tactic(auto, unfolding(crate::specs::Cores::said))]
pub fn said<'a>(given: &ArgMatches<'a>, core: Core, name: &str) -> Option<&'a str>
    ensures { option_map (λ text. text.now) result
        ≡ said core (rows_of (found_of given.now)) name.now }
{
    match text_of(given, name) {
        Some(text) => Some(text),
        None => core.word(name),
    }
}

impl Core {
    /// What stands for an option that is left out.
    fn word(self, name: &str) -> Option<&'static str>
        ensures { option_map (λ text. text.now) result ≡ word_of self name.now }
    {
        match self.own_word(name) {
            Some(text) => Some(text),
            None => plain_word(name),
        }
    }

    /// What is known of the core.
    fn own_word(self, name: &str) -> Option<&'static str>
        ensures { option_map (λ text. text.now) result ≡ value_at (own_words self) name.now }
    {
        match self {
            Core::Plain => None,
            Core::Qemu => qemu_word(name),
            Core::Spike => spike_word(name),
            Core::Rocket => rocket_word(name),
            Core::Cva6 => cva6_word(name),
        }
    }
}

/// Where nothing is said.
#[tactic(auto, unfolding(crate::specs::Cores::plain_words))]
fn plain_word(name: &str) -> Option<&'static str>
    ensures { option_map (λ text. text.now) result ≡ value_at plain_words name.now }
{
    match name {
        "misaligned" => Some("trap"),
        "mtval" => Some("value"),
        "ad" => Some("fault"),
        "reserve" => Some("64"),
        "bits" => Some("off"),
        "insn" => Some("full"),
        "io-faults" => Some("none"),
        "pmp" => Some("16"),
        "pmp-bits" => Some("54"),
        "lines" => Some("0xA88"),
        _ => None,
    }
}

/// qemu 7.2.
#[tactic(auto, unfolding(crate::specs::Cores::qemu_words))]
fn qemu_word(name: &str) -> Option<&'static str>
    ensures { option_map (λ text. text.now) result ≡ value_at qemu_words name.now }
{
    match name {
        "ad" => Some("set"),
        "misaligned" => Some("done"),
        "mtval" => Some("zero:3"),
        "csr" => Some(qemu_registers()),
        _ => None,
    }
}

/// The bits that qemu 7.2 lets writes change, as far as a mask may have them.
#[tactic(auto, unfolding(crate::specs::Cores::qemu_registers))]
fn qemu_registers() -> &'static str
    ensures { result.now ≡ qemu_registers }
{
    "mstatus=0x7E7FAA,medeleg=0xF0BFFF,mideleg=0x2222,mie=0x2AAA,mcounteren=0xFFFFFFFF,\
     mcountinhibit=0xFFFFFFFD,menvcfg=0xC0000000000000F1,senvcfg=0xF1,scounteren=0xFFFFFFFF"
}

/// Spike.
#[tactic(auto, unfolding(crate::specs::Cores::spike_words))]
fn spike_word(name: &str) -> Option<&'static str>
    ensures { option_map (λ text. text.now) result ≡ value_at spike_words name.now }
{
    match name {
        "pmp" => Some("16"),
        _ => None,
    }
}

/// Rocket.
#[tactic(auto, unfolding(crate::specs::Cores::rocket_words))]
fn rocket_word(name: &str) -> Option<&'static str>
    ensures { option_map (λ text. text.now) result ≡ value_at rocket_words name.now }
{
    match name {
        "pmp" => Some("8"),
        _ => None,
    }
}

/// CVA6.
#[tactic(auto, unfolding(crate::specs::Cores::cva6_words))]
fn cva6_word(name: &str) -> Option<&'static str>
    ensures { option_map (λ text. text.now) result ≡ value_at cva6_words name.now }
{
    match name {
        "pmp" => Some("8"),
        _ => None,
    }
}
