//! Lines as they are written, in a fixed buffer.

ghost use Rattle.std.specs.Prelude.{◌≡◌, ◌≤◌, ◌<◌, ◌+◌, ◌++◌, [], List, ℕ, length, decimal};
ghost use Rattle.std.specs.Int.{w64, to_be_bytes};
ghost use Rattle.hex.specs.Hex.{encode_lower};
ghost use Rattle.state_text.specs.Lines.{digits_of, number_line, option_line, harts_line, mode_line, flags_line, block_line};
ghost use Rattle.state_text.specs.declared.line.TheConstants.{MOST_BYTES, LONGEST_NAME};

use arrayvec::ArrayVec;
use hart_words::Mode;
use std::marker::Model;

/// The most bytes of a line.
const MOST_BYTES: usize = 64;

/// The most bytes of the name of a number.
pub(crate) const LONGEST_NAME: usize = 32;

/// A line, which takes no memory beyond itself.
#[derive(Drop)]
pub(crate) struct Line {
    bytes: ArrayVec<u8, MOST_BYTES>,
}

impl Model for Line {
    ghost Value = { List ℕ };

    ghost view = { λ line. line.bytes.items };

    ghost invariant = { λ line. length line.bytes.items ≤ MOST_BYTES };
}

impl Line {
    /// A line with no bytes.
    fn new() -> Self
        ensures { result ≡ [] }
    {
        Line {
            bytes: ArrayVec::new(),
        }
    }

    /// The bytes of the line, in order.
    pub(crate) fn as_slice(&self) -> &[u8]
        ensures { result.now ≡ self.now }
    {
        self.bytes.as_slice()
    }

    /// Appends bytes.
    fn put(&mut self, piece: &[u8])
        requires { length self.old + length piece.now ≤ MOST_BYTES }
        ensures bytes { self.new ≡ self.old ++ piece.now }
        ensures len { length self.new ≡ length self.old + length piece.now }
    {
        let _ = self.bytes.try_extend_from_slice(piece);
    }
}

/// The line of a number with this name.
#[tactic(auto, unfolding(crate::specs::Lines::number_line))]
pub(crate) fn number_line(name: &[u8], number: u64) -> Line
    requires { length name.now ≤ LONGEST_NAME }
    ensures line { result ≡ number_line name.now number }
    ensures some { 0 < length result }
    ensures short { length result ≤ MOST_BYTES }
{
    let digits = digits_of(number);
    let mut line = Line::new();
    line.put(name);
    line.put(&digits);
    line.put(b"\n");
    line
}

/// The same where there may be no number.
pub(crate) fn option_line(name: &[u8], number: Option<u64>) -> Line
    requires { length name.now ≤ LONGEST_NAME }
    ensures line { result ≡ option_line name.now number }
    ensures some { 0 < length result }
    ensures short { length result ≤ MOST_BYTES }
{
    match number {
        Some(number) => number_line(name, number),
        None => none_line(name),
    }
}

/// The line of a name with no number.
fn none_line(name: &[u8]) -> Line
    requires { length name.now ≤ LONGEST_NAME }
    ensures line { result ≡ option_line name.now None }
    ensures some { 0 < length result }
    ensures short { length result ≤ MOST_BYTES }
{
    let mut line = Line::new();
    line.put(name);
    line.put(b"none\n");
    line
}

/// The line of how many harts there are.
#[tactic(auto, unfolding(crate::specs::Lines::harts_line))]
pub(crate) fn harts_line(harts: u32) -> Line
    requires { harts ≤ 8 }
    ensures line { result ≡ harts_line harts }
    ensures some { 0 < length result }
    ensures short { length result ≤ MOST_BYTES }
{
    let mut line = Line::new();
    line.put(b"harts ");
    line.put(&numeral_of(harts));
    line.put(b"\n");
    line
}

/// The decimal digit of a number of harts.
pub(crate) fn numeral_of(harts: u32) -> [u8; 1]
    requires { harts ≤ 8 }
    ensures { result ≡ decimal harts }
{
    [b'0' + harts as u8]
}

/// The line of a mode.
pub(crate) fn mode_line(mode: Mode) -> &'static [u8]
    ensures line { result.now ≡ mode_line mode }
    ensures some { 0 < length result.now }
    ensures short { length result.now ≤ MOST_BYTES }
{
    match mode {
        Mode::User => b"mode 0\n",
        Mode::Supervisor => b"mode 1\n",
        Mode::Machine => b"mode 3\n",
    }
}

/// The line that says whether the last row took a synchronous trap, and whether the hart halts.
pub(crate) fn flags_line(trapped_last: bool, halted: bool) -> &'static [u8]
    ensures line { result.now ≡ flags_line trapped_last halted }
    ensures some { 0 < length result.now }
    ensures short { length result.now ≤ MOST_BYTES }
{
    match (trapped_last, halted) {
        (false, false) => b"flags 00\n",
        (false, true) => b"flags 01\n",
        (true, false) => b"flags 10\n",
        (true, true) => b"flags 11\n",
    }
}

/// The line of the 16 bytes from an address on.
#[tactic(auto, unfolding(crate::specs::Lines::block_line))]
pub(crate) fn block_line(address: u64, bytes: &[u8; 16]) -> Line
    ensures line { result ≡ block_line address bytes.now }
    ensures some { 0 < length result }
    ensures short { length result ≤ MOST_BYTES }
{
    let address = digits_of(address);
    let digits = block_digits(bytes);
    let mut line = Line::new();
    line.put(b"@");
    line.put(&address);
    line.put(b" ");
    line.put(&digits);
    line.put(b"\n");
    line
}

/// The 16 hexadecimal digits of a number.
fn digits_of(number: u64) -> [u8; 16]
    ensures { result ≡ digits_of number }
{
    let mut digits = [0u8; 16];
    let _ = hex::encode_to_slice(number.to_be_bytes().as_slice(), &mut digits);
    digits
}

/// The 32 hexadecimal digits of 16 bytes.
fn block_digits(bytes: &[u8; 16]) -> [u8; 32]
    ensures { result ≡ encode_lower bytes.now }
{
    let mut digits = [0u8; 32];
    let _ = hex::encode_to_slice(bytes.as_slice(), &mut digits);
    digits
}
