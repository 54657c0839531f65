//! The lines that say who wrote what a row read.

ghost use Rattle.std.specs.Prelude.{◌≡◌, ◌≤◌, ◌+◌, ◌*◌, ◌++◌, length, flat_map};
ghost use Rattle.row_origin.specs.Origins.{origins_in};
ghost use Rattle.trace_report.specs.Origins.{byte_origin_text, origins_text, register_origin_text, writer_text};
ghost use Rattle.trace_report.specs.declared.origin_lines.TheConstants.{MOST_LINE};
ghost use Rattle.trace_report.specs.declared.text.TheConstants.{MOST_BYTES};

use crate::text::Text;
use row_origin::{ByteOrigin, Origins, RegisterOrigin};

/// The most bytes of the line for a register or a byte; there are at most ten such lines.
const MOST_LINE: usize = 60;

/// Appends a line for each register that a row read, and then for each byte of RAM.
#[tactic(auto, unfolding(crate::specs::Origins::origins_text))]
pub fn put_origins(text: &mut Text, origins: &Origins)
    requires { length text.old + 10 * MOST_LINE ≤ MOST_BYTES }
    ensures { text.new ≡ text.old ++ origins_text (origins_in origins.now) }
{
    put_registers(text, origins.registers());
    put_bytes(text, origins.bytes());
}

/// Appends a line for each register.
fn put_registers(text: &mut Text, origins: &[RegisterOrigin])
    requires { length text.old + length origins.now * MOST_LINE ≤ MOST_BYTES }
    ensures bytes { text.new ≡ text.old ++ flat_map register_origin_text origins.now }
    ensures len { length text.new ≤ length text.old + length origins.now * MOST_LINE }
{
    if let Some((origin, rest)) = origins.split_first() {
        put_register(text, *origin);
        put_registers(text, rest);
    }
}

/// Appends the line for a register.
#[tactic(auto, unfolding(crate::specs::Origins::register_origin_text))]
fn put_register(text: &mut Text, origin: RegisterOrigin)
    requires { length text.old + MOST_LINE ≤ MOST_BYTES }
    ensures bytes { text.new ≡ text.old ++ register_origin_text origin }
    ensures len { length text.new ≤ length text.old + MOST_LINE }
{
    text.put(b"origin x");
    text.put_decimal(u64::from(origin.number));
    put_writer(text, b"reset", origin.row);
}

/// Appends a line for each byte.
fn put_bytes(text: &mut Text, origins: &[ByteOrigin])
    requires { length text.old + length origins.now * MOST_LINE ≤ MOST_BYTES }
    ensures bytes { text.new ≡ text.old ++ flat_map byte_origin_text origins.now }
    ensures len { length text.new ≤ length text.old + length origins.now * MOST_LINE }
{
    if let Some((origin, rest)) = origins.split_first() {
        put_byte(text, *origin);
        put_bytes(text, rest);
    }
}

/// Appends the line for a byte.
#[tactic(auto, unfolding(crate::specs::Origins::byte_origin_text))]
fn put_byte(text: &mut Text, origin: ByteOrigin)
    requires { length text.old + MOST_LINE ≤ MOST_BYTES }
    ensures bytes { text.new ≡ text.old ++ byte_origin_text origin }
    ensures len { length text.new ≤ length text.old + MOST_LINE }
{
    text.put(b"origin byte ");
    text.put_hexadecimal(origin.address);
    put_writer(text, b"image", origin.row);
}

/// Appends the row that wrote it, or what it is from where no row did, to the end of the line.
fn put_writer(text: &mut Text, source: &[u8], row: Option<u64>)
    requires room { length text.old + 30 ≤ MOST_BYTES }
    requires short { length source.now ≤ 5 }
    ensures bytes { text.new ≡ text.old ++ writer_text source.now row }
    ensures len { length text.new ≤ length text.old + 30 }
{
    match row {
        None => {
            text.put(b" ");
            text.put(source);
            text.put(b"\n");
        }
        Some(row) => {
            text.put(b" row ");
            text.put_decimal(row);
            text.put(b"\n");
        }
    }
}
