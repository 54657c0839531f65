//! The image: six instructions from the start of RAM on.

ghost use Rattle.std.specs.Prelude.{◌≡◌, ◌++◌, ◌∷◌, [], IfOk, OnOk};
ghost use Rattle.hex.specs.Hex.{encode_lower};
ghost use Rattle.trace_maker.specs.Texts.{made_image, made_words, made_bytes, spaced};

use crate::instructions::{AUIPC, JAL, LD, SD, XOR, addi};
use crate::text::Text;
use hart_words::NoMemory;
use std::alloc::Global;

/// How long the text is: the address, and three characters for each of 24 bytes.
const ROOM: usize = 82;

/// The text of the image for a number.
#[tactic(auto, unfolding(crate::specs::Texts::made_image))]
pub fn image_text(alloc: Global, number: u32) -> Result<Vec<u8>, NoMemory>
    ensures { IfOk result (λ text. text.items ≡ made_image number) }
{
    let bytes = made_bytes(alloc, number)?;
    let mut text = Text::with_room(alloc, ROOM)?;
    text.put(b"@80000000\n")?;
    put_spaced(&mut text, &bytes)?;
    text.put(b"\n")?;
    Ok(text.into_bytes())
}

/// The instructions in order.
fn made_words(number: u32) -> [u32; 6]
    ensures { result ≡ made_words number }
{
    [AUIPC, addi(number), XOR, SD, LD, JAL]
}

/// The bytes of the instructions, each little-endian.
fn made_bytes(alloc: Global, number: u32) -> Result<Vec<u8>, NoMemory>
    ensures { IfOk result (λ bytes. bytes.items ≡ made_bytes number) }
{
    let mut bytes = Vec::with_capacity(alloc, 24)?;
    for word in &made_words(number) {
        bytes.extend_from_slice(&word.to_le_bytes())?;
    }
    Ok(bytes)
}

/// Appends two hexadecimal digits for each byte, with a blank between each two bytes.
fn put_spaced(text: &mut Text, bytes: &[u8]) -> Result<(), NoMemory>
    ensures { OnOk result (text.new ≡ text.old ++ spaced bytes.now) }
{
    let Some((first, others)) = bytes.split_first() else {
        return Ok(());
    };
    put_byte(text, *first)?;
    for byte in others {
        text.put(b" ")?;
        put_byte(text, *byte)?;
    }
    Ok(())
}

/// Appends the two hexadecimal digits of a byte.
fn put_byte(text: &mut Text, byte: u8) -> Result<(), NoMemory>
    ensures { OnOk result (text.new ≡ text.old ++ encode_lower (byte ∷ [])) }
{
    text.put_digits(&[byte])
}
