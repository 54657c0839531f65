//! The values of options, read from their texts.

ghost use Rattle.std.specs.Prelude.{◌≡◌, ◌≤◌, ◌%◌, IfSome, option_map};
ghost use Rattle.judge_words.specs.Values.{number_of_text, number_up_to, even_in, image_limit_in, trace_limit_in, workers_in, segment_in, window_in, harts_in, block_size_in, misaligned_in, marks_in, bits_in, insn_bits_in, device_faults_in, number_at_most, made_number_in, made_rows_in, span_in, first_pc_in};

use hart_words::{DeviceFaults, InsnBits, Marks, Misaligned, Span, read_number};

/// Where the hart begins where a job gives no address.
pub const FIRST_PC: u64 = 0x8000_0000;

/// Where RAM begins, unless a job says otherwise.
pub const RAM_BASE: u64 = 0x8000_0000;

/// How many bytes RAM has, unless a job says otherwise.
pub const RAM_SIZE: u64 = 0x800_0000;

/// The most bytes that an image may be given.
pub const MOST_IMAGE_BYTES: u64 = 1 << 30;

/// The most bytes that a trace may be given.
pub const MOST_TRACE_BYTES: u64 = 1 << 40;

/// The most workers.
pub const MOST_WORKERS: u64 = 64;

/// The most lines of a segment.
pub const MOST_LINES: u64 = 1 << 20;

/// The most segments of a window.
pub const MOST_SEGMENTS: u64 = 1 << 10;

/// The most harts.
pub const MOST_HARTS: u64 = 8;

/// The most bytes of the block that LR reserves.
pub const MOST_BLOCK_BYTES: u64 = 4096;

/// The greatest number of a made trace.
pub const MOST_MADE_NUMBER: u64 = 0xffff_ffff;

/// The most rows of a made trace.
pub const MOST_MADE_ROWS: u64 = 1 << 18;

/// A number below 2^64.
#[tactic(auto, unfolding(crate::specs::Values::number_of_text))]
pub fn read_u64(text: &str) -> Option<u64>
    ensures { result ≡ number_of_text text.now }
{
    read_number(text.as_bytes(), 64).ok()
}

/// An even number, as the address of an instruction is.
#[tactic(auto, unfolding(crate::specs::Values::even_in))]
fn read_even(text: &str) -> Option<u64>
    ensures value { result ≡ even_in text.now }
    ensures even { IfSome result (λ value. value % 2 ≡ 0) }
{
    let value = read_u64(text)?;
    if value % 2 == 0 { Some(value) } else { None }
}

/// The address of the first instruction, which may be left out.
pub fn read_pc(text: Option<&str>) -> Option<Option<u64>>
    ensures value { result ≡ first_pc_in (option_map (λ text. text.now) text.entry) }
    ensures even { IfSome result (λ pc. IfSome pc (λ pc. pc % 2 ≡ 0)) }
{
    match text {
        None => Some(None),
        Some(text) => match read_even(text) {
            None => None,
            Some(pc) => Some(Some(pc)),
        },
    }
}

/// A number from 1 to `most`.
#[tactic(auto, unfolding(crate::specs::Values::number_up_to))]
fn read_up_to(text: &str, most: u64) -> Option<u64>
    ensures value { result ≡ number_up_to most text.now }
    ensures range { IfSome result (λ value. (1 ≤ value) × (value ≤ most)) }
{
    let value = read_u64(text)?;
    if 1 <= value && value <= most {
        Some(value)
    } else {
        None
    }
}

/// A number of bytes of an image, from 1 to 2^30.
pub fn read_image_limit(text: &str) -> Option<u64>
    ensures value { result ≡ image_limit_in text.now }
    ensures most { IfSome result (λ value. value ≤ MOST_IMAGE_BYTES) }
{
    read_up_to(text, MOST_IMAGE_BYTES)
}

/// A number of bytes of a trace, from 1 to 2^40.
pub fn read_trace_limit(text: &str) -> Option<u64>
    ensures value { result ≡ trace_limit_in text.now }
    ensures most { IfSome result (λ value. value ≤ MOST_TRACE_BYTES) }
{
    read_up_to(text, MOST_TRACE_BYTES)
}

/// A number of workers, from 1 to 64.
pub fn read_workers(text: &str) -> Option<u32>
    ensures value { result ≡ workers_in text.now }
    ensures range { IfSome result (λ value. (1 ≤ value) × (value ≤ MOST_WORKERS)) }
{
    let workers = read_up_to(text, MOST_WORKERS)?;
    Some(workers as u32)
}

/// A number of lines, from 1 to 2^20.
pub fn read_segment(text: &str) -> Option<usize>
    ensures value { result ≡ segment_in text.now }
    ensures range { IfSome result (λ value. (1 ≤ value) × (value ≤ MOST_LINES)) }
{
    let segment = read_up_to(text, MOST_LINES)?;
    Some(segment as usize)
}

/// A number of segments, from 1 to 2^10.
pub fn read_window(text: &str) -> Option<usize>
    ensures value { result ≡ window_in text.now }
    ensures range { IfSome result (λ value. (1 ≤ value) × (value ≤ MOST_SEGMENTS)) }
{
    let window = read_up_to(text, MOST_SEGMENTS)?;
    Some(window as usize)
}

/// A number of harts, from 1 to 8.
pub fn read_harts(text: &str) -> Option<u32>
    ensures value { result ≡ harts_in text.now }
    ensures range { IfSome result (λ value. (1 ≤ value) × (value ≤ MOST_HARTS)) }
{
    let harts = read_up_to(text, MOST_HARTS)?;
    Some(harts as u32)
}

/// A number of bytes of the block that LR reserves, from 1 to 4,096.
pub fn read_block_size(text: &str) -> Option<u16>
    ensures { result ≡ block_size_in text.now }
{
    let size = read_up_to(text, MOST_BLOCK_BYTES)?;
    Some(size as u16)
}

/// What misaligned loads and stores do: `trap` or `done`.
#[tactic(auto, unfolding(crate::specs::Values::misaligned_in))]
pub fn read_misaligned(text: &str) -> Option<Misaligned>
    ensures { result ≡ misaligned_in text.now }
{
    match text {
        "trap" => Some(Misaligned::Trap),
        "done" => Some(Misaligned::Done),
        _ => None,
    }
}

/// What becomes of an access whose page lacks A or D: `fault` or `set`.
#[tactic(auto, unfolding(crate::specs::Values::marks_in))]
pub fn read_marks(text: &str) -> Option<Marks>
    ensures { result ≡ marks_in text.now }
{
    match text {
        "fault" => Some(Marks::Fault),
        "set" => Some(Marks::Set),
        _ => None,
    }
}

/// Whether the extensions of bit manipulation are there: `on` or `off`.
#[tactic(auto, unfolding(crate::specs::Values::bits_in))]
pub fn read_bits(text: &str) -> Option<bool>
    ensures { result ≡ bits_in text.now }
{
    match text {
        "on" => Some(true),
        "off" => Some(false),
        _ => None,
    }
}

/// What rows show of an instruction of 16 bits: `full` or `length`.
#[tactic(auto, unfolding(crate::specs::Values::insn_bits_in))]
pub fn read_insn_bits(text: &str) -> Option<InsnBits>
    ensures { result ≡ insn_bits_in text.now }
{
    match text {
        "full" => Some(InsnBits::Full),
        "length" => Some(InsnBits::Length),
        _ => None,
    }
}

/// Whether a device may refuse an access: `none` or `row`.
#[tactic(auto, unfolding(crate::specs::Values::device_faults_in))]
pub fn read_device_faults(text: &str) -> Option<DeviceFaults>
    ensures { result ≡ device_faults_in text.now }
{
    match text {
        "none" => Some(DeviceFaults::Never),
        "row" => Some(DeviceFaults::ByRow),
        _ => None,
    }
}

/// A number up to `most`.
#[tactic(auto, unfolding(crate::specs::Values::number_at_most))]
fn read_at_most(text: &str, most: u64) -> Option<u64>
    ensures value { result ≡ number_at_most most text.now }
    ensures range { IfSome result (λ value. value ≤ most) }
{
    let value = read_u64(text)?;
    if value <= most { Some(value) } else { None }
}

/// The number of a made trace, below 2^32.
pub fn read_made_number(text: &str) -> Option<u32>
    ensures { result ≡ made_number_in text.now }
{
    let number = read_at_most(text, MOST_MADE_NUMBER)?;
    Some(number as u32)
}

/// A number of rows of a made trace, up to 2^18.
pub fn read_made_rows(text: &str) -> Option<u32>
    ensures { result ≡ made_rows_in text.now }
{
    let rows = read_at_most(text, MOST_MADE_ROWS)?;
    Some(rows as u32)
}

/// A range of addresses, as `BASE:SIZE`.
#[tactic(auto, unfolding(crate::specs::Values::span_in, crate::specs::Values::number_of_text))]
pub fn read_span(text: &str) -> Option<Span>
    ensures { result ≡ span_in text.now }
{
    let (base, size) = text.split_once(':')?;
    Span::new(read_u64(base)?, read_u64(size)?)
}
