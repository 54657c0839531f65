use super::states::{BLOCK, END, platform, text_of_two, text_with};
use hart_step::Harts;
use hart_words::PhysMem;
use outside_ports::{FailSink, MemSink, Sink};
use page_image::PageImage;
use page_layers::Layered;
use state_text::{MOST_HARTS, read_state, write_state};
use std::alloc::Global;
use std::test::Fail;

/// Writes the state of so many harts that a text says.
fn write_again<S: Sink>(
    alloc: Global,
    text: &[u8],
    harts: u32,
    sink: &mut S,
) -> Result<bool, Fail> {
    if harts == 0 || harts > MOST_HARTS {
        return Ok(false);
    }
    let platform = platform()?;
    let state = read_state(alloc, text, &platform, harts)?;
    let image = PageImage::build(alloc, &state.pieces, platform.map.ram)?;
    let set = Harts {
        cores: state.cores,
        mem: Layered::over(alloc, &image),
    };
    Ok(write_state(&set, sink).is_ok())
}

/// The text of memory that has bytes in each block of three pages but one.
fn long_text(alloc: Global) -> Result<Vec<u8>, Fail> {
    let mut text = text_with(alloc, BLOCK, "")?;
    text.truncate(text.len().saturating_sub(4));
    for k in 0..768u64 {
        if k != 300 {
            let address = 0x8000_3000 + 16 * k;
            let line = format!(in alloc; "@{address:016x} {:032x}\n", 0x1000 + k)?;
            text.extend_from_slice(line.as_bytes())?;
        }
    }
    text.extend_from_slice(b"end\n")?;
    Ok(text)
}

#[test]
fn texts_are_written_again(rt: HostRuntime) -> Result<(), Fail> {
    for (line, other) in [
        (0, ""),
        (2, "pc 0123456789abcdee\n"),
        (3, "mode 0\n"),
        (3, "mode 1\n"),
        (4, "order none\n"),
        (5, "flags 01\n"),
        (5, "flags 10\n"),
        (6, "reserved 000000008000ffc0\n"),
        (7, "x1 fedcba9876543210\n"),
        (37, "x31 fedcba9876543210\n"),
        (38, "csr_mstatus 0000000a00001800\n"),
        (43, "csr_stvec 0000000000000101\n"),
        (58, "csr_satp 8000000000000123\n"),
        (59, "csr_pmpcfg0 9f00000000000001\n"),
        (60, "csr_pmpcfg2 000000000000991f\n"),
        (76, "csr_pmpaddr15 003fffffffffffff\n"),
        (BLOCK, ""),
        (
            END,
            "@000000008000fff0 00000000000000000000000000000001\nend\n",
        ),
    ] {
        let text = text_with(rt.alloc(), line, other)?;
        let mut sink = MemSink::new(rt.alloc());
        assert!(&rt; write_again(rt.alloc(), text.as_slice(), 1, &mut sink)?);
        assert_eq!(&rt; sink.held.as_slice(), text.as_slice(), "line {line}");
    }
    Ok(())
}

#[test]
fn long_texts_are_written_in_pieces(rt: HostRuntime) -> Result<(), Fail> {
    let text = long_text(rt.alloc())?;
    let mut sink = MemSink::new(rt.alloc());
    assert!(&rt; write_again(rt.alloc(), text.as_slice(), 1, &mut sink)?);
    assert_eq!(&rt; sink.held.as_slice(), text.as_slice());
    Ok(())
}

/// Where a write fails, the sink has a front of the text.
#[test]
fn failing_sinks_have_a_front(rt: HostRuntime) -> Result<(), Fail> {
    let text = long_text(rt.alloc())?;
    for room in [0, 1, 2_500, 8_192, 20_000, 40_000] {
        let mut sink = FailSink::new(rt.alloc(), room)?;
        assert!(&rt; !write_again(rt.alloc(), text.as_slice(), 1, &mut sink)?);
        assert_eq!(&rt; Some(sink.held.as_slice()), text.as_slice().get(..room));
        assert_eq!(&rt; sink.faults, 1);
    }
    Ok(())
}

/// What was written since the image was read is in the text.
#[test]
fn stores_are_written(rt: HostRuntime) -> Result<(), Fail> {
    let text = text_with(rt.alloc(), 0, "")?;
    let platform = platform()?;
    let state = read_state(rt.alloc(), text.as_slice(), &platform, 1)?;
    let ram = platform.map.ram;
    let image = PageImage::build(rt.alloc(), &state.pieces, ram)?;
    let mut mem = Layered::over(rt.alloc(), &image);
    assert!(&rt; ram.is_place(0x8000_0000, 8));
    mem.write(0x8000_0000, 8, 0)?;
    assert!(&rt; ram.is_place(0x8000_fff8, 8));
    mem.write(0x8000_fff8, 8, 0x8877_6655_4433_2211)?;
    let set = Harts {
        cores: state.cores,
        mem,
    };
    let mut sink = MemSink::new(rt.alloc());
    assert!(&rt; write_state(&set, &mut sink).is_ok());
    let line = "@000000008000fff0 00000000000000001122334455667788\n";
    let wanted = text_with(rt.alloc(), BLOCK, line)?;
    assert_eq!(&rt; sink.held.as_slice(), wanted.as_slice());
    Ok(())
}

/// The text of two harts, whose second has other values.
#[test]
fn texts_of_two_harts_are_written_again(rt: HostRuntime) -> Result<(), Fail> {
    for (line, other) in [
        (0, ""),
        (2, "pc 0123456789abcdee\n"),
        (6, "reserved 000000008000ffc0\n"),
        (7, "x1 fedcba9876543210\n"),
        (76, "csr_pmpaddr15 003fffffffffffff\n"),
    ] {
        let text = text_of_two(rt.alloc(), "harts 2\n", line, other)?;
        let mut sink = MemSink::new(rt.alloc());
        assert!(&rt; write_again(rt.alloc(), text.as_slice(), 2, &mut sink)?);
        assert_eq!(&rt; sink.held.as_slice(), text.as_slice(), "line {line}");
    }
    let text = text_of_two(rt.alloc(), "harts 2\n", 0, "")?;
    for room in [0, 9, 17, 1_000, 3_000] {
        let mut sink = FailSink::new(rt.alloc(), room)?;
        assert!(&rt; !write_again(rt.alloc(), text.as_slice(), 2, &mut sink)?);
        assert_eq!(&rt; Some(sink.held.as_slice()), text.as_slice().get(..room));
        assert_eq!(&rt; sink.faults, 1);
    }
    Ok(())
}
