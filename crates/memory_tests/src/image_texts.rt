use hart_words::Span;
use image_text::{FaultKind, ImageError, ImageFault, Pieces, read_image};
use std::alloc::Global;
use std::test::Fail;

fn ram() -> Result<Span, Fail> {
    Ok(Span::new(0x8000_0000, 0x1_0000).ok_or("no range")?)
}

fn fault_of(alloc: Global, text: &str, ram: Span) -> Option<ImageFault> {
    match read_image(alloc, text.as_bytes(), ram) {
        Err(ImageError::Fault(fault)) => Some(fault),
        _ => None,
    }
}

#[test]
fn bytes_of_a_text(rt: HostRuntime) -> Result<(), Fail> {
    let text = "// a program\n@80000000 93 00/*x*/50\t00\r\n@8000fFfF\x0caB // end";
    let pieces = read_image(rt.alloc(), text.as_bytes(), ram()?)?;
    assert_eq!(rt; pieces.byte(0x8000_0000), Some(0x93));
    assert_eq!(rt; pieces.byte(0x8000_0001), Some(0x00));
    assert_eq!(rt; pieces.byte(0x8000_0002), Some(0x50));
    assert_eq!(rt; pieces.byte(0x8000_0003), Some(0x00));
    assert_eq!(rt; pieces.byte(0x8000_0004), None);
    assert_eq!(rt; pieces.byte(0x8000_ffff), Some(0xab));
    assert_eq!(rt; pieces.byte(0x0000_ffff), None);
    assert_eq!(rt; pieces.pages().len(), 2);
    Ok(())
}

#[test]
fn bytes_put_together(rt: HostRuntime) -> Result<(), Fail> {
    let mut pieces = Pieces::empty(rt.alloc());
    pieces.put(rt.alloc(), 0xffe, 0x42)?;
    pieces.put_bytes(rt.alloc(), 0xffd, b"\x11\x22\x00")?;
    pieces.put_bytes(rt.alloc(), 0x5000, b"")?;
    for (address, byte) in [
        (0xffc, None),
        (0xffd, Some(0x11)),
        (0xffe, Some(0x22)),
        (0xfff, Some(0x00)),
        (0x1000, None),
        (0x5000, None),
    ] {
        assert_eq!(rt; pieces.byte(address), byte);
    }
    Ok(())
}

#[test]
fn faults_with_their_lines(rt: HostRuntime) -> Result<(), Fail> {
    for (text, kind, line) in [
        ("@80000000 9", FaultKind::BadByte, 1),
        ("@zz", FaultKind::BadAddress, 1),
        ("@12345678901234567", FaultKind::BadAddress, 1),
        ("@0 93", FaultKind::OutsideRam, 1),
        ("@8000ffff 93\n\n 00", FaultKind::OutsideRam, 3),
        ("@ffffffffffffffff 93", FaultKind::OutsideRam, 1),
        ("@80000000 93 @80000000 00", FaultKind::Overlap, 1),
        ("\n/* 93", FaultKind::OpenComment, 2),
        ("/*/ 93", FaultKind::OpenComment, 1),
        ("zz /*", FaultKind::BadByte, 1),
        ("/* \n \n */ 93@80000000", FaultKind::BadByte, 3),
        ("*/", FaultKind::BadByte, 1),
    ] {
        assert_eq!(rt;
            fault_of(rt.alloc(), text, ram()?),
            Some(ImageFault { kind, line })
        );
    }
    Ok(())
}

#[test]
fn texts_of_faults(rt: HostRuntime) -> Result<(), Fail> {
    let fault = ImageFault {
        kind: FaultKind::OutsideRam,
        line: 7,
    };
    let text = format!(in rt.alloc(); "{fault}")?;
    assert_eq!(rt; text.as_str(), "line 7: outside RAM");
    Ok(())
}
