use line_text::Lines;
use std::process::Abort;
use std::test::Fail;

fn check(rt: &impl Abort, lines: &Lines, wanted: &[&[u8]]) {
    assert_eq!(rt; lines.len(), wanted.len());
    assert_eq!(rt; lines.is_empty(), wanted.is_empty());
    for (number, line) in wanted.iter().enumerate() {
        assert_eq!(rt; lines.get(number), Some(*line));
    }
    assert_eq!(rt; lines.get(wanted.len()), None);
}

#[test]
fn keeps_lines(rt: HostRuntime) -> Result<(), Fail> {
    let mut lines = Lines::new(rt.alloc());
    check(&rt, &lines, &[]);
    lines.push(b"ab")?;
    lines.push(b"")?;
    lines.push(b"c\r")?;
    check(&rt, &lines, &[b"ab", b"", b"c\r"]);
    assert_eq!(rt; lines.text(), b"ab\n\nc\r\n".as_slice());
    Ok(())
}

#[test]
fn grows_past_its_capacity(rt: HostRuntime) -> Result<(), Fail> {
    let mut lines = Lines::with_capacity(rt.alloc(), 1, 3)?;
    check(&rt, &lines, &[]);
    lines.push(b"ab")?;
    check(&rt, &lines, &[b"ab"]);
    lines.push(b"cde")?;
    check(&rt, &lines, &[b"ab", b"cde"]);
    Ok(())
}
