ghost use Rattle.std.specs.Prelude.{◌<◌};

use csv_line::{Fields, LineRead, LineReader, line_fields};
use std::alloc::Global;
use std::process::Abort;
use std::test::Fail;

fn check(rt: &impl Abort, alloc: Global, line: &[u8], wanted: &[&[u8]]) -> Result<(), Fail> {
    let fields = line_fields(alloc, line)?;
    assert_eq!(rt; fields.len(), wanted.len());
    assert_eq!(rt; fields.is_empty(), wanted.is_empty());
    for (index, field) in wanted.iter().enumerate() {
        assert_eq!(rt; fields.get(index), Some(*field));
    }
    assert_eq!(rt; fields.get(wanted.len()), None);
    Ok(())
}

#[test]
fn reads_lines(rt: HostRuntime) -> Result<(), Fail> {
    let alloc = rt.alloc();
    check(
        &rt,
        alloc,
        b"insn, pc_rdata\t,,valid",
        &[b"insn", b"pc_rdata", b"", b"valid"],
    )?;
    // Blanks inside quotes fall too; a quote inside a field is a byte.
    check(&rt, alloc, b"\" a,b \",c\"d", &[b"a,b", b"c\"d"])?;
    // A quote that is never closed takes the rest of the line.
    check(&rt, alloc, b"\"a,b", &[b"a,b"])?;
    check(&rt, alloc, b" \t", &[b""])?;
    // A byte order mark is no record.
    check(&rt, alloc, b"\xef\xbb\xbf", &[])?;
    check(&rt, alloc, b"", &[])
}

/// What a reader of lines gives of the next line is what the line gives alone.
fn check_next(
    rt: &impl Abort,
    alloc: Global,
    reader: &mut LineReader,
    fields: &mut Fields,
    line: &[u8],
) -> Result<(), Fail> {
    let has_return = line.iter().any(|byte| *byte == b'\r');
    let read = reader.next(fields)?;
    assert_eq!(rt; read, Some(LineRead { has_return }));
    let alone = line_fields(alloc, line)?;
    assert_eq!(rt; fields.len(), alone.len());
    for index in 0..alone.len() {
        assert_eq!(rt; fields.get(index), alone.get(index));
    }
    Ok(())
}

/// Reads lines as one text, whose last line feed may be missing after a line with bytes.
fn check_all(rt: &impl Abort, alloc: Global, lines: &[Vec<u8>], closed: bool) -> Result<(), Fail> {
    let mut text = Vec::new(alloc);
    for (index, line) in lines.iter().enumerate() {
        text.extend_from_slice(line)?;
        if closed || line.is_empty() || index != lines.len().saturating_sub(1) {
            text.push(b'\n')?;
        }
    }
    let mut reader = LineReader::new(alloc, &text);
    let mut fields = Fields::new(alloc);
    for line in lines {
        check_next(rt, alloc, &mut reader, &mut fields, line)?;
    }
    assert_eq!(rt; reader.next(&mut fields)?, None);
    Ok(())
}

#[test]
fn reads_lines_among_others(rt: HostRuntime) -> Result<(), Fail> {
    let alloc = rt.alloc();
    let mut lines = Vec::new(alloc);
    let texts: [&[u8]; 20] = [
        b"insn,pc_rdata",
        b" 1 ,\t2",
        b"\"1\",\" 2 \",\"\"",
        b"3,4,5",
        b"\"a\"\"b\",\"c,d\",e\"f",
        b"6",
        b"",
        b"7,8",
        b"\xef\xbb\xbf9,10",
        b"11,\xef\xbb\xbf",
        b"\"never, closed",
        b"12,13",
        b"\"a\"b\"c,\"",
        b"14\r",
        b"15,16",
        b"\r",
        b",",
        b"\"\"\"\"",
        b"\"",
        b"17,\"18",
    ];
    for text in &texts {
        lines.push(Vec::from_slice(alloc, *text)?)?;
    }
    check_all(&rt, alloc, &lines, true)?;
    check_all(&rt, alloc, &lines, false)
}

#[test]
fn reads_lines_of_a_text_with_no_quote(rt: HostRuntime) -> Result<(), Fail> {
    let alloc = rt.alloc();
    let mut lines = Vec::new(alloc);
    let texts: [&[u8]; 6] = [
        b"insn,pc_rdata",
        b" 1 ,\t2",
        b"",
        b"\xef\xbb\xbf3,4",
        b",",
        b"5,6",
    ];
    for text in &texts {
        lines.push(Vec::from_slice(alloc, *text)?)?;
    }
    check_all(&rt, alloc, &lines, true)?;
    check_all(&rt, alloc, &lines, false)
}

/// Numbers that follow no order, the same in every run.
#[derive(Clone, Copy)]
struct Numbers {
    last: u64,
}

impl Numbers {
    /// The next one, below a bound.
    fn below(&mut self, bound: usize) -> usize
        requires { 0 < bound }
        ensures { result < bound }
    {
        let number = self.last ^ (self.last << 13);
        let number = number ^ (number >> 7);
        self.last = number ^ (number << 17);
        (self.last >> 20) as usize % bound
    }
}

/// Adds fewer bytes than `bound`, of any kind.
fn push_any(numbers: &mut Numbers, bound: usize, line: &mut Vec<u8>) -> Result<(), Fail>
    requires { 0 < bound }
{
    let bytes = b"012abx,,,,\"\"\" \t\r\xef\xbb\xbf";
    for _ in 0..numbers.below(bound) {
        line.push(bytes[numbers.below(bytes.len())])?;
    }
    Ok(())
}

/// Adds a field in quotes, which close before its comma, before another byte, or not at all.
fn push_quoted(numbers: &mut Numbers, line: &mut Vec<u8>) -> Result<(), Fail> {
    line.push(b'"')?;
    push_any(numbers, 5, line)?;
    let end: &[u8] = match numbers.below(4) {
        0 | 1 => b"\",",
        2 => b"\"a,",
        _ => b",",
    };
    line.extend_from_slice(end)?;
    Ok(())
}

/// A line of at most 20 bytes: after a byte order mark, with fields in quotes, or of any bytes.
fn any_line(alloc: Global, numbers: &mut Numbers) -> Result<Vec<u8>, Fail> {
    let mut line = Vec::new(alloc);
    match numbers.below(8) {
        0 => {
            line.extend_from_slice(b"\xef\xbb\xbf")?;
            push_any(numbers, 18, &mut line)?;
        }
        1 | 2 => {
            push_quoted(numbers, &mut line)?;
            push_quoted(numbers, &mut line)?;
            push_any(numbers, 5, &mut line)?;
        }
        _ => push_any(numbers, 21, &mut line)?,
    }
    Ok(line)
}

#[test]
fn reads_any_lines_among_others(rt: HostRuntime) -> Result<(), Fail> {
    let alloc = rt.alloc();
    let mut numbers = Numbers {
        last: 88172645463325252,
    };
    for round in 0..100u32 {
        let mut lines = Vec::new(alloc);
        for _ in 0..1000u32 {
            lines.push(any_line(alloc, &mut numbers)?)?;
        }
        check_all(&rt, alloc, &lines, round % 2 == 0)?;
    }
    Ok(())
}
