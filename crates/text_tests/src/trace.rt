use outside_ports::{DripShelf, FailShelf, MemShelf, NamedFile};
use std::alloc::{AllocError, Global};
use std::test::Fail;
use trace_lines::{Ending, LineError, LineTaker};

/// One file of this text.
fn files(alloc: Global, text: &[u8]) -> Result<Vec<NamedFile>, AllocError> {
    let mut files = Vec::new(alloc);
    let name = String::from_str(alloc, "t")?;
    let bytes = Vec::from_slice(alloc, text)?;
    files.push(NamedFile { name, bytes })?;
    Ok(files)
}

/// All lines of a text, each followed by a bar, and the ending. A read gives at most a byte more
/// than `drip`, and the lines are taken so many at a time.
fn taken_lines(
    alloc: Global,
    text: &[u8],
    most: u32,
    drip: u16,
    asked: usize,
) -> Result<(Vec<u8>, Ending), Fail> {
    let mut shelf = DripShelf::new(files(alloc, text)?, usize::from(drip) + 1);
    let mut taker = LineTaker::open(alloc, "t", u64::from(most))?;
    let mut lines = Vec::new(alloc);
    for _ in 0..9 {
        let (piece, next) = taker.next_lines(&mut shelf, asked.max(1))?;
        for number in 0..piece.lines.len() {
            if let Some(line) = piece.lines.get(number) {
                lines.extend_from_slice(line)?;
                lines.push(b'|')?;
            }
        }
        if piece.ending != Ending::More {
            return Ok((lines, piece.ending));
        }
        taker = next;
    }
    Ok((lines, Ending::More))
}

/// How a file is read, and how many lines are taken at a time.
const WAYS: [(u16, usize); 6] = [
    (0, 1),
    (0, usize::MAX),
    (1, 2),
    (2, 1),
    (6, 3),
    (65_535, usize::MAX),
];

#[test]
fn takes_lines(rt: HostRuntime) -> Result<(), Fail> {
    let cases = [
        (b"".as_slice(), 9, b"".as_slice(), Ending::End),
        (b"\n\r\n\n", 9, b"", Ending::End),
        (b"ab\r\ncde", 9, b"ab|cde|", Ending::End),
        (b"ab\ncd\r\r\n", 9, b"ab|cd\r|", Ending::End),
        (b"a\n\nbc\nd", 9, b"a|bc|d|", Ending::End),
        (b"\xef\xbb\xbfab\n", 9, b"ab|", Ending::End),
        (b"\xef\xbb\xbf\nab", 9, b"ab|", Ending::End),
        (
            b"\xef\xbb\xbf\xef\xbb\xbf",
            9,
            b"\xef\xbb\xbf|",
            Ending::End,
        ),
        (
            b"\xef\xbb\n\xef\xbb\xbf",
            9,
            b"\xef\xbb|\xef\xbb\xbf|",
            Ending::End,
        ),
        (b"ab\ncde\n", 7, b"ab|cde|", Ending::End),
        (b"ab\ncde\n", 6, b"ab|", Ending::TooLarge),
        (b"ab\ncde\n", 3, b"ab|", Ending::TooLarge),
        (b"ab\ncde\n", 2, b"", Ending::TooLarge),
        (b"ab\ncde\n", 0, b"", Ending::TooLarge),
        (b"\xef\xbb\xbfab\n", 3, b"", Ending::TooLarge),
    ];
    for (text, most, lines, ending) in cases {
        for (drip, asked) in WAYS {
            let (found, end) = taken_lines(rt.alloc(), text, most, drip, asked)?;
            assert_eq!(rt; (found.as_slice(), end), (lines, ending));
        }
    }
    Ok(())
}

#[test]
fn bounds_a_line(rt: HostRuntime) -> Result<(), Fail> {
    let cases = [
        (65_536, b"".as_slice(), 99_999, 65_537, Ending::End),
        (65_536, b"\nb", 99_999, 65_539, Ending::End),
        (65_536, b"\nb", 65_539, 65_537, Ending::TooLarge),
        (65_536, b"\nb", 65_538, 0, Ending::TooLarge),
        (65_535, b"\r\n", 99_999, 65_536, Ending::End),
        (65_536, b"\r\n", 99_999, 0, Ending::TooLong(3)),
        (65_536, b"\r", 99_999, 0, Ending::TooLong(3)),
        (65_537, b"", 99_999, 0, Ending::TooLong(3)),
        (65_537, b"\nb", 65_539, 0, Ending::TooLong(3)),
        (65_537, b"\nb", 65_538, 0, Ending::TooLarge),
    ];
    for (length, tail, most, bytes, ending) in cases {
        let mut text = Vec::from_slice(rt.alloc(), b"\n\n")?;
        for _ in 0..length {
            text.push(b'a')?;
        }
        text.extend_from_slice(tail)?;
        for (drip, asked) in [(6, 2), (4095, 1), (65_535, usize::MAX)] {
            let (found, end) = taken_lines(rt.alloc(), text.as_slice(), most, drip, asked)?;
            assert_eq!(rt; (found.len(), end), (bytes, ending));
        }
    }
    Ok(())
}

/// A shelf with one text, whose listed reads fail.
fn failing(alloc: Global, text: &[u8], reads: &[u64]) -> Result<FailShelf, AllocError> {
    let shelf = MemShelf::new(files(alloc, text)?);
    Ok(FailShelf::new(shelf, Vec::from_slice(alloc, reads)?))
}

#[test]
fn reads_as_lines_are_asked_for(rt: HostRuntime) -> Result<(), Fail> {
    let alloc = rt.alloc();
    let mut shelf = failing(alloc, b"a\n\nbc\nd", &[])?;
    let mut taker = LineTaker::open(alloc, "t", 100)?;
    let calls = [
        (2, 2, Ending::More, 1),
        (1, 1, Ending::More, 2),
        (1, 0, Ending::End, 2),
        (1, 0, Ending::End, 2),
    ];
    for (asked, lines, ending, reads) in calls {
        let (piece, next) = taker.next_lines(&mut shelf, asked)?;
        assert_eq!(rt;
            (piece.lines.len(), piece.ending, shelf.calls),
            (lines, ending, reads)
        );
        taker = next;
    }
    let mut shelf = failing(alloc, b"a\nbc", &[])?;
    let taker = LineTaker::open(alloc, "t", 3)?;
    let (piece, _) = taker.next_lines(&mut shelf, usize::MAX)?;
    assert_eq!(rt;
        (piece.lines.len(), piece.ending, shelf.calls),
        (1, Ending::TooLarge, 1)
    );
    Ok(())
}

#[test]
fn fails_with_the_shelf(rt: HostRuntime) -> Result<(), Fail> {
    let alloc = rt.alloc();
    let mut shelf = failing(alloc, b"a\nbc", &[2])?;
    let taker = LineTaker::open(alloc, "t", 100)?;
    let (_, taker) = taker.next_lines(&mut shelf, 1)?;
    let failed = matches!(taker.next_lines(&mut shelf, 1), Err(LineError::ReadFault));
    assert!(rt; failed);
    assert_eq!(rt; shelf.calls, 2);
    Ok(())
}
