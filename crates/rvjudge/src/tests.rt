use super::*;
use outside_ports::{Failed, MemSink};
use sink::write_counted;
use std::alloc::AllocError;
use std::fs;
use std::io::Write;
use std::test::Fail;

#[test]
fn reads_a_file_by_place(rt: HostRuntime) -> Result<(), Fail> {
    let name = "rvjudge_reads_by_place.tmp";
    fs::write(&rt, name, "abcdef")?;
    let mut shelf = FileShelf::new(rt.alloc(), &rt);
    let mut four = [0u8; 4];
    assert_eq!(rt; shelf.read(name, 0, &mut four), Ok(4));
    assert_eq!(rt; four, [b'a', b'b', b'c', b'd']);
    assert_eq!(rt; shelf.read(name, 4, &mut four), Ok(2));
    assert_eq!(rt; (four[0], four[1]), (b'e', b'f'));
    assert_eq!(rt; shelf.read(name, 6, &mut four), Ok(0));
    assert_eq!(rt; shelf.read(name, 1, &mut four), Ok(4));
    assert_eq!(rt; four, [b'b', b'c', b'd', b'e']);
    assert_eq!(rt; shelf.faults, 0);
    assert_eq!(rt; shelf.read("no_such_file", 0, &mut four), Err(Failed));
    assert_eq!(rt; shelf.read(".", 0, &mut four), Err(Failed));
    assert_eq!(rt; shelf.faults, 2);
    fs::remove_file(&rt, name)?;
    Ok(())
}

#[test]
fn writes_to_standard_output(rt: HostRuntime) -> Result<(), Fail> {
    let mut sink = OutSink::new(&rt);
    assert_eq!(rt; sink.write(b""), Ok(0));
    assert_eq!(rt; sink.write(b"\n"), Ok(1));
    assert_eq!(rt; sink.faults, 0);
    Ok(())
}

/// A writer that takes one byte a call, and nothing once it holds `most`.
#[derive(Drop)]
struct OneByte {
    held: Vec<u8>,
    most: usize,
}

impl Write for OneByte {
    fn write(&mut self, buf: &[u8]) -> io::Result<usize> {
        match buf.first() {
            Some(byte) if self.held.len() < self.most => {
                self.held.push(*byte)?;
                Ok(1)
            }
            _ => Ok(0),
        }
    }

    fn flush(&mut self) -> io::Result<()> {
        Ok(())
    }
}

#[test]
fn counts_what_a_slow_writer_takes(rt: HostRuntime) -> Result<(), Fail> {
    let mut to = OneByte {
        held: Vec::new(rt.alloc()),
        most: 3,
    };
    let mut faults = 0;
    let text = b"agree";
    for place in 0..3 {
        let taken = write_counted(&mut to, &text[place..], &mut faults);
        assert_eq!(rt; taken, Ok(1));
    }
    assert_eq!(rt; to.held.as_slice(), b"agr".as_slice());
    assert_eq!(rt; write_counted(&mut to, b"ee", &mut faults), Err(Failed));
    assert_eq!(rt; write_counted(&mut to, b"", &mut faults), Ok(0));
    assert_eq!(rt; faults, 1);
    Ok(())
}

fn words_of(alloc: Global, words: &[&str]) -> Result<Vec<String>, AllocError> {
    let mut list = Vec::new(alloc);
    for word in words {
        list.push(String::from_str(alloc, *word)?)?;
    }
    Ok(list)
}

#[test]
fn ends_with_each_status(rt: HostRuntime) -> Result<(), Fail> {
    let alloc = rt.alloc();
    let files = [
        ("rvjudge_statuses_image.tmp", "@80000000 93 00 50 00"),
        ("rvjudge_statuses_no_image.tmp", "@80000000\n9"),
        (
            "rvjudge_statuses_agrees.tmp",
            "insn,pc_rdata,rd_addr,rd_wdata\n0x00500093,0x80000000,1,5\n",
        ),
        (
            "rvjudge_statuses_differs.tmp",
            "insn,pc_rdata,rd_addr,rd_wdata\n0x00500093,0x80000000,1,6\n",
        ),
        ("rvjudge_statuses_no_trace.tmp", "insn\n"),
    ];
    for (name, text) in files {
        fs::write(&rt, name, text)?;
    }
    let cases: [(&str, &str, u8, &[u8]); 7] = [
        ("image", "agrees", 0, b"agrees 1\n"),
        (
            "image",
            "differs",
            1,
            b"differs row 1: rd_wdata expected 0x0000000000000005 found 0x0000000000000006\n",
        ),
        ("image", "", 2, b"refused words\n"),
        (
            "no_image",
            "agrees",
            3,
            b"refused image: line 2: bad byte\n",
        ),
        (
            "image",
            "no_trace",
            4,
            b"refused trace: no column pc_rdata\n",
        ),
        ("image", "missing", 5, b""),
        ("missing", "agrees", 5, b""),
    ];
    for (image, trace, status, text) in cases {
        let image = format!(in alloc; "rvjudge_statuses_{image}.tmp")?;
        let name = format!(in alloc; "rvjudge_statuses_{trace}.tmp")?;
        let mut words = words_of(alloc, &["rvjudge", "judge"])?;
        words.push(image)?;
        if !trace.is_empty() {
            words.push(name)?;
        }
        let mut shelf = FileShelf::new(alloc, &rt);
        let mut sink = MemSink::new(alloc);
        let code = exit_code(&rt, alloc, &words, &mut shelf, &mut sink);
        assert_eq!(rt; code, ExitCode::from(status));
        assert_eq!(rt; sink.held.as_slice(), text);
    }
    for (name, _) in files {
        fs::remove_file(&rt, name)?;
    }
    Ok(())
}
