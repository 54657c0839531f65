use csr_file::CsrProfile;
use hart_words::{Choices, Marks, Misaligned, TrapValues};
use judge_words::{Command, FIRST_PC, Job, Product, WordError, read_words};
use std::alloc::{AllocError, Global};
use std::process::Abort;
use std::test::Fail;

pub fn job_at(alloc: Global, words: &[&str]) -> Result<Result<Job, WordError>, AllocError> {
    let mut list = Vec::new(alloc);
    for word in words {
        list.push(String::from_str(alloc, *word)?)?;
    }
    Ok(read_words(alloc, &list))
}

/// A job's pc where one is given, the base and the size of its RAM, and its limits.
type Numbers = (Option<u64>, u64, u64, u64, u64);

fn takes(
    rt: &impl Abort,
    alloc: Global,
    words: &[&str],
    files: (&str, &str),
    numbers: Numbers,
) -> Result<(), Fail> {
    let job = job_at(alloc, words)??;
    match &job.command {
        Command::Judge { image, trace, .. } => {
            assert_eq!(rt; image.as_str(), files.0);
            assert_eq!(rt; trace.as_str(), files.1);
        }
        Command::Make { .. } => assert!(rt; false),
    }
    assert_eq!(rt; job.pc, numbers.0);
    assert_eq!(rt; job.map.ram.base, numbers.1);
    assert_eq!(rt; job.map.ram.size, numbers.2);
    assert_eq!(rt; job.max_image, numbers.3);
    assert_eq!(rt; job.max_trace, numbers.4);
    Ok(())
}

pub fn refuses(rt: &impl Abort, alloc: Global, words: &[&str]) -> Result<(), Fail> {
    let is_refused = matches!(job_at(alloc, words)?, Err(WordError::NotAJob));
    assert!(rt; is_refused);
    Ok(())
}

const DEFAULTS: Numbers = (None, 0x8000_0000, 0x800_0000, 1 << 30, 1 << 40);

#[test]
fn takes_jobs(rt: HostRuntime) -> Result<(), Fail> {
    let alloc = rt.alloc();
    let named: [(&[&str], &str, &str); 6] = [
        (&["rvjudge", "judge", "i", "t"], "i", "t"),
        (&["", "judge", "help", "t"], "help", "t"),
        (&["rvjudge", "judge", "-", ""], "-", ""),
        (&["rvjudge", "judge", "--", "-i", "--pc"], "-i", "--pc"),
        (
            &["rvjudge", "judge", "i", "--", "--origin"],
            "i",
            "--origin",
        ),
        (&["rvjudge", "judge", "i", "t", "--"], "i", "t"),
    ];
    for (words, image, trace) in named {
        takes(&rt, alloc, words, (image, trace), DEFAULTS)?;
    }
    let words = [
        "rvjudge",
        "judge",
        "--pc=0X10",
        "i",
        "--ram",
        "4096:0x2000",
        "t",
        "--max-image",
        "010",
        "--max-trace=1",
    ];
    takes(
        &rt,
        alloc,
        &words,
        ("i", "t"),
        (Some(16), 4096, 8192, 10, 1),
    )
}

/// What is written of a trace. After `--` the flag is a file's name.
#[test]
fn takes_origins(rt: HostRuntime) -> Result<(), Fail> {
    let lines: [(&[&str], Product); 9] = [
        (&["rvjudge", "judge", "i", "t"], Product::Line),
        (
            &["rvjudge", "judge", "i", "t", "--origin"],
            Product::Origins,
        ),
        (
            &["rvjudge", "judge", "--origin", "i", "t"],
            Product::Origins,
        ),
        (
            &["rvjudge", "judge", "i", "--origin", "t", "--pc=2"],
            Product::Origins,
        ),
        (
            &[
                "rvjudge", "judge", "i", "t", "--pc", "2", "--origin", "--bits", "on",
            ],
            Product::Origins,
        ),
        (&["rvjudge", "judge", "i", "--", "--origin"], Product::Line),
        (
            &["rvjudge", "judge", "--origin", "i", "--", "--origin"],
            Product::Origins,
        ),
        (&["rvjudge", "state", "i", "t"], Product::State),
        (&["rvjudge", "state", "i", "--", "--origin"], Product::State),
    ];
    for (words, wanted) in lines {
        match &job_at(rt.alloc(), words)??.command {
            Command::Judge { product, .. } => assert_eq!(rt; *product, wanted),
            Command::Make { .. } => assert!(rt; false),
        }
    }
    Ok(())
}

#[test]
fn takes_devices(rt: HostRuntime) -> Result<(), Fail> {
    let lines: [(&[&str], Option<(u64, u64)>); 4] = [
        (&["rvjudge", "judge", "i", "t"], None),
        (
            &["rvjudge", "judge", "i", "t", "--io", "0x10000000:0x1000"],
            Some((0x1000_0000, 0x1000)),
        ),
        (
            &["rvjudge", "judge", "--io=0x7ffff000:0x1000", "i", "t"],
            Some((0x7fff_f000, 0x1000)),
        ),
        (
            &["rvjudge", "judge", "--io=0x88000000:8192", "i", "t"],
            Some((0x8800_0000, 0x2000)),
        ),
    ];
    for (words, devices) in lines {
        let job = job_at(rt.alloc(), words)??;
        assert_eq!(rt; job.map.ram.base, 0x8000_0000);
        assert_eq!(rt; job.map.io[0].map(|io| (io.base, io.size)), devices);
    }
    Ok(())
}

/// The last page below 2^56, where a range may end.
const LAST: u64 = (1 << 56) - 0x1000;

/// Each number at both ends of what is taken.
#[test]
fn takes_numbers_at_their_ends(rt: HostRuntime) -> Result<(), Fail> {
    let (pc, base, size, most, more) = DEFAULTS;
    let options: [(&str, Numbers); 14] = [
        ("--pc=0", (Some(0), base, size, most, more)),
        ("--pc=0x80000000", (Some(FIRST_PC), base, size, most, more)),
        (
            "--pc=18446744073709551614",
            (Some(u64::MAX - 1), base, size, most, more),
        ),
        (
            "--pc=0xfffffffffffffffe",
            (Some(u64::MAX - 1), base, size, most, more),
        ),
        ("--ram=0:4096", (pc, 0, 4096, most, more)),
        (
            "--ram=0xfffffffffff000:0x1000",
            (pc, LAST, 4096, most, more),
        ),
        ("--ram=0:0x100000000000000", (pc, 0, 1 << 56, most, more)),
        ("--ram=0:72057594037927936", (pc, 0, 1 << 56, most, more)),
        ("--max-image=1", (pc, base, size, 1, more)),
        ("--max-image=1073741824", (pc, base, size, 1 << 30, more)),
        ("--max-image=0x40000000", (pc, base, size, 1 << 30, more)),
        ("--max-trace=1", (pc, base, size, most, 1)),
        ("--max-trace=1099511627776", (pc, base, size, most, 1 << 40)),
        ("--max-trace=0x10000000000", (pc, base, size, most, 1 << 40)),
    ];
    for (option, numbers) in options {
        let words = ["rvjudge", "judge", "i", "t", option];
        takes(&rt, rt.alloc(), &words, ("i", "t"), numbers)?;
    }
    Ok(())
}

/// The range of devices may lie from 0 on, end at 2^56, and touch RAM on both sides.
#[test]
fn takes_devices_at_their_ends(rt: HostRuntime) -> Result<(), Fail> {
    let options = [
        ("--io=0:4096", (0, 4096)),
        ("--io=0:0x80000000", (0, 0x8000_0000)),
        ("--io=0xfffffffffff000:0x1000", (LAST, 4096)),
        (
            "--io=0x88000000:0xffffff78000000",
            (0x8800_0000, (1 << 56) - 0x8800_0000),
        ),
    ];
    for (option, devices) in options {
        let job = job_at(rt.alloc(), &["rvjudge", "judge", "i", "t", option])??;
        assert_eq!(rt; job.map.io[0].map(|io| (io.base, io.size)), Some(devices));
    }
    Ok(())
}

#[test]
fn takes_numbers_of_harts(rt: HostRuntime) -> Result<(), Fail> {
    let lines: [(&[&str], u32); 7] = [
        (&["rvjudge", "judge", "i", "t"], 1),
        (&["rvjudge", "judge", "i", "t", "--harts", "1"], 1),
        (&["rvjudge", "judge", "--harts=2", "i", "t"], 2),
        (&["rvjudge", "judge", "i", "t", "--harts=8"], 8),
        (&["rvjudge", "state", "i", "t", "--harts=0X8"], 8),
        (&["rvjudge", "state", "i", "t", "--harts", "03"], 3),
        (&["rvjudge", "make", "7", "3"], 1),
    ];
    for (words, harts) in lines {
        assert_eq!(rt; job_at(rt.alloc(), words)??.harts, harts);
    }
    Ok(())
}

/// How the words share the work out: workers, lines of a segment, segments of a window.
type Share = (u32, usize, usize);

#[test]
fn takes_shares(rt: HostRuntime) -> Result<(), Fail> {
    let options: [(&[&str], Share); 8] = [
        (&[], (4, 4096, 64)),
        (&["--workers", "1"], (1, 4096, 64)),
        (&["--workers=64"], (64, 4096, 64)),
        (&["--segment", "1"], (4, 1, 64)),
        (
            &["--segment=1048576", "--window=1024"],
            (4, 1_048_576, 1024),
        ),
        (&["--window", "1"], (4, 4096, 1)),
        (&["--segment", "0X10", "--workers=0x40"], (64, 16, 64)),
        (
            &["--workers", "010", "--segment=010", "--window=010"],
            (10, 10, 10),
        ),
    ];
    let alloc = rt.alloc();
    for command in [["judge", "i", "t"], ["make", "7", "10"]] {
        for (more, share) in options {
            let mut words = Vec::new(alloc);
            words.push("rvjudge")?;
            words.extend_from_slice(command.as_slice())?;
            words.extend_from_slice(more)?;
            let sharing = job_at(alloc, words.as_slice())??.sharing;
            assert_eq!(rt; (sharing.workers, sharing.segment, sharing.window), share);
        }
    }
    Ok(())
}

/// What `--misaligned`, `--mtval`, `--ad`, `--reserve` and `--bits` say.
type Said = (Misaligned, TrapValues, Marks, u16, bool);

fn said(choices: &Choices) -> Said {
    (
        choices.misaligned,
        choices.trap_values,
        choices.marks,
        choices.block_size,
        choices.bits,
    )
}

/// What is said where none of them is given.
const NONE_SAID: Said = (Misaligned::Trap, TrapValues::Value, Marks::Fault, 64, false);

#[test]
fn takes_choices(rt: HostRuntime) -> Result<(), Fail> {
    let (misaligned, values, marks, size, bits) = NONE_SAID;
    let lines: [(&[&str], Said); 14] = [
        (&[], NONE_SAID),
        (&["--misaligned", "trap"], NONE_SAID),
        (
            &["--misaligned=done"],
            (Misaligned::Done, values, marks, size, bits),
        ),
        (&["--mtval=value"], NONE_SAID),
        (
            &["--mtval", "zero"],
            (misaligned, TrapValues::Zero, marks, size, bits),
        ),
        (&["--ad", "fault"], NONE_SAID),
        (
            &["--ad", "set"],
            (misaligned, values, Marks::Set, size, bits),
        ),
        (&["--reserve", "0x40"], NONE_SAID),
        (&["--reserve", "8"], (misaligned, values, marks, 8, bits)),
        (&["--reserve=016"], (misaligned, values, marks, 16, bits)),
        (
            &["--reserve=0X1000"],
            (misaligned, values, marks, 4096, bits),
        ),
        (&["--bits", "off"], NONE_SAID),
        (&["--bits=on"], (misaligned, values, marks, size, true)),
        (
            &[
                "--bits=on",
                "--ad=set",
                "--reserve=2048",
                "--mtval=zero",
                "--misaligned=done",
            ],
            (Misaligned::Done, TrapValues::Zero, Marks::Set, 2048, true),
        ),
    ];
    let alloc = rt.alloc();
    for (more, wanted) in lines {
        let mut words = Vec::new(alloc);
        words.extend_from_slice(["rvjudge", "judge", "i", "t"].as_slice())?;
        words.extend_from_slice(more)?;
        assert_eq!(rt; said(&job_at(alloc, words.as_slice())??.choices), wanted);
    }
    Ok(())
}

#[test]
fn takes_numbers_of_made_traces(rt: HostRuntime) -> Result<(), Fail> {
    let lines: [(&[&str], u32, u32); 6] = [
        (&["rvjudge", "make", "0", "0"], 0, 0),
        (
            &["rvjudge", "make", "0xffffffff", "0x40000"],
            u32::MAX,
            262_144,
        ),
        (&["rvjudge", "make", "7", "0"], 7, 0),
        (&["rvjudge", "make", "0x7", "010"], 7, 10),
        (
            &["rvjudge", "make", "4294967295", "262144"],
            u32::MAX,
            262_144,
        ),
        (&["rvjudge", "make", "0", "--segment=7", "0x3e8"], 0, 1000),
    ];
    for (words, wanted, wanted_rows) in lines {
        let job = job_at(rt.alloc(), words)??;
        match &job.command {
            Command::Judge { .. } => assert!(rt; false),
            Command::Make { number, rows } => {
                assert_eq!(rt; (*number, *rows), (wanted, wanted_rows));
            }
        }
        assert_eq!(rt;
            (job.pc, job.map.ram.base, job.map.ram.size),
            (None, 0x8000_0000, 0x800_0000)
        );
        assert_eq!(rt; (job.max_image, job.max_trace), (1 << 30, 1 << 40));
        let io = job.map.io[0];
        assert!(rt; io.is_none());
        assert_eq!(rt; job.profile, CsrProfile::plain());
        assert_eq!(rt; said(&job.choices), NONE_SAID);
    }
    Ok(())
}

#[test]
fn refuses_other_words(rt: HostRuntime) -> Result<(), Fail> {
    let alloc = rt.alloc();
    let lines: [&[&str]; 43] = [
        &[],
        &["rvjudge"],
        &["rvjudge", "judge", "i"],
        &["rvjudge", "judge", "i", "t", "u"],
        &["rvjudge", "--", "judge", "i", "t"],
        &["rvjudge", "--pc=2", "judge", "i", "t"],
        &["rvjudge", "--help"],
        &["rvjudge", "-h"],
        &["rvjudge", "help"],
        &["rvjudge", "help", "judge"],
        &["rvjudge", "judge", "--help"],
        &["rvjudge", "--version"],
        &["rvjudge", "-V"],
        &["rvjudge", "judge", "i", "t", "--pc", "-2"],
        &["rvjudge", "judge", "i", "t", "--pc", "--", "2"],
        &["rvjudge", "judge", "i", "t", "--pc=2", "--pc=2"],
        &["rvjudge", "judge", "i", "t", "--workers", "0"],
        &["rvjudge", "judge", "i", "t", "--workers=4", "--workers=4"],
        &["rvjudge", "judge", "i", "t", "--segment", "0"],
        &["rvjudge", "judge", "i", "t", "--ad=set", "--ad=set"],
        &["rvjudge", "judge", "i", "t", "--harts=2", "--harts=2"],
        &["rvjudge", "judge", "i", "--origin"],
        &["rvjudge", "judge", "i", "t", "--origin", "x"],
        &["rvjudge", "judge", "i", "t", "--origin", "--origin"],
        &["rvjudge", "judge", "i", "t", "--pc", "--origin"],
        &["rvjudge", "judge", "i", "--pc", "--origin", "t"],
        &["rvjudge", "--origin", "judge", "i", "t"],
        &["rvjudge", "state", "i", "t", "--origin"],
        &["rvjudge", "state", "--origin", "i", "t"],
        &["rvjudge", "make", "7", "1", "--origin"],
        &["rvjudge", "make", "--origin", "7", "1"],
        &["rvjudge", "make"],
        &["rvjudge", "make", "7"],
        &["rvjudge", "make", "7", "1", "2"],
        &["rvjudge", "make", "4294967296", "1"],
        &["rvjudge", "make", "1", "262145"],
        &["rvjudge", "make", "0x100000000", "1"],
        &["rvjudge", "make", "1", "0x40001"],
        &["rvjudge", "make", "7", "x"],
        &["rvjudge", "make", "", "1"],
        &["rvjudge", "make", "7", "1", "--pc=0"],
        &["rvjudge", "make", "7", "1", "--window=0"],
        &[
            "rvjudge",
            "judge",
            "i",
            "t",
            "--segment",
            "8",
            "--segment=8",
        ],
    ];
    for words in lines {
        refuses(&rt, alloc, words)?;
    }
    Ok(())
}

/// No number, a number of no range, or one past a range; a value of the flag; and no option.
const OPTIONS: [&str; 39] = [
    "--pc=",
    "--pc=0x",
    "--pc=1",
    "--pc=2=3",
    "--pc=18446744073709551615",
    "--pc=18446744073709551616",
    "--pc=0x10000000000000000",
    "--origin=",
    "--origin=x",
    "--origins",
    "--origins=x",
    "--ram=4096",
    "--ram=0:0",
    "--ram=1:4096",
    "--ram=0:4095",
    "--ram=0:4097",
    "--ram=4095:4096",
    "--ram=0:4096:0",
    "--ram=0x100000000000000:4096",
    "--ram=0xfffffffffff000:0x2000",
    "--ram=0:0x100000000001000",
    "--ram=0xfffffffffffff000:4096",
    "--ram=4096:0xfffffffffffff000",
    "--io",
    "--io=",
    "--io=1:4096",
    "--io=0:0",
    "--io=0:4095",
    "--io=0:4097",
    "--io=0x100000000000000:4096",
    "--io=0xfffffffffff000:0x2000",
    "--io=0:0x80001000",
    "--io=0x80000000:0x1000",
    "--io=0x7ffff000:0x2000",
    "--io=0x87fff000:0x1000",
    "--max-image=0",
    "--max-image=1073741825",
    "--max-trace=0",
    "--max-trace=1099511627777",
];

/// No word of these options in the case in which it stands, or no power of two from 8 to 4,096.
const CHOICES: [&str; 17] = [
    "--misaligned",
    "--misaligned=",
    "--misaligned=DONE",
    "--misaligned=don",
    "--misaligned=set",
    "--mtval=Zero",
    "--mtval=0",
    "--ad=SET",
    "--ad=faults",
    "--reserve=",
    "--reserve=0",
    "--reserve=4",
    "--reserve=48",
    "--reserve=8192",
    "--reserve=65600",
    "--bits=1",
    "--bits=ON",
];

/// No number of harts from 1 to 8.
const HARTS: [&str; 7] = [
    "--harts",
    "--harts=",
    "--harts=0",
    "--harts=9",
    "--harts=0x10",
    "--harts=4294967297",
    "--harts=two",
];

/// Options that `make` does not know.
const OF_JUDGE: [&str; 13] = [
    "--harts=1",
    "--misaligned=trap",
    "--mtval=value",
    "--ad=fault",
    "--reserve=64",
    "--bits=off",
    "--insn=full",
    "--io-faults=none",
    "--csr=time=maybe",
    "--pmp=16",
    "--pmp-bits=54",
    "--lines=0xA88",
    "--profile=qemu",
];

/// The same of the options that both commands take.
const SHARES: [&str; 12] = [
    "--workers",
    "--workers=",
    "--workers=0",
    "--workers=65",
    "--workers=4294967297",
    "--segment=0",
    "--segment=0x100001",
    "--segment=1048577",
    "--window",
    "--window=0",
    "--window=1025",
    "--window=0x401",
];

#[test]
fn refuses_other_numbers(rt: HostRuntime) -> Result<(), Fail> {
    let alloc = rt.alloc();
    for option in OPTIONS {
        refuses(&rt, alloc, &["rvjudge", "judge", "i", "t", option])?;
    }
    for choice in CHOICES {
        refuses(&rt, alloc, &["rvjudge", "judge", "i", "t", choice])?;
    }
    for harts in HARTS {
        refuses(&rt, alloc, &["rvjudge", "judge", "i", "t", harts])?;
        refuses(&rt, alloc, &["rvjudge", "state", "i", "t", harts])?;
    }
    for option in OF_JUDGE {
        refuses(&rt, alloc, &["rvjudge", "make", "7", "10", option])?;
    }
    for share in SHARES {
        refuses(&rt, alloc, &["rvjudge", "judge", "i", "t", share])?;
        refuses(&rt, alloc, &["rvjudge", "make", "7", "10", share])?;
    }
    Ok(())
}
