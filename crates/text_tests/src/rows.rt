use hart_words::{CsrName, CsrSide, Signal};
use line_text::Lines;
use rvfi_rows::{
    Column, Columns, HeaderError, HeaderFault, Port, Reading, Row, RowError, RowFault, Rows,
    Segment, distance_in_window, read_header, read_row, read_rows, read_segments, reuse_rows,
};
use std::alloc::Global;
use std::process::Abort;
use std::test::Fail;

const HEADER: &[u8] = b"valid,order, rvfi_insn ,pc_rdata,core_note,\"mode\",rd_wdata,halt";

fn header_fault(alloc: Global, line: &[u8]) -> Option<HeaderFault> {
    match read_header(alloc, line) {
        Err(HeaderError::Fault(fault)) => Some(fault),
        _ => None,
    }
}

fn row_fault(alloc: Global, columns: &Columns, line: &[u8]) -> Option<RowFault> {
    match read_row(alloc, columns, line, 0, 1) {
        Err(RowError::Fault(fault)) => Some(fault),
        _ => None,
    }
}

fn may_be_shared<T: Send + Sync>(_value: &T) {}

/// The column of the signal at port 0.
fn first(signal: Signal) -> Column {
    let port = Port::Zero;
    Column { signal, port }
}

/// The column of the signal at port 1.
fn second(signal: Signal) -> Column {
    let port = Port::One;
    Column { signal, port }
}

#[test]
fn reads_rows(rt: HostRuntime) -> Result<(), Fail> {
    let alloc = rt.alloc();
    let columns = read_header(alloc, HEADER)?;
    may_be_shared(&columns);
    let row = read_row(
        alloc,
        &columns,
        b"1,,0X00000093,0x80000000,x y z,3 ,18446744073709551615,",
        0,
        1,
    )?
    .ok_or("the row is valid")?;
    may_be_shared(&row);
    assert_eq!(rt; row.shown(Signal::Valid), Some(1));
    assert_eq!(rt; row.shown(Signal::Order), None);
    assert_eq!(rt; row.shown(Signal::Insn), Some(0x93));
    assert_eq!(rt; row.shown(Signal::PcRdata), Some(0x8000_0000));
    assert_eq!(rt; row.shown(Signal::Mode), Some(3));
    assert_eq!(rt; row.shown(Signal::RdWdata), Some(u64::MAX));
    assert_eq!(rt; row.shown(Signal::Halt), None);
    assert_eq!(rt; row.shown(Signal::Trap), None);
    // Nothing but the number of fields counts in a row that is not valid.
    assert!(rt; read_row(alloc, &columns, b"0x0,,,one,,9,-,2", 0, 1)?.is_none());
    Ok(())
}

/// Rows that were read once show what each line shows by itself, after a refused one too.
#[test]
fn keeps_rows(rt: HostRuntime) -> Result<(), Fail> {
    let alloc = rt.alloc();
    let columns = read_header(alloc, b"valid,note,insn,pc_rdata,csr_mepc_rdata,halt")?;
    let mut lines = Lines::new(alloc);
    lines.push(b"1,x,3,4,5,1")?;
    lines.push(b",,6,7,,0")?;
    lines.push(b"0,,,,9,")?;
    lines.push(b"1,,8,,9,1")?;
    lines.push(b"1,,8,9,1")?;
    lines.push(b"1,,8,9\r,,1")?;
    lines.push(b"\"1\",,10,11,12,")?;
    lines.push(b"")?;
    let rows = read_rows(alloc, &columns, &lines)?;
    may_be_shared(&rows);
    assert_eq!(rt; rows.len(), 8);
    let mepc = Signal::Csr(CsrName::Mepc, CsrSide::Rdata);
    let mut row = Row::empty();
    for (place, insn, pc_rdata, csr, halt) in [
        (0, 3, 4, Some(5), Some(1)),
        (1, 6, 7, None, Some(0)),
        (6, 10, 11, Some(12), None),
        (0, 3, 4, Some(5), Some(1)),
    ] {
        assert_eq!(rt; rows.get(place, &mut row), Some(Reading::Valid));
        assert_eq!(rt; row.shown(Signal::Insn), Some(insn));
        assert_eq!(rt; row.shown(Signal::PcRdata), Some(pc_rdata));
        assert_eq!(rt; row.shown(mepc), csr);
        assert_eq!(rt; row.shown(Signal::Halt), halt);
        assert_eq!(rt; row.shown(Signal::Order), None);
    }
    for (place, fault) in [
        (3, RowFault::Empty(first(Signal::PcRdata))),
        (4, RowFault::FieldCount),
        (5, RowFault::StrayReturn),
        (7, RowFault::FieldCount),
    ] {
        assert_eq!(rt; rows.get(place, &mut row), Some(Reading::Refused(fault)));
    }
    assert_eq!(rt; rows.get(2, &mut row), Some(Reading::Invalid));
    assert_eq!(rt; rows.get(8, &mut row), None);
    Ok(())
}

/// The hart of a row is the one that it names, or the first; one that is not there is the last of
/// the row's faults, by its port's own column.
#[test]
fn reads_harts(rt: HostRuntime) -> Result<(), Fail> {
    let alloc = rt.alloc();
    let columns = read_header(alloc, b"valid,hart,insn,pc_rdata,hart_1,insn_1,pc_rdata_1")?;
    let columns = columns.with_harts(2);
    assert_eq!(rt; columns.harts(), 2);
    let mut lines = Lines::new(alloc);
    lines.push(b"1,1,0x13,4,,0x13,4")?;
    lines.push(b"1,,0x13,4,2,0x13,4")?;
    lines.push(b"0,9,0x13,4,1,0x13,4")?;
    lines.push(b"1,255,0x13,4,3,0x13,")?;
    lines.push(b"1,y,0x13,4,x,0x13,4")?;
    let rows = read_rows(alloc, &columns, &lines)?;
    let mut row = Row::empty();
    for (place, hart) in [(0, 1), (1, 0), (2, 0), (5, 1)] {
        assert_eq!(rt; rows.get(place, &mut row), Some(Reading::Valid));
        assert_eq!(rt; row.hart(), hart);
    }
    assert_eq!(rt; rows.get(4, &mut row), Some(Reading::Invalid));
    let hart = Column {
        signal: Signal::Hart,
        port: Port::Zero,
    };
    for (place, fault) in [
        (3, RowFault::NoHart),
        (6, RowFault::NoHart),
        (7, RowFault::Empty(second(Signal::PcRdata))),
        (8, RowFault::NotNumber(hart)),
        (9, RowFault::NotNumber(second(Signal::Hart))),
    ] {
        assert_eq!(rt; rows.get(place, &mut row), Some(Reading::Refused(fault)));
    }
    let one = read_row(alloc, &columns, b"1,1,0x13,4,,0x13,4", 0, 1);
    assert!(rt; matches!(one, Err(RowError::Fault(RowFault::NoHart))));
    Ok(())
}

/// How the row of a port on a line reads: what it shows of `insn`, where it is valid.
fn insn_at(
    alloc: Global,
    columns: &Columns,
    line: &[u8],
    port: u32,
) -> Result<Option<u64>, RowFault> {
    if columns.ports() <= port {
        return Ok(None);
    }
    match read_row(alloc, columns, line, port, 1) {
        Err(RowError::Fault(fault)) => Err(fault),
        Ok(Some(row)) => Ok(row.shown(Signal::Insn)),
        Ok(None) | Err(RowError::NoMemory) => Ok(None),
    }
}

/// A line has a row for each port, each valid or not and refused or not by its own columns, and all
/// refused where the line is.
#[test]
fn reads_ports(rt: HostRuntime) -> Result<(), Fail> {
    let alloc = rt.alloc();
    let columns = read_header(
        alloc,
        b"insn,valid_1, rvfi_pc_rdata_1,pc_rdata_0,insn_4,insn_1,valid",
    )?;
    assert_eq!(rt; columns.ports(), 2);
    let wide = RowFault::TooWide(second(Signal::Insn));
    let empty = RowFault::Empty(first(Signal::PcRdata));
    let cases: [(
        &[u8],
        Result<Option<u64>, RowFault>,
        Result<Option<u64>, RowFault>,
    ); 6] = [
        (b"1,1,2,3,x,4,1", Ok(Some(1)), Ok(Some(4))),
        (b"1,0,,3,,,", Ok(Some(1)), Ok(None)),
        (b",,2,,,4,0", Ok(None), Ok(Some(4))),
        (b"1,,2,,,0x100000000,", Err(empty), Err(wide)),
        (
            b"1,1,2,3,,4",
            Err(RowFault::FieldCount),
            Err(RowFault::FieldCount),
        ),
        (
            b"1,1,2,3,,4\r,0",
            Err(RowFault::StrayReturn),
            Err(RowFault::StrayReturn),
        ),
    ];
    for (line, one, other) in cases {
        assert_eq!(rt; insn_at(alloc, &columns, line, 0), one);
        assert_eq!(rt; insn_at(alloc, &columns, line, 1), other);
    }
    let mut lines = Lines::new(alloc);
    lines.push(b"1,1,2,3,x,4,1")?;
    lines.push(b"1,0,,3,,,")?;
    lines.push(b"1,,2,,,0x100000000,")?;
    lines.push(b"1,1,2,3,,4\r,0")?;
    let rows = read_rows(alloc, &columns, &lines)?;
    assert_eq!(rt; rows.len(), 8);
    let mut row = Row::empty();
    for (place, insn) in [(0, 1), (1, 4), (2, 1)] {
        assert_eq!(rt; rows.get(place, &mut row), Some(Reading::Valid));
        assert_eq!(rt; row.shown(Signal::Insn), Some(insn));
    }
    assert_eq!(rt; rows.get(3, &mut row), Some(Reading::Invalid));
    let stray = RowFault::StrayReturn;
    for (place, fault) in [(4, empty), (5, wide), (6, stray), (7, stray)] {
        assert_eq!(rt; rows.get(place, &mut row), Some(Reading::Refused(fault)));
    }
    Ok(())
}

/// Two rows of each segment read so, under these columns alone. The last row shows this.
fn check_segments(
    rt: &impl Abort,
    segments: &[Segment],
    (columns, other): (&Columns, &Columns),
    wanted: &[[Reading; 2]],
    insn: u64,
) -> Result<(), Fail> {
    let mut row = Row::empty();
    for (segment, wanted) in segments.iter().zip(wanted.iter()) {
        may_be_shared(segment);
        assert!(rt; segment.is_read(columns));
        assert!(rt; segment.rows(other).is_none());
        let rows = segment.rows(columns).ok_or("it was read")?;
        for (place, reading) in wanted.iter().enumerate() {
            assert_eq!(rt; rows.get(place, &mut row), Some(*reading));
        }
    }
    assert_eq!(rt; segments.len(), wanted.len());
    assert_eq!(rt; row.shown(Signal::Insn), Some(insn));
    Ok(())
}

/// Segments are read side by side, and again under other columns.
#[test]
fn reads_segments(rt: HostRuntime) -> Result<(), Fail> {
    let alloc = rt.alloc();
    let plain = read_header(alloc, b"insn,pc_rdata")?;
    let turned = read_header(alloc, b"pc_rdata,insn")?;
    let mut segments = Vec::new(alloc);
    let mut lines = Lines::new(alloc);
    lines.push(b"1,2")?;
    lines.push(b"3,4")?;
    segments.push(Segment::new(lines))?;
    let mut lines = Lines::new(alloc);
    lines.push(b"5,6")?;
    lines.push(b"x,8")?;
    segments.push(Segment::new(lines))?;
    let mut lines = Lines::new(alloc);
    lines.push(b"")?;
    lines.push(b"9,10")?;
    let mut last = Segment::new(lines);
    assert_eq!(rt; last.lines.len(), 2);
    assert!(rt; !last.is_read(&plain));
    last.read(alloc, &plain)?;
    assert!(rt; last.is_read(&plain));
    segments.push(last)?;
    let short = Reading::Refused(RowFault::FieldCount);
    read_segments(&rt, alloc, 1, &plain, &mut segments)?;
    let bad = Reading::Refused(RowFault::NotNumber(first(Signal::Insn)));
    let wanted = [
        [Reading::Valid; 2],
        [Reading::Valid, bad],
        [short, Reading::Valid],
    ];
    check_segments(&rt, &segments, (&plain, &turned), &wanted, 9)?;
    read_segments(&rt, alloc, 7, &turned, &mut segments)?;
    let bad = Reading::Refused(RowFault::NotNumber(first(Signal::PcRdata)));
    let wanted = [
        [Reading::Valid; 2],
        [Reading::Valid, bad],
        [short, Reading::Valid],
    ];
    check_segments(&rt, &segments, (&turned, &plain), &wanted, 10)
}

/// However few threads there are, they read all segments.
#[test]
fn reads_many_segments(rt: HostRuntime) -> Result<(), Fail> {
    let alloc = rt.alloc();
    let columns = read_header(alloc, b"insn,pc_rdata")?;
    for threads in [1, 3] {
        let mut segments = Vec::new(alloc);
        for _ in 0..200 {
            let mut lines = Lines::new(alloc);
            lines.push(b"1,2")?;
            segments.push(Segment::new(lines))?;
        }
        read_segments(&rt, alloc, threads, &columns, &mut segments)?;
        assert!(rt; segments.iter().all(|segment| segment.is_read(&columns)));
    }
    Ok(())
}

/// Segments read as ever in the memory of others, under other columns and with more lines too.
#[test]
fn reads_in_the_memory_of_others(rt: HostRuntime) -> Result<(), Fail> {
    let alloc = rt.alloc();
    let plain = read_header(alloc, b"insn,pc_rdata")?;
    let wider = read_header(alloc, b"pc_rdata,order,insn")?;
    let mut segments = Vec::new(alloc);
    let mut lines = Lines::new(alloc);
    lines.push(b"1,2")?;
    segments.push(Segment::new(lines))?;
    read_segments(&rt, alloc, 1, &plain, &mut segments)?;
    let mut others = Vec::new(alloc);
    for _ in 0..2 {
        let mut lines = Lines::new(alloc);
        lines.push(b"10,,")?;
        lines.push(b"13,,14")?;
        others.push(Segment::new(lines))?;
    }
    reuse_rows(&mut others, segments);
    read_segments(&rt, alloc, 2, &wider, &mut others)?;
    let empty = Reading::Refused(RowFault::Empty(first(Signal::Insn)));
    check_segments(
        &rt,
        &others,
        (&wider, &plain),
        &[[empty, Reading::Valid]; 2],
        14,
    )
}

/// The columns of registers have 5 bits, those of byte masks 8.
#[test]
fn reads_registers_and_masks(rt: HostRuntime) -> Result<(), Fail> {
    let alloc = rt.alloc();
    let columns = read_header(alloc, b"mem_wmask,pc_rdata,rvfi_rs1_addr,insn")?;
    let row = read_row(alloc, &columns, b"255,0,0x1f,0", 0, 1)?.ok_or("the row is valid")?;
    assert_eq!(rt; row.shown(Signal::Rs1Addr), Some(31));
    assert_eq!(rt; row.shown(Signal::MemWmask), Some(0xff));
    assert_eq!(rt; row.shown(Signal::MemRmask), None);
    for (line, signal) in [
        (b"0x100,0,0,0".as_slice(), Signal::MemWmask),
        (b",0,32,0", Signal::Rs1Addr),
    ] {
        assert_eq!(rt;
            row_fault(alloc, &columns, line),
            Some(RowFault::TooWide(first(signal)))
        );
    }
    let again = HeaderFault::Twice(first(Signal::Rs1Addr));
    assert_eq!(rt; header_fault(alloc, b"rs1_addr,rvfi_rs1_addr"), Some(again));
    Ok(())
}

/// The columns of control and status registers have 64 bits; a name that is none of theirs is
/// passed over.
#[test]
fn reads_registers_of_control(rt: HostRuntime) -> Result<(), Fail> {
    let alloc = rt.alloc();
    let columns = read_header(
        alloc,
        b"insn,rvfi_csr_mepc_rdata,csr_satp_wdata,pc_rdata,csr_sip_wmask,csr_tselect_rdata",
    )?;
    let mepc = Signal::Csr(CsrName::Mepc, CsrSide::Rdata);
    let satp = Signal::Csr(CsrName::Satp, CsrSide::Wdata);
    let row = read_row(alloc, &columns, b"1,0xffffffffffffffff,1,2,,x", 0, 1)?.ok_or(
        "it is valid",
    )?;
    assert_eq!(rt; row.shown(mepc), Some(u64::MAX));
    assert_eq!(rt; row.shown(satp), Some(1));
    assert!(rt; row.shows_csr());
    // The columns of a register follow one another: its masks, what it was and what it became.
    assert_eq!(rt; row.csr_bits(), (1 << (4 * 7 + 2)) | (1 << (4 * 11 + 3)));
    assert_eq!(rt; row.shown(Signal::Csr(CsrName::Sip, CsrSide::Wmask)), None);
    let row = read_row(alloc, &columns, b"1,,,2,0,x", 0, 1)?.ok_or("it is valid")?;
    assert_eq!(rt;
        row.shown(Signal::Csr(CsrName::Sip, CsrSide::Wmask)),
        Some(0)
    );
    let row = read_row(alloc, &columns, b"1,,,2,,0", 0, 1)?.ok_or("it is valid")?;
    assert!(rt; !row.shows_csr());
    assert_eq!(rt; row.csr_bits(), 0);
    assert_eq!(rt; row.shown(satp), None);
    assert_eq!(rt;
        row_fault(alloc, &columns, b"1,,x,2,,"),
        Some(RowFault::NotNumber(first(satp)))
    );
    let again = HeaderFault::Twice(first(mepc));
    assert_eq!(rt;
        header_fault(alloc, b"csr_mepc_rdata,rvfi_csr_mepc_rdata"),
        Some(again)
    );
    Ok(())
}

#[test]
fn refuses_rows(rt: HostRuntime) -> Result<(), Fail> {
    let alloc = rt.alloc();
    let columns = read_header(alloc, HEADER)?;
    let rows: [(&[u8], RowFault); 9] = [
        (b"0,,,\r", RowFault::StrayReturn),
        (b"0,,,,,,", RowFault::FieldCount),
        (b"", RowFault::FieldCount),
        (b"no,x,,,,,,", RowFault::NotNumber(first(Signal::Valid))),
        (b"2,x,,,,,,", RowFault::TooWide(first(Signal::Valid))),
        (b",-1,,,,,,", RowFault::NotNumber(first(Signal::Order))),
        (b"1,, ,,,,,", RowFault::Empty(first(Signal::Insn))),
        (
            b"1,,0x100000000,,,,,",
            RowFault::TooWide(first(Signal::Insn)),
        ),
        (b",,1,,,9,,", RowFault::Empty(first(Signal::PcRdata))),
    ];
    for (line, fault) in rows {
        assert_eq!(rt; row_fault(alloc, &columns, line), Some(fault));
    }
    Ok(())
}

/// An access lies in the eight bytes from an address on, or it does not; addresses wrap.
#[test]
fn accesses_lie_in_windows(rt: HostRuntime) {
    for (va, len, mem_addr, distance) in [
        (0x1000, 8, 0x1000, Some(0)),
        (0x1007, 1, 0x1000, Some(7)),
        (0x1004, 4, 0x1000, Some(4)),
        (0x1004, 8, 0x1000, None),
        (0x1000, 1, 0x1001, None),
        (0x1, 2, u64::MAX, Some(2)),
    ] {
        assert_eq!(rt; distance_in_window(va, len, mem_addr), distance);
    }
}

#[test]
fn refuses_headers(rt: HostRuntime) {
    let alloc = rt.alloc();
    let headers: [(&[u8], HeaderFault); 12] = [
        (b"insn,insn,pc_rdata\r", HeaderFault::StrayReturn),
        (
            b"mode,order,rvfi_mode,order",
            HeaderFault::Twice(first(Signal::Mode)),
        ),
        (
            b"order,note,note",
            HeaderFault::NoColumn(first(Signal::Insn)),
        ),
        (b"INSN,pc_rdata", HeaderFault::NoColumn(first(Signal::Insn))),
        (
            b"rvfi_rvfi_insn,pc_rdata",
            HeaderFault::NoColumn(first(Signal::Insn)),
        ),
        (b"insn", HeaderFault::NoColumn(first(Signal::PcRdata))),
        (b"insn,insn_0", HeaderFault::Twice(first(Signal::Insn))),
        (
            b"mode_1,insn,rvfi_mode_1,pc_rdata",
            HeaderFault::Twice(second(Signal::Mode)),
        ),
        (
            b"insn,pc_rdata,insn_1",
            HeaderFault::NoColumn(second(Signal::PcRdata)),
        ),
        (
            b"insn,pc_rdata,mode_3,insn_4",
            HeaderFault::NoColumn(second(Signal::Insn)),
        ),
        (
            b"insn_1,pc_rdata_1",
            HeaderFault::NoColumn(first(Signal::Insn)),
        ),
        (
            b"insn_0_1,pc_rdata",
            HeaderFault::NoColumn(first(Signal::Insn)),
        ),
    ];
    for (line, fault) in headers {
        assert_eq!(rt; header_fault(alloc, line), Some(fault));
    }
}
