ghost use Rattle.std.specs.Prelude.{◌≡◌, ◌≤◌, ◌<◌, ◌+◌, ◌^◌, IfOk};
ghost use Rattle.std.specs.List.{All};
ghost use Rattle.read_footprint.specs.LowMemory.{IsLow};

use hart_words::{NoMemory, PhysMem, Seen, Span, Wrote};
use read_footprint::Footprint;
use std::alloc::Global;
use std::process::Abort;
use std::test::Fail;

/// A memory whose RAM begins at address 0. It keeps the bytes that stand in a list, which it takes
/// for writes; the others are 0.
#[derive(Drop)]
struct Low {
    ram: Span,
    bytes: Vec<u8>,
    ghost start: { ram.base ≡ 0 },
    ghost small: { All (λ byte. byte < 256) bytes.items },
}

impl Low {
    ghost use Rattle.std.specs.Prelude.{length, slice_index_or};
    ghost use Rattle.hart_words.specs.Memory.{number_at, bytes_after_store};
    ghost use Rattle.std.specs.Prelude.{◌≡◌, ◌≤◌, ◌<◌, ◌+◌, ◌*◌, ◌^◌, ℕ};

    /// The byte at an address.
    fn byte(&self, pa: u64) -> u8
        ensures { result ≡ slice_index_or self.now.bytes.items pa 0 }
    {
        match self.bytes.get(pa as usize) {
            Some(byte) => *byte,
            None => 0,
        }
    }

    /// The number of `len` bytes at an address.
    fn number(&self, pa: u64, len: u8) -> u64
        requires at_most_8 { len ≤ 8 }
        requires narrow { pa + len ≤ 2 ^ 56 }
        ensures value { result ≡ number_at (λ at. slice_index_or self.now.bytes.items at 0) pa len }
        ensures fits { result < 2 ^ (8 * len) }
        ensures small { (at : ℕ) → pa ≤ at → at < pa + len
            → slice_index_or self.now.bytes.items at 0 < 256 }
    {
        if len == 0 {
            return 0;
        }
        u64::from(self.byte(pa)) + 256 * self.number(pa + 1, len - 1)
    }

    /// Puts the low `len` bytes of a number at an address, where each has a place in the list.
    fn put(&mut self, pa: u64, len: u8, value: u64)
        requires { pa + len ≤ length self.old.bytes.items }
        ensures bytes { (λ at. slice_index_or self.new.bytes.items at 0)
            ≡ bytes_after_store pa len value (λ at. slice_index_or self.old.bytes.items at 0) }
        ensures ram { self.new.ram ≡ self.old.ram }
    {
        if len == 0 {
            return;
        }
        self.bytes[pa as usize] = (value % 256) as u8;
        self.put(pa + 1, len - 1, value / 256);
    }
}

impl PhysMem for Low {
    ghost use Rattle.std.specs.Prelude.{slice_index_or};
    ghost use Rattle.read_footprint.specs.LowMemory.{byte_at_is_below_256};

    ghost bytes = { λ mem at. slice_index_or mem.bytes.items at 0 };

    ghost ram = { λ mem. mem.ram };

    ghost is_ready = { λ _ _. ⊥ };

    ghost bytes_are_bytes = { λ mem. byte_at_is_below_256 mem.bytes.items mem.small };

    fn read(&self, pa: u64, len: u8) -> u64 {
        self.number(pa, len)
    }

    fn write(&mut self, pa: u64, len: u8, value: u64) -> Result<(), NoMemory> {
        if (self.bytes.len() as u64) < pa + u64::from(len) {
            return Err(NoMemory);
        }
        self.put(pa, len, value);
        Ok(())
    }

    fn ready(&mut self, _pa: u64) -> Result<(), NoMemory> {
        Err(NoMemory)
    }

    fn copy(&self) -> Result<Low, NoMemory> {
        Ok(Low {
            ram: self.ram,
            bytes: self.bytes.clone()?,
        })
    }
}

fn is_byte(byte: u8)
    ensures { byte < 256 }
{}

/// Tells a proof that these are bytes.
fn are_bytes(bytes: &[u8])
    ensures { All (λ byte. byte < 256) bytes.now }
{
    for byte in bytes {
        is_byte(*byte);
    }
}

/// A memory of 256 bytes that are all alike, but for one.
fn alike(rt: &impl Abort, alloc: Global, byte: u8, at: usize, other: u8) -> Result<Low, Fail> {
    let ram = Span::new(0, 0x1000).ok_or("no range")?;
    assert!(rt; ram.base == 0);
    let mut bytes = [byte; 256];
    if let Some(slot) = bytes.get_mut(at) {
        *slot = other;
    }
    are_bytes(&bytes);
    Ok(Low {
        ram,
        bytes: bytes.to_vec(alloc)?,
    })
}

/// What a row reads, and what it writes: an address and how many bytes.
type Row = ((u8, u8), (u8, u8));

/// From an address up to another.
type Places<'a> = &'a [(usize, usize)];

const NOTHING: (u8, u8) = (0, 0);

/// Rows, the bytes that they read before they wrote them, and those that they wrote.
const CASES: &[(&[Row], Places, Places)] = &[
    (&[], &[], &[]),
    (&[((10, 4), NOTHING)], &[(10, 14)], &[]),
    // A later row reads what an earlier one wrote, across the end of a block.
    (
        &[(NOTHING, (60, 8)), ((58, 8), NOTHING)],
        &[(58, 60)],
        &[(60, 68)],
    ),
    // A row reads before it writes.
    (&[((100, 4), (102, 4))], &[(100, 104)], &[(102, 106)]),
    // What was read stays so, whatever is written later.
    (
        &[((120, 16), (124, 4)), ((124, 20), NOTHING)],
        &[(120, 144)],
        &[(124, 128)],
    ),
    // Over many blocks.
    (
        &[(NOTHING, (3, 200)), ((0, 255), NOTHING)],
        &[(0, 3), (203, 255)],
        &[(3, 203)],
    ),
];

/// Adds what a row touches.
fn add_row(footprint: &mut Footprint, row: Row) -> Result<(), Fail>
    requires { IsLow footprint.old }
    ensures { IsLow footprint.new }
{
    let (read, write) = row;
    let mut seen = Seen::empty();
    seen.put(u64::from(read.0), read.1);
    let mut wrote = Wrote::empty();
    wrote.put(u64::from(write.0), write.1, 0);
    footprint.add(&seen, &wrote)?;
    Ok(())
}

/// The footprint of rows.
fn of_rows(alloc: Global, rows: &[Row]) -> Result<Footprint, Fail>
    ensures { IfOk result IsLow }
{
    let mut footprint = Footprint::empty(alloc);
    for row in rows {
        add_row(&mut footprint, *row)?;
    }
    Ok(footprint)
}

fn covers(places: Places, at: usize) -> bool {
    places.iter().any(|(from, to)| *from <= at && at < *to)
}

/// Whether two memories agree.
#[tactic(auto, using(read_footprint::proofs::LowMemory::low_within))]
fn agrees(footprint: &Footprint, one: &Low, other: &Low) -> bool
    requires { IsLow footprint.now }
{
    footprint.agree(one, other)
}

/// Moves what was written.
#[tactic(auto, using(read_footprint::proofs::LowMemory::low_within))]
fn moves(footprint: &Footprint, memory: &mut Low, judged: &Low) -> bool
    requires { IsLow footprint.now }
{
    footprint.moved(memory, judged).is_ok()
}

#[test]
fn memories_agree_on_what_was_read(rt: HostRuntime) -> Result<(), Fail> {
    for (rows, read, _) in CASES {
        let footprint = of_rows(rt.alloc(), rows)?;
        let one = alike(&rt, rt.alloc(), 0, 0, 0)?;
        for at in 0..256 {
            let other = alike(&rt, rt.alloc(), 0, at, 1)?;
            assert_eq!(rt;
                agrees(&footprint, &one, &other),
                !covers(read, at),
                "at {at}"
            );
        }
    }
    Ok(())
}

#[test]
fn what_was_written_is_moved(rt: HostRuntime) -> Result<(), Fail> {
    for (rows, _, wrote) in CASES {
        let footprint = of_rows(rt.alloc(), rows)?;
        let mut memory = alike(&rt, rt.alloc(), 1, 0, 1)?;
        let judged = alike(&rt, rt.alloc(), 2, 0, 2)?;
        assert!(rt; moves(&footprint, &mut memory, &judged));
        for at in 0..256 {
            let byte = memory.byte(at as u64);
            assert_eq!(rt; byte, if covers(wrote, at) { 2 } else { 1 }, "at {at}");
        }
    }
    Ok(())
}
