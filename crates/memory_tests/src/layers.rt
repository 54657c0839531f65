ghost use Rattle.std.specs.Prelude.{◌≡◌, ◌<◌, ◌^◌};

use hart_words::{PhysMem, Span};
use image_text::read_image;
use page_image::PageImage;
use page_layers::{Layered, MapMem};
use std::process::Abort;
use std::test::Fail;

/// An address, how many bytes from there on, and the number that they are.
type Numbers<'a> = &'a [(u64, u8, u64)];

const IMAGE: &[u8] = b"@80000ffe 12 34 56 78 9a @80002ff8 01 02 03 04 05 06 07 08";

/// The bytes of the image by pages.
const LOADED: Numbers = &[
    (0x8000_0ffe, 2, 0x3412),
    (0x8000_1000, 4, 0x9a_7856),
    (0x8000_1004, 1, 0),
    (0x8000_2ff8, 8, 0x0807_0605_0403_0201),
];

/// The same bytes, and some of the zeros round them.
const SHOWN: Numbers = &[
    (0x8000_0000, 8, 0),
    (0x8000_0ff8, 8, 0x3412_0000_0000_0000),
    (0x8000_0ffc, 4, 0x3412_0000),
    (0x8000_0ffe, 2, 0x3412),
    (0x8000_0ffe, 1, 0x12),
    (0x8000_0fff, 1, 0x34),
    (0x8000_1000, 2, 0x7856),
    (0x8000_1000, 8, 0x9a_7856),
    (0x8000_1003, 1, 0),
    (0x8000_2ff0, 8, 0),
    (0x8000_2ff8, 8, 0x0807_0605_0403_0201),
    (0x8000_2ffc, 4, 0x0807_0605),
    (0x8000_2fff, 1, 8),
];

/// At both ends of pages, and at both ends of RAM.
const WRITTEN: Numbers = &[
    (0x8000_0fff, 1, 0x1ff),
    (0x8000_1000, 2, 0xdd_bbaa),
    (0x8000_2ff8, 4, 0x4433_2211),
    (0x8000_2fff, 1, 0xee),
    (0x8000_0000, 8, 0xfedc_ba98_7654_3210),
    (0x8000_0002, 2, 0),
];

/// What is there then.
const LEFT: Numbers = &[
    (0x8000_0000, 8, 0xfedc_ba98_0000_3210),
    (0x8000_0008, 8, 0),
    (0x8000_0ff8, 8, 0xff12_0000_0000_0000),
    (0x8000_1000, 8, 0x9a_bbaa),
    (0x8000_1ff8, 8, 0),
    (0x8000_2000, 8, 0),
    (0x8000_2ff0, 8, 0),
    (0x8000_2ff8, 8, 0xee07_0605_4433_2211),
    (0x8000_2ffe, 1, 7),
];

/// RAM of three pages.
fn three_pages() -> Result<Span, Fail> {
    Ok(Span::new(0x8000_0000, 0x3000).ok_or("no range")?)
}

fn shows<M: PhysMem>(rt: &impl Abort, mem: &M, ram: &Span, numbers: Numbers)
    requires { M.ram mem.now ≡ ram.now }
{
    for (pa, len, value) in numbers {
        assert!(rt; ram.is_place(*pa, *len));
        assert_eq!(rt; mem.read(*pa, *len), *value, "at {pa}");
    }
}

fn write_all<M: PhysMem>(
    rt: &impl Abort,
    mem: &mut M,
    ram: &Span,
    numbers: Numbers,
) -> Result<(), Fail>
    requires { M.ram mem.old ≡ ram.now }
    ensures { M.ram mem.new ≡ M.ram mem.old }
{
    for (pa, len, value) in numbers {
        assert!(rt; ram.is_place(*pa, *len));
        mem.write(*pa, *len, *value)?;
    }
    Ok(())
}

/// Takes what memory each page needs.
fn ready_all<M: PhysMem>(rt: &impl Abort, mem: &mut M, ram: &Span) -> Result<(), Fail>
    requires { M.ram mem.old ≡ ram.now }
    ensures { M.ram mem.new ≡ M.ram mem.old }
{
    for pa in [0x8000_0abc, 0x8000_1000, 0x8000_2fff] {
        assert!(rt; ram.is_place(pa, 1));
        mem.ready(pa)?;
    }
    Ok(())
}

/// A memory with the image's bytes is written to, copied, and written to again.
fn serves<M: PhysMem + Drop>(rt: &impl Abort, mut mem: M, ram: &Span) -> Result<(), Fail>
    requires { M.ram mem ≡ ram.now }
{
    shows(rt, &mem, ram, SHOWN);
    let mut other = mem.copy()?;
    ready_all(rt, &mut mem, ram)?;
    shows(rt, &mem, ram, SHOWN);
    write_all(rt, &mut mem, ram, WRITTEN)?;
    shows(rt, &mem, ram, LEFT);
    shows(rt, &other, ram, SHOWN);
    let written = mem.copy()?;
    write_all(rt, &mut mem, ram, LOADED)?;
    shows(rt, &written, ram, LEFT);
    shows(rt, &other, ram, SHOWN);
    write_all(rt, &mut other, ram, WRITTEN)?;
    shows(rt, &other, ram, LEFT);
    Ok(())
}

/// The next number of a small generator.
fn next(seed: u64) -> u64 {
    seed.wrapping_mul(6_364_136_223_846_793_005)
        .wrapping_add(1_442_695_040_888_963_407)
}

/// Writes 60 numbers of the generator, of any length and at any place.
fn write_some<M: PhysMem>(mem: &mut M, ram: &Span, seed: u64) -> Result<(), Fail>
    requires { M.ram mem.old ≡ ram.now }
    ensures { M.ram mem.new ≡ M.ram mem.old }
{
    let mut seed = seed;
    for _turn in 0..60 {
        seed = next(seed);
        let pa = 0x8000_0000 + (seed >> 33) % 0x3000;
        let len = (1 + (seed >> 20) % 8) as u8;
        if ram.is_place(pa, len) {
            mem.write(pa, len, seed)?;
        }
    }
    Ok(())
}

/// Two memories have the same bytes.
fn agree<M: PhysMem, N: PhysMem>(rt: &impl Abort, one: &M, other: &N, ram: &Span)
    requires one { M.ram one.now ≡ ram.now }
    requires other { N.ram other.now ≡ ram.now }
{
    for k in 0..0x600_u64 {
        let pa = 0x8000_0000 + k * 8;
        assert!(rt; ram.is_place(pa, 8));
        assert_eq!(rt; one.read(pa, 8), other.read(pa, 8), "at {pa}");
    }
}

/// Threads may share it.
fn is_shared<T: Send + Sync>(_value: &T) {}

#[test]
fn serves_over_an_image(rt: HostRuntime) -> Result<(), Fail> {
    let ram = three_pages()?;
    let pieces = read_image(rt.alloc(), IMAGE, ram)?;
    let image = PageImage::build(rt.alloc(), &pieces, ram)?;
    let mem = Layered::over(rt.alloc(), &image);
    is_shared(&mem);
    serves(&rt, mem, &ram)
}

#[test]
fn serves_over_a_map(rt: HostRuntime) -> Result<(), Fail> {
    let ram = three_pages()?;
    let mut mem = MapMem::zeros(rt.alloc(), ram);
    write_all(&rt, &mut mem, &ram, LOADED)?;
    serves(&rt, mem, &ram)
}

/// Copies of copies, and writes to each of them after it was copied.
#[test]
fn copies_stand_alone(rt: HostRuntime) -> Result<(), Fail> {
    let ram = three_pages()?;
    let pieces = read_image(rt.alloc(), IMAGE, ram)?;
    let image = PageImage::build(rt.alloc(), &pieces, ram)?;
    let mut first = Layered::over(rt.alloc(), &image);
    let mut plain = MapMem::zeros(rt.alloc(), ram);
    write_all(&rt, &mut plain, &ram, LOADED)?;
    write_some(&mut first, &ram, 1)?;
    write_some(&mut plain, &ram, 1)?;
    let mut second = first.copy()?;
    let mut plain_second = plain.copy()?;
    assert!(&rt; first.same_as(&second));
    write_some(&mut first, &ram, 2)?;
    write_some(&mut plain, &ram, 2)?;
    write_some(&mut second, &ram, 3)?;
    write_some(&mut plain_second, &ram, 3)?;
    let mut third = second.copy()?;
    let mut plain_third = plain_second.copy()?;
    write_some(&mut second, &ram, 4)?;
    write_some(&mut plain_second, &ram, 4)?;
    write_some(&mut third, &ram, 5)?;
    write_some(&mut plain_third, &ram, 5)?;
    agree(&rt, &first, &plain, &ram);
    agree(&rt, &second, &plain_second, &ram);
    agree(&rt, &third, &plain_third, &ram);
    assert!(&rt; !first.same_as(&second));
    assert!(&rt; !second.same_as(&third));
    Ok(())
}

/// Bytes are compared, whoever has them.
#[test]
fn compares_bytes(rt: HostRuntime) -> Result<(), Fail> {
    let ram = three_pages()?;
    let pieces = read_image(rt.alloc(), IMAGE, ram)?;
    let image = PageImage::build(rt.alloc(), &pieces, ram)?;
    let nothing = read_image(rt.alloc(), b"", ram)?;
    let empty = PageImage::build(rt.alloc(), &nothing, ram)?;
    let mem = Layered::over(rt.alloc(), &image);
    let mut other = Layered::over(rt.alloc(), &empty);
    assert!(&rt; !mem.same_as(&other));
    assert!(&rt; !other.same_as(&mem));
    write_all(&rt, &mut other, &ram, LOADED)?;
    assert!(&rt; mem.same_as(&other));
    assert!(&rt; other.same_as(&mem));
    let mut own = mem.copy()?;
    ready_all(&rt, &mut own, &ram)?;
    write_all(&rt, &mut own, &ram, SHOWN)?;
    assert!(&rt; own.same_as(&mem));
    assert!(&rt; mem.same_as(&own));
    assert!(&rt; own.same_as(&other));
    write_all(&rt, &mut own, &ram, &[(0x8000_1fff, 1, 1)])?;
    assert!(&rt; !own.same_as(&mem));
    assert!(&rt; !mem.same_as(&own));
    write_all(&rt, &mut own, &ram, &[(0x8000_1fff, 1, 0)])?;
    assert!(&rt; own.same_as(&mem));
    Ok(())
}

/// Writes a number into each of 1,100 blocks of 2 MiB, other ones in each round, and keeps what
/// stands at the front of each of its 32,768 blocks.
fn write_round<M: PhysMem>(
    rt: &impl Abort,
    mem: &mut M,
    ram: &Span,
    fronts: &mut [u64],
    round: u64,
) -> Result<(), Fail>
    requires ram { M.ram mem.old ≡ ram.now }
    requires below_100 { round < 100 }
    ensures { M.ram mem.new ≡ M.ram mem.old }
{
    for k in 0..1100_u64 {
        let number = (round * 900 + k * 7) % 0x8000;
        let pa = 0x8000_0000 + number * 64;
        assert!(rt; ram.is_place(pa, 8));
        mem.write(pa, 8, round * 10_000 + k + 1)?;
        if let Some(front) = fronts.get_mut(number as usize) {
            *front = round * 10_000 + k + 1;
        }
    }
    Ok(())
}

/// The blocks begin so.
fn begins<M: PhysMem>(rt: &impl Abort, mem: &M, ram: &Span, fronts: &[u64])
    requires { M.ram mem.now ≡ ram.now }
{
    for number in 0..0x8000_u64 {
        let pa = 0x8000_0000 + number * 64;
        assert!(rt; ram.is_place(pa, 8));
        assert_eq!(rt;
            Some(mem.read(pa, 8)),
            fronts.get(number as usize).copied(),
            "at {pa}"
        );
    }
}

/// So many blocks that copies put them into layers, and layers into larger ones.
#[test]
fn layers_hold_many_blocks(rt: HostRuntime) -> Result<(), Fail> {
    let ram = Span::new(0x8000_0000, 0x20_0000).ok_or("no range")?;
    let nothing = read_image(rt.alloc(), b"", ram)?;
    let image = PageImage::build(rt.alloc(), &nothing, ram)?;
    let mut mem = Layered::over(rt.alloc(), &image);
    let mut fronts = Vec::new(rt.alloc());
    for _number in 0..0x8000 {
        fronts.push(0)?;
    }
    for round in 0..12_u64 {
        write_round(&rt, &mut mem, &ram, &mut fronts, round)?;
        begins(&rt, &mem, &ram, &fronts);
        let kept = mem.copy()?;
        let mut later = fronts.clone()?;
        write_round(&rt, &mut mem, &ram, &mut later, round + 20)?;
        begins(&rt, &kept, &ram, &fronts);
        begins(&rt, &mem, &ram, &later);
        assert!(&rt; !mem.same_as(&kept));
        mem = kept.copy()?;
        assert!(&rt; mem.same_as(&kept));
    }
    Ok(())
}

/// Writes a number at the end of each of some blocks, from the one at an address on.
fn write_ends<M: PhysMem>(
    rt: &impl Abort,
    mem: &mut M,
    ram: &Span,
    first: u64,
    value: u64,
) -> Result<(), Fail>
    requires ram { M.ram mem.old ≡ ram.now }
    requires low { first < 2 ^ 32 }
    ensures { M.ram mem.new ≡ M.ram mem.old }
{
    for k in 0..1280_u64 {
        let pa = first + k * 64 + 56;
        assert!(rt; ram.is_place(pa, 8));
        mem.write(pa, 8, value)?;
    }
    Ok(())
}

/// Just these pages hold a byte other than 0.
fn holds_pages(rt: &impl Abort, mem: &Layered, pages: &[u64]) -> Result<(), Fail> {
    let mut from = 0;
    for page in pages {
        let found = mem.next_page(from).ok_or("no page")?;
        assert_eq!(rt; found, *page);
        assert!(rt; found < 0x9000_0000);
        assert_eq!(rt; mem.next_page(found), Some(found));
        from = found + 0x1000;
    }
    assert_eq!(rt; mem.next_page(from), None);
    Ok(())
}

/// Pages of the image, of blocks that were written, and of layers; pages that became zero.
#[test]
fn finds_pages(rt: HostRuntime) -> Result<(), Fail> {
    let ram = Span::new(0x8000_0000, 0x20_0000).ok_or("no range")?;
    let pieces = read_image(rt.alloc(), IMAGE, ram)?;
    let image = PageImage::build(rt.alloc(), &pieces, ram)?;
    let mut mem = Layered::over(rt.alloc(), &image);
    holds_pages(&rt, &mem, &[0x8000_0000, 0x8000_1000, 0x8000_2000])?;
    write_all(
        &rt,
        &mut mem,
        &ram,
        &[(0x8000_0ffe, 2, 0), (0x8000_5fff, 1, 1)],
    )?;
    holds_pages(&rt, &mem, &[0x8000_1000, 0x8000_2000, 0x8000_5000])?;
    write_ends(&rt, &mut mem, &ram, 0x801e_c000, 9)?;
    let mut later = mem.copy()?;
    write_ends(&rt, &mut later, &ram, 0x801e_c000, 0)?;
    holds_pages(&rt, &later, &[0x8000_1000, 0x8000_2000, 0x8000_5000])?;
    let mut last = later.copy()?;
    holds_pages(&rt, &last, &[0x8000_1000, 0x8000_2000, 0x8000_5000])?;
    write_all(
        &rt,
        &mut last,
        &ram,
        &[(0x8000_5fff, 1, 0), (0x801f_ffff, 1, 7)],
    )?;
    holds_pages(&rt, &last, &[0x8000_1000, 0x8000_2000, 0x801f_f000])?;
    assert_eq!(&rt; mem.next_page(0x8000_6000), Some(0x801e_c000));
    assert_eq!(&rt; mem.next_page(0x801f_f000), Some(0x801f_f000));
    assert_eq!(&rt; mem.next_page(0x8020_0000), None);
    Ok(())
}
