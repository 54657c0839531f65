use hart_words::Span;
use image_text::read_image;
use page_image::{PAGES, Page, PageImage, PageNumbers};
use std::test::Fail;

/// Threads may share it.
fn is_shared<T: Send + Sync>(_value: &T) {}

#[test]
fn bytes_of_ram(rt: HostRuntime) -> Result<(), Fail> {
    let ram = Span::new(0x8000_0000, 0x1_0000).ok_or("no range")?;
    let pieces = read_image(rt.alloc(), b"@80000ffe 12 34 56 @8000f000 78", ram)?;
    let image = PageImage::build(rt.alloc(), &pieces, ram)?;
    for (address, byte) in [
        (0x8000_0000, 0),
        (0x8000_0ffd, 0),
        (0x8000_0ffe, 0x12),
        (0x8000_0fff, 0x34),
        (0x8000_1000, 0x56),
        (0x8000_1001, 0),
        (0x8000_f000, 0x78),
        (0x8000_ffff, 0),
    ] {
        assert_eq!(rt; image.byte(address), byte);
    }
    is_shared(&image);
    is_shared(&pieces);
    assert_eq!(rt; image.ram().base, 0x8000_0000);
    Ok(())
}

#[test]
fn bytes_near_and_far(rt: HostRuntime) -> Result<(), Fail> {
    let ram = Span::new(0x8000_0000, 0x2000_0000).ok_or("no range")?;
    let text = b"@80000ffe 12 @8100f000 34 @81010000 56 @9ffffffe 78";
    let pieces = read_image(rt.alloc(), text, ram)?;
    let image = PageImage::build(rt.alloc(), &pieces, ram)?;
    for (address, byte) in [
        (0x7fff_fffe, 0),
        (0x8000_0ffe, 0x12),
        (0x8000_1ffe, 0),
        (0x8100_f000, 0x34),
        (0x8100_f001, 0),
        (0x8101_0000, 0x56),
        (0x8101_1000, 0),
        (0x9fff_fffe, 0x78),
        (u64::MAX, 0),
    ] {
        assert_eq!(rt; image.byte(address), byte);
    }
    Ok(())
}

#[test]
fn pages_of_an_image(rt: HostRuntime) -> Result<(), Fail> {
    let ram = Span::new(0x8000_0000, 0x1_0000).ok_or("no range")?;
    let text = b"@80001ffe 12 34 56 @80003ffe 12 34 @80004000 00 @80005ffe 12 35";
    let pieces = read_image(rt.alloc(), text, ram)?;
    let image = PageImage::build(rt.alloc(), &pieces, ram)?;
    assert!(&rt; image.page(0x8_0000).is_none());
    let page = image.page(0x8_0001).ok_or("no page")?;
    assert_eq!(&rt; page.number(0x8000_1ffe, 2), 0x3412);
    assert_eq!(&rt; page.number(0x8000_1ff8, 8), 0x3412_0000_0000_0000);
    assert_eq!(&rt; page.number(0x8000_1ff0, 8), 0);
    assert_eq!(&rt; page.byte(0x8000_1fff), 0x34);
    assert_eq!(&rt; image.pages().len(), 5);
    let zeros = image.page(0x8_0004);
    assert!(&rt; Page::same_bytes(None, None));
    assert!(&rt; Page::same_bytes(None, zeros));
    assert!(&rt; Page::same_bytes(zeros, None));
    assert!(&rt; !Page::same_bytes(Some(page), None));
    assert!(&rt; !Page::same_bytes(zeros, Some(page)));
    assert!(&rt; Page::same_bytes(Some(page), image.page(0x8_0003)));
    assert!(&rt; !Page::same_bytes(Some(page), image.page(0x8_0005)));
    Ok(())
}

#[test]
fn pages_that_hold_bytes(rt: HostRuntime) -> Result<(), Fail> {
    let ram = Span::new(0x8000_0000, 0x1_0000).ok_or("no range")?;
    let text = b"@8000f000 01 @80001ffe 12 34 56 @80004000 00 @80008800 00 07";
    let pieces = read_image(rt.alloc(), text, ram)?;
    let image = PageImage::build(rt.alloc(), &pieces, ram)?;
    for (from, page) in [
        (0, Some(0x8000_1000)),
        (0x8000_1000, Some(0x8000_1000)),
        (0x8000_2000, Some(0x8000_2000)),
        (0x8000_3000, Some(0x8000_8000)),
        (0x8000_8000, Some(0x8000_8000)),
        (0x8000_9000, Some(0x8000_f000)),
        (0x8001_0000, None),
        (u64::MAX - 4095, None),
    ] {
        assert_eq!(rt; image.next_page(from), page);
    }
    Ok(())
}

#[test]
fn numbers_of_pages(rt: HostRuntime) -> Result<(), Fail> {
    let mut odd = PageNumbers::none(rt.alloc());
    for number in [7, 3, 5, 3] {
        odd.add(number)?;
    }
    let mut far = PageNumbers::none(rt.alloc());
    for number in [5, 9, PAGES] {
        far.add(number)?;
    }
    let all = odd.union(&far)?;
    for (least, next) in [
        (0, Some(3)),
        (3, Some(3)),
        (4, Some(5)),
        (6, Some(7)),
        (8, Some(9)),
        (10, None),
        (PAGES, None),
    ] {
        assert_eq!(rt; all.next(least), next);
    }
    assert_eq!(&rt; odd.next(8), None);
    Ok(())
}
