use super::*;
use records::PAGE_SIZE;
use std::process::Abort;
use std::test::Fail;

// Opens a page if it may be opened.
fn open(frames: &mut Frames, rt: &impl Abort) -> Result<u64, NoFrame> {
    assert!(rt; frames.next_number() + 1 < 1 << NUMBER_BITS);
    frames.open_next()
}

#[test]
fn twelve_frames_hold_twelve_pages(rt: HostRuntime) -> Result<(), Fail> {
    let mut frames = Frames::new(rt.alloc(), 12)?;
    assert_eq!(rt; frames.tail(), None);
    for number in 0..12 {
        assert_eq!(rt; frames.free() as u64, 12 - number);
        assert_eq!(rt; open(&mut frames, &rt), Ok(number));
        assert_eq!(rt; frames.tail(), Some(number));
    }
    assert_eq!(rt; open(&mut frames, &rt), Err(NoFrame));
    assert!(rt; frames.drop_oldest());
    assert_eq!(rt; open(&mut frames, &rt), Ok(12));
    assert_eq!(rt; frames.oldest(), 1);
    assert_eq!(rt; frames.free(), 0);
    Ok(())
}

#[test]
fn four_of_twelve_pages_are_mutable(rt: HostRuntime) -> Result<(), Fail> {
    let mut frames = Frames::new(rt.alloc(), 12)?;
    assert!(rt; !frames.drop_oldest());
    for opened in 1..13 {
        let tail = open(&mut frames, &rt).ok().unwrap_or(99);
        assert_eq!(rt; tail, opened - 1);
        let first = if opened < 4 { 0 } else { opened - 4 };
        assert_eq!(rt; frames.first_mutable(), first);
        for number in 0..14 {
            assert_eq!(rt; frames.page(number).is_some(), number < opened);
            let mutable = first <= number && number < opened;
            assert_eq!(rt; frames.page_mut(number).is_some(), mutable);
        }
    }
    for oldest in 0..8 {
        assert_eq!(rt; frames.oldest(), oldest);
        assert!(rt; frames.drop_oldest());
        assert!(rt; frames.page(oldest).is_none());
    }
    assert!(rt; !frames.drop_oldest());
    assert_eq!(rt; frames.free(), 8);
    Ok(())
}

#[test]
fn a_frame_that_is_used_again_holds_an_empty_page(rt: HostRuntime) -> Result<(), Fail> {
    let mut frames = Frames::new(rt.alloc(), 5)?;
    for number in 0..40 {
        frames.drop_oldest();
        assert_eq!(rt; open(&mut frames, &rt), Ok(number));
        let empty = Page::new(rt.alloc(), number)?;
        if let Some(page) = frames.page_mut(number) {
            assert!(rt; *page == empty);
            page.bytes_mut()[PAGE_SIZE - 1] = (number % 251 + 1) as u8;
        }
        for older in frames.oldest()..number + 1 {
            let mark = frames.page(older).map(last_byte);
            assert_eq!(rt; mark, Some((older % 251 + 1) as u8));
        }
    }
    Ok(())
}

fn last_byte(page: &Page) -> u8 {
    let (bytes, _) = page.parts();
    match bytes.get(PAGE_SIZE - 1) {
        Some(byte) => *byte,
        None => 0,
    }
}
