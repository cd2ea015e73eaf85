// A page read from its dump and written again, and a page written and read again.
use crate::checks::refused;
use dump::reading::read;
use dump::writing::write;
use lists::BoundedVec;
use pages::page::Page;
use pages::{Line, LineKind, Name, Parts, Port, Screen, Slot, Source};
use std::alloc::{AllocError, Global};
use std::process::Abort;
use std::test::Fail;

// The text is read as a page whose dump it is.
fn comes_back(rt: &impl Abort, text: &[u8]) -> Result<(), Fail> {
    let Ok(page) = read(text) else {
        return Err(Fail::new(format_args!("refused: {}", text.escape_ascii())));
    };
    has_dump(rt, &page, text)
}

fn has_dump(rt: &impl Abort, page: &Page, text: &[u8]) -> Result<(), Fail> {
    let mut out = [0; 4096];
    let Ok(len) = write(page, &mut out) else {
        return Err(Fail::new(format_args!("no room: {}", text.escape_ascii())));
    };
    assert_eq!(rt; &out[0..len], text, "{}", text.escape_ascii());
    Ok(())
}

#[test]
fn dumps_come_back(rt: HostRuntime) -> Result<(), Fail> {
    for text in [
        "01010000\n0200\n",
        "0101000001020304\n0204\n",
        "01030001\n0204\n0200\n0201\n",
        "01010100\n0200\n030000001000\n",
        "0101010007\n0201\n0300011F000000\n",
        "010202000106\n0202\n0200\n030000091001\n0301000410001010\n",
    ] {
        comes_back(&rt, text.as_bytes())?;
    }
    Ok(())
}

// As many screens, slots, lines and sources as a page may have.
fn largest_dump(heap: Global) -> Result<Vec<u8>, AllocError> {
    let mut text = Vec::new(heap);
    text.extend_from_slice(b"0120801F07060504\n")?;
    for _ in 0..32 {
        text.extend_from_slice(b"0204\n")?;
    }
    for _ in 0..128 {
        text.extend_from_slice(b"031F001F101F00031002\n")?;
    }
    Ok(text)
}

#[test]
fn largest_dump_comes_back(rt: HostRuntime) -> Result<(), Fail> {
    let text = largest_dump(rt.alloc())?;
    assert_eq!(rt; text.len(), 2865);
    comes_back(&rt, text.as_slice())
}

#[test]
fn one_line_more_is_refused(rt: HostRuntime) -> Result<(), Fail> {
    let mut text = largest_dump(rt.alloc())?;
    text.extend_from_slice(b"031F001F101F00031002\n")?;
    refused(&rt, text.as_slice(), 31, 162)
}

// On screen 0 a heart rate is taken at port 3, on screen 1 it is shown at port 1.
fn heart_page(start: u8) -> Option<Page> {
    let mut screens = BoundedVec::new(Screen { slots: 0 });
    screens.extend(&[Screen { slots: 0 }, Screen { slots: 1 }]);
    let mut sources = BoundedVec::new(Source::Taken);
    let show = Line {
        from: 1,
        kind: LineKind::Show(Slot(0)),
        port: Port(1),
        next: 0,
        sources,
    };
    sources.extend(&[Source::Taken]);
    let take = Line {
        from: 0,
        kind: LineKind::Take,
        port: Port(3),
        next: 1,
        sources,
    };
    let mut lines = BoundedVec::new(take);
    lines.extend(&[take, show]);
    Page::new(Parts {
        screens,
        lines,
        start,
        numbers: BoundedVec::new(Name(0)),
    })
}

#[test]
fn page_has_its_dump(rt: HostRuntime) -> Result<(), Fail> {
    let Some(page) = heart_page(0) else {
        return Err(Fail::new("not well formed"));
    };
    has_dump(
        &rt,
        &page,
        b"01020200\n0200\n0201\n03000003100110\n030101010000\n",
    )
}

#[test]
fn page_needs_its_start_numbers(rt: HostRuntime) {
    assert!(rt; heart_page(1).is_none());
    assert!(rt; heart_page(2).is_none());
}

#[test]
fn parts_are_what_the_dump_says(rt: HostRuntime) -> Result<(), Fail> {
    let Ok(page) = read(b"010201010507\n0201\n0202\n03010113010000\n") else {
        return Err(Fail::new("refused"));
    };
    assert_eq!(rt; page.start(), 1);
    assert_eq!(rt;
        page.screens(),
        &[Screen { slots: 1 }, Screen { slots: 2 }][..]
    );
    assert_eq!(rt; page.numbers(), &[Name(5), Name(7)][..]);
    let [line] = page.lines() else {
        return Err(Fail::new("not one line"));
    };
    assert_eq!(rt; (line.from, line.port, line.next), (1, Port(0x13), 0));
    assert_eq!(rt; line.kind, LineKind::Show(Slot(1)));
    assert_eq!(rt; line.sources.as_slice(), &[Source::Kept(Slot(0))][..]);
    Ok(())
}
