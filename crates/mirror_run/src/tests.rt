//! Tests of what a terminal is sent.

use crate::screen::Screen;
use crate::under_way::{Reached, UnderWay, shown_name};
use std::alloc::{AllocError, Global};
use std::sync::Arc;
use std::test::Fail;
use std::time::{Clock, Instant};

#[test]
fn a_name_moves_no_cursor(rt: HostRuntime) -> Result<(), Fail> {
    let shown = shown_name(rt.alloc(), "a\x1b[2J\tb\u{9b}c\u{202e}d\u{7f}é日")?;
    assert_eq!(rt;
        shown.as_str(),
        "a\u{fffd}[2J\u{fffd}b\u{fffd}c\u{fffd}d\u{fffd}é日"
    );
    Ok(())
}

/// These lines, which have bars between them.
fn lines_of(alloc: Global, text: &str) -> Result<Vec<String>, AllocError> {
    let mut lines = Vec::new(alloc);
    for line in text.split('|') {
        lines.push(String::from_str(alloc, line)?)?;
    }
    Ok(lines)
}

#[test]
fn lines_are_drawn_over_those_before(rt: HostRuntime) -> Result<(), Fail> {
    let alloc = rt.alloc();
    let mut screen = Screen::new();
    let three = screen.redraw(alloc, &lines_of(alloc, "a|b|c")?)?;
    let one = screen.redraw(alloc, &lines_of(alloc, "d")?)?;
    let gone = screen.clear(alloc)?;
    // CUU, EL, ED and DECAWM of the VT100
    assert_eq!(rt;
        (three.as_str(), one.as_str(), gone.as_str()),
        (
            "\r\x1b[?7la\x1b[K\nb\x1b[K\nc\x1b[K\x1b[J\x1b[?7h",
            "\r\x1b[A\x1b[A\x1b[?7ld\x1b[K\x1b[J\x1b[?7h",
            "\r\x1b[J",
        )
    );
    Ok(())
}

/// The line of a file of this size, of which this place was come to from another.
fn line_at<R: Clock + AllocGlobal>(
    rt: &R,
    size: u64,
    begin: u64,
    place: u64,
) -> Result<String, Fail> {
    let now = Instant::now(rt)?;
    let reached = Reached::new();
    reached.begin(begin);
    reached.reach(place);
    let Ok(reached) = Arc::new(rt.alloc(), reached) else {
        return Err(AllocError.into());
    };
    let file = Box::new(
        rt.alloc(),
        UnderWay {
            number: 0,
            name: String::from_str(rt.alloc(), "./a")?,
            size,
            reached,
            start: Some(now),
        },
    )?;
    Ok(file.line(rt.alloc(), now)?)
}

#[test]
fn a_line_says_how_far_its_file_has_come(rt: HostRuntime) -> Result<(), Fail> {
    let half = line_at(&rt, 40_000, 0, 20_000)?;
    let more = line_at(&rt, u64::MAX, u64::MAX - 5, u64::MAX)?;
    let none = line_at(&rt, 0, 0, 0)?;
    assert_eq!(rt;
        (half.as_str(), more.as_str(), none.as_str()),
        (
            "[##########..........]  50 %   20 kB/s  ./a",
            "[####################] 100 %     5 B/s  ./a",
            "[####################] 100 %     0 B/s  ./a",
        )
    );
    Ok(())
}
