// LINE, and how many lines a text has.
use std::process::Abort;
use std::test::Fail;
use texts::faults::LineFault;
use texts::lines::{count_lines, line};

// Three lines and a piece without 0A on the left, two empty lines on the right.
const LEFT: &[u8; 9] = b"a\nbb\n\nccc";

const RIGHT: &[u8; 2] = b"\n\n";

// What is answered: the line, or the number of the refusal.
fn answers(rt: &impl Abort, side: u8, number: usize, answer: Result<&[u8], u8>) {
    assert_eq!(rt;
        line(LEFT, RIGHT, side, number).map_err(|fault| fault.number()),
        answer,
        "line {number} of side {side}"
    );
}

#[test]
fn lines_of_the_left(rt: HostRuntime) {
    answers(&rt, 0, 0, Err(74));
    answers(&rt, 0, 1, Ok(b"a"));
    answers(&rt, 0, 2, Ok(b"bb"));
    answers(&rt, 0, 3, Ok(b""));
    answers(&rt, 0, 4, Ok(b"ccc"));
    answers(&rt, 0, 5, Err(74));
    answers(&rt, 0, usize::MAX, Err(74));
}

#[test]
fn lines_of_the_right(rt: HostRuntime) {
    answers(&rt, 1, 0, Err(74));
    answers(&rt, 1, 1, Ok(b""));
    answers(&rt, 1, 2, Ok(b""));
    answers(&rt, 1, 3, Err(74));
}

#[test]
fn no_other_side(rt: HostRuntime) -> Result<(), Fail> {
    answers(&rt, 2, 1, Err(10));
    answers(&rt, 2, 0, Err(10));
    answers(&rt, 255, 9, Err(10));
    let Err(LineFault::Text(fault)) = line(LEFT, RIGHT, 2, 1) else {
        return Err(Fail::new("no fault of the text layer"));
    };
    assert_eq!(rt; fault.line, 0);
    Ok(())
}

#[test]
fn no_line_of_an_empty_text(rt: HostRuntime) {
    for number in 0..3 {
        assert_eq!(rt;
            line(b"", LEFT, 0, number).map_err(|fault| fault.number()),
            Err(74)
        );
    }
}

#[test]
fn numbers_of_lines(rt: HostRuntime) {
    assert_eq!(rt; count_lines(LEFT), 4);
    assert_eq!(rt; count_lines(RIGHT), 2);
    assert_eq!(rt; count_lines(b""), 0);
    assert_eq!(rt; count_lines(b"\n"), 1);
    assert_eq!(rt; count_lines(b"a"), 1);
    assert_eq!(rt; count_lines(b"a\n"), 1);
    assert_eq!(rt; count_lines(b"a\nb"), 2);
}
