// Settling: what is answered and what the lists then hold.
use crate::row;
use games::drawn::{Drawn, Row};
use settle::{SettleFault, Settled, Verdict, settle, settle_drawn, settle_drawn_left};
use std::array;
use std::fmt::Display;
use std::process::Abort;

const LEFT: u8 = 0;

const RIGHT: u8 = 1;

// What a match comes to in lists of five.
#[derive(Clone, Copy)]
struct Case {
    verdict: Verdict,
    listed: usize,
    codes: [u64; 5],
    counts: [u16; 5],
}

// The lists held something else before.
fn check<F: Fn(&Drawn, &mut [u64], &mut [u16]) -> Result<Settled, SettleFault>>(
    rt: &impl Abort,
    settle: F,
    game: Drawn,
    case: Case,
    what: &str,
)
    requires { F.IsAlwaysCallable settle }
{
    let mut codes = [99; 5];
    let mut counts = [88; 5];
    let answer = settle(&game, &mut codes, &mut counts);
    let expected = Settled {
        codes: case.listed,
        verdict: case.verdict,
    };
    assert_eq!(rt; answer, Ok(expected), "{what}");
    assert_eq!(rt; codes, case.codes, "{what}");
    assert_eq!(rt; counts, case.counts, "{what}");
}

#[test]
fn fails(rt: HostRuntime) {
    let rows = [
        row(5, LEFT, 0, 1), // 6
        row(6, RIGHT, 9, 1), // none: beyond the end
        row(4, LEFT, 2, 1), // 3
        row(4, RIGHT, 1, 1), // 5
        row(3, LEFT, 2, 1), // 3
        row(9, LEFT, 4, 7), // 4: cut
        row(9, LEFT, 0, 0), // none
    ];
    let replies = [6, 5, 3, 9, 4];
    let from = |start| Drawn {
        start,
        rows: &rows,
        replies: &replies,
    };
    let one = Case {
        verdict: Verdict::Fails(1),
        listed: 1,
        codes: [6, 0, 0, 0, 0],
        counts: [1, 0, 0, 0, 0],
    };
    check(&rt, settle_drawn, from(6), one, "one challenge");
    let two = Case {
        verdict: Verdict::Fails(2),
        listed: 2,
        codes: [5, 6, 0, 0, 0],
        counts: [2, 1, 0, 0, 0],
    };
    check(&rt, settle_drawn, from(5), two, "two challenges");
    let three = Case {
        verdict: Verdict::Fails(3),
        listed: 4,
        codes: [4, 3, 5, 6, 0],
        counts: [3, 0, 2, 1, 0],
    };
    check(&rt, settle_drawn, from(4), three, "three challenges");
    let later = Case {
        verdict: Verdict::Fails(1),
        listed: 5,
        codes: [9, 4, 3, 5, 6],
        counts: [1, 3, 0, 2, 1],
    };
    check(
        &rt,
        settle_drawn,
        from(9),
        later,
        "rounds go on after START has its count",
    );
}

#[test]
fn holds(rt: HostRuntime) {
    let rows = [row(1, LEFT, 0, 2), row(2, RIGHT, 1, 3), row(3, RIGHT, 2, 0)];
    let replies = [3, 2, 1, 2];
    let from = |start| Drawn {
        start,
        rows: &rows,
        replies: &replies,
    };
    let cycle = Case {
        verdict: Verdict::Holds,
        listed: 3,
        codes: [1, 3, 2, 0, 0],
        counts: [0, 1, 0, 0, 0],
    };
    check(&rt, settle_drawn, from(1), cycle, "a cycle");
    let alone = Case {
        verdict: Verdict::Holds,
        listed: 1,
        codes: [7, 0, 0, 0, 0],
        counts: [0, 0, 0, 0, 0],
    };
    check(&rt, settle_drawn, from(7), alone, "no challenge");
    let kept = Case {
        verdict: Verdict::Holds,
        listed: 1,
        codes: [3, 0, 0, 0, 0],
        counts: [0, 0, 0, 0, 0],
    };
    check(
        &rt,
        settle_drawn_left,
        from(3),
        kept,
        "it fails by the right's challenge alone",
    );
}

#[test]
fn full(rt: HostRuntime) {
    let rows = [row(0, LEFT, 0, 6), row(1, RIGHT, 0, 5)];
    let replies = [0, 1, 2, 3, 4, 5];
    let all = Drawn {
        start: 0,
        rows: &rows,
        replies: &replies,
    };
    let none = Case {
        verdict: Verdict::Full,
        listed: 0,
        codes: [0; 5],
        counts: [0; 5],
    };
    check(
        &rt,
        settle_drawn,
        all,
        none,
        "one more than there is room for",
    );
    let second = Drawn {
        start: 1,
        rows: &rows[1..],
        replies: &replies,
    };
    let five = Case {
        verdict: Verdict::Holds,
        listed: 5,
        codes: [1, 0, 2, 3, 4],
        counts: [0; 5],
    };
    check(
        &rt,
        settle_drawn,
        second,
        five,
        "just as many as there is room for",
    );
}

fn all_are<T: Copy + PartialEq>(xs: &[T], v: T) -> bool {
    xs.iter().all(|x| *x == v)
}

// START first, and 0 in all other entries.
fn check_taken(rt: &impl Abort, codes: &[u64], counts: &[u16], what: &impl Display) {
    let [start, rest @ ..] = codes else {
        panic!(rt; "{what}: empty lists were taken");
    };
    assert_eq!(rt; *start, 7, "{what}");
    assert!(rt; all_are(rest, 0) && all_are(counts, 0), "{what}");
}

fn check_refused(
    rt: &impl Abort,
    fault: SettleFault,
    codes: &[u64],
    counts: &[u16],
    what: &impl Display,
) {
    assert_eq!(rt; fault.number(), 44, "{what}");
    assert!(rt; all_are(codes, 99) && all_are(counts, 88), "{what}");
}

// Settles a match without challenges in these lists.
fn check_lists(
    rt: &impl Abort,
    codes: &mut [u64],
    counts: &mut [u16],
    taken: bool,
    what: &impl Display,
) {
    let game = Drawn {
        start: 7,
        rows: &[],
        replies: &[],
    };
    let answer = settle(&game, codes, counts);
    assert_eq!(rt; answer.is_ok(), taken, "{what}");
    match answer {
        Ok(_) => check_taken(rt, codes, counts, what),
        Err(fault) => check_refused(rt, fault, codes, counts, what),
    }
}

#[test]
fn lengths(rt: HostRuntime) {
    let table = [
        (0, 0, false),
        (0, 1, false),
        (1, 0, false),
        (1, 1, true),
        (1, 2, false),
        (1_023, 1_024, false),
        (1_024, 1_024, true),
        (1_024, 1_025, false),
        (1_025, 1_024, false),
        (1_025, 1_025, false),
    ];
    for (codes, counts, taken) in table {
        let mut found = [99u64; 1_025];
        let mut beside = [88u16; 1_025];
        assert!(rt; codes <= 1_025 && counts <= 1_025);
        check_lists(
            &rt,
            &mut found[0..codes],
            &mut beside[0..counts],
            taken,
            &format_args!("{codes} and {counts}"),
        );
    }
}

// Each code leads to the next, and the last to 0.
fn check_ring(rt: &impl Abort, size: u32, verdict: Verdict, listed: usize, last: u64) {
    let rows: [Row; 1_025] = array::from_fn(|i| row(i as u32, LEFT, i as u32, 1));
    let replies: [u32; 1_025] = array::from_fn(|i| {
        let next = i as u32 + 1;
        if next < size { next } else { 0 }
    });
    let mut codes = [99u64; 1_024];
    let mut counts = [88u16; 1_024];
    let game = Drawn {
        start: 0,
        rows: &rows,
        replies: &replies,
    };
    let expected = Settled {
        codes: listed,
        verdict,
    };
    assert_eq!(rt;
        settle(&game, &mut codes, &mut counts),
        Ok(expected),
        "{size}"
    );
    assert!(rt; all_are(&counts, 0), "{size}");
    assert_eq!(rt; codes[1_023], last, "{size}");
}

#[test]
fn longest(rt: HostRuntime) {
    check_ring(&rt, 1_023, Verdict::Holds, 1_023, 0);
    check_ring(&rt, 1_024, Verdict::Holds, 1_024, 1_023);
    check_ring(&rt, 1_025, Verdict::Full, 0, 0);
}
