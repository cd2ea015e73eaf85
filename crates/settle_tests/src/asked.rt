// The questions to a drawn match, with and without the layer, at and beyond the ends of its lists.
use crate::row;
use games::Side::{Left, Right};
use games::drawn::{Drawn, Row};
use games::left_only::LeftOnly;
use games::{Match, Side};
use std::process::Abort;

// At 7: two replies; by byte 255, cut to one; from just past the end; from far beyond it. At 9: cut to two.
fn rows() -> [Row; 7] {
    [
        row(7, 0, 0, 2),
        row(8, 1, 1, 1),
        row(7, 255, 2, 9),
        row(7, 1, 3, 1),
        row(7, 0, u32::MAX, u32::MAX),
        row(9, 0, 1, u32::MAX),
        row(u32::MAX, 0, 0, 0),
    ]
}

static REPLIES: [u32; 3] = [8, 9, 7];

fn check_counts<M: Match>(rt: &impl Abort, game: &M, table: &[(u64, usize)]) {
    for (code, count) in table {
        assert_eq!(rt; game.count(*code), *count, "challenges at {code}");
    }
}

fn check_challenges<M: Match>(
    rt: &impl Abort,
    game: &M,
    table: &[(u64, usize, Option<Side>, Option<usize>)],
) {
    for (code, n, side, replies) in table {
        assert_eq!(rt; game.side(*code, *n), *side, "side of {n} at {code}");
        assert_eq!(rt;
            game.replies(*code, *n),
            *replies,
            "replies to {n} at {code}"
        );
    }
}

fn check_replies<M: Match>(rt: &impl Abort, game: &M, table: &[(u64, usize, usize, Option<u64>)]) {
    for (code, n, k, next) in table {
        assert_eq!(rt;
            game.next(*code, *n, *k),
            *next,
            "reply {k} to {n} at {code}"
        );
    }
}

const BEYOND: u64 = 1 << 32;

#[test]
fn drawn(rt: HostRuntime) {
    let game = Drawn {
        start: 7,
        rows: &rows(),
        replies: &REPLIES,
    };
    assert_eq!(rt; game.start(), 7);
    assert_eq!(rt; game.top(), BEYOND);
    let counts = [
        (7, 4),
        (8, 1),
        (9, 1),
        (10, 0),
        (0, 0),
        (BEYOND - 1, 1),
        (BEYOND, 0),
        (BEYOND + 7, 0),
        (u64::MAX, 0),
    ];
    check_counts(&rt, &game, &counts);
    check_challenges(
        &rt,
        &game,
        &[
            (7, 0, Some(Left), Some(2)),
            (7, 1, Some(Right), Some(1)),
            (7, 2, Some(Right), Some(0)),
            (7, 3, Some(Left), Some(0)),
            (7, 4, None, None),
            (7, usize::MAX, None, None),
            (8, 0, Some(Right), Some(1)),
            (8, 1, None, None),
            (9, 0, Some(Left), Some(2)),
            (10, 0, None, None),
            (BEYOND - 1, 0, Some(Left), Some(0)),
            (BEYOND + 7, 0, None, None),
        ],
    );
    check_replies(
        &rt,
        &game,
        &[
            (7, 0, 0, Some(8)),
            (7, 0, 1, Some(9)),
            (7, 0, 2, None),
            (7, 0, usize::MAX, None),
            (7, 1, 0, Some(7)),
            (7, 1, 1, None),
            (7, 2, 0, None),
            (7, 3, 0, None),
            (7, 4, 0, None),
            (9, 0, 0, Some(9)),
            (9, 0, 1, Some(7)),
            (9, 0, 2, None),
            (10, 0, 0, None),
        ],
    );
}

#[test]
fn left_only(rt: HostRuntime) {
    let game = LeftOnly {
        game: Drawn {
            start: 7,
            rows: &rows(),
            replies: &REPLIES,
        },
    };
    assert_eq!(rt; game.start(), 7);
    assert_eq!(rt; game.top(), BEYOND);
    check_counts(
        &rt,
        &game,
        &[
            (7, 2),
            (8, 0),
            (9, 1),
            (10, 0),
            (BEYOND - 1, 1),
            (BEYOND, 0),
            (BEYOND + 7, 0),
            (u64::MAX, 0),
        ],
    );
    check_challenges(
        &rt,
        &game,
        &[
            (7, 0, Some(Left), Some(2)),
            (7, 1, Some(Left), Some(0)),
            (7, 2, None, None),
            (7, usize::MAX, None, None),
            (8, 0, None, None),
            (9, 0, Some(Left), Some(2)),
            (9, 1, None, None),
            (10, 0, None, None),
            (BEYOND + 7, 0, None, None),
        ],
    );
    check_replies(
        &rt,
        &game,
        &[
            (7, 0, 1, Some(9)),
            (7, 0, 2, None),
            (7, 1, 0, None),
            (7, 2, 0, None),
            (8, 0, 0, None),
            (9, 0, 1, Some(7)),
            (9, 0, 2, None),
            (10, 0, 0, None),
        ],
    );
}

#[test]
fn empty(rt: HostRuntime) {
    let game = Drawn {
        start: u32::MAX,
        rows: &[],
        replies: &[],
    };
    assert_eq!(rt; game.start(), BEYOND - 1);
    check_counts(&rt, &game, &[(0, 0), (BEYOND - 1, 0)]);
    check_challenges(
        &rt,
        &game,
        &[(0, 0, None, None), (BEYOND - 1, 0, None, None)],
    );
    check_replies(&rt, &game, &[(0, 0, 0, None), (BEYOND - 1, 0, 0, None)]);
}
