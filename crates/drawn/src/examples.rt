// The matches that are shown.
use crate::settling::{Lists, Way};
use crate::words::say;
use games::drawn::{Drawn, Row};
use std::io;

const LEFT: u8 = 0;

const RIGHT: u8 = 1;

// A row in one line of a table. A public one of the library would promise no more than its fields say.
fn row(code: u32, side: u8, first: u32, number: u32) -> Row {
    Row {
        code,
        side,
        first,
        number,
    }
}

// The left's challenge is answered by the right, and the other way round, without end.
fn circle() -> [Row; 2] {
    [row(1, LEFT, 0, 1), row(2, RIGHT, 1, 1)]
}

static CIRCLE_REPLIES: [u32; 2] = [2, 1];

fn dead_end() -> [Row; 2] {
    [row(5, LEFT, 0, 1), row(5, RIGHT, 1, 0)]
}

static DEAD_END_REPLIES: [u32; 1] = [6];

// At 1 the first challenge meets a reply without a count, the second one of count 3, and the third one of count 2.
fn detour() -> [Row; 8] {
    [
        row(1, LEFT, 0, 2),
        row(1, LEFT, 2, 1),
        row(1, RIGHT, 3, 1),
        row(2, LEFT, 0, 0),
        row(3, RIGHT, 1, 1),
        row(4, LEFT, 1, 1),
        row(4, LEFT, 4, 1),
        row(5, LEFT, 3, 1),
    ]
}

static DETOUR_REPLIES: [u32; 5] = [2, 3, 5, 4, 2];

// Four codes, one after another and back.
fn ring() -> [Row; 4] {
    [
        row(10, LEFT, 1, 1),
        row(11, LEFT, 2, 1),
        row(12, LEFT, 3, 1),
        row(13, LEFT, 0, 1),
    ]
}

static RING_REPLIES: [u32; 4] = [10, 11, 12, 13];

// At 4 there is no even reply.
fn evens() -> [Row; 3] {
    [row(2, LEFT, 0, 2), row(3, RIGHT, 0, 0), row(4, LEFT, 0, 1)]
}

static EVENS_REPLIES: [u32; 2] = [3, 4];

pub(crate) fn holding(rt: &impl Print) -> io::Result<()> {
    let game = Drawn {
        start: 1,
        rows: &circle(),
        replies: &CIRCLE_REPLIES,
    };
    say(
        rt,
        "Two codes that lead to each other",
        &game,
        Way::Plain,
        Lists::Long,
    )
}

pub(crate) fn failing(rt: &impl Print) -> io::Result<()> {
    let game = Drawn {
        start: 5,
        rows: &dead_end(),
        replies: &DEAD_END_REPLIES,
    };
    say(
        rt,
        "A challenge without a reply",
        &game,
        Way::Plain,
        Lists::Long,
    )?;
    let game = Drawn {
        start: 1,
        rows: &detour(),
        replies: &DETOUR_REPLIES,
    };
    say(
        rt,
        "The third challenge wins soonest",
        &game,
        Way::Plain,
        Lists::Long,
    )
}

pub(crate) fn short_lists(rt: &impl Print) -> io::Result<()> {
    let game = Drawn {
        start: 10,
        rows: &ring(),
        replies: &RING_REPLIES,
    };
    say(
        rt,
        "Four codes in lists of three",
        &game,
        Way::Plain,
        Lists::Short,
    )?;
    say(
        rt,
        "Four codes in longer lists",
        &game,
        Way::Plain,
        Lists::Long,
    )
}

pub(crate) fn layers(rt: &impl Print) -> io::Result<()> {
    let game = Drawn {
        start: 5,
        rows: &dead_end(),
        replies: &DEAD_END_REPLIES,
    };
    say(
        rt,
        "The right may not challenge",
        &game,
        Way::LeftOnly,
        Lists::Long,
    )?;
    say(
        rt,
        "The right may not challenge, said twice",
        &game,
        Way::LeftOnlyTwice,
        Lists::Long,
    )?;
    let game = Drawn {
        start: 2,
        rows: &evens(),
        replies: &EVENS_REPLIES,
    };
    say(rt, "Even codes", &game, Way::AgainstEvens, Lists::Long)
}

pub(crate) fn refused(rt: &impl Print) -> io::Result<()> {
    let game = Drawn {
        start: 1,
        rows: &circle(),
        replies: &CIRCLE_REPLIES,
    };
    say(rt, "Unequal lists", &game, Way::Plain, Lists::Unequal)
}
