// A match, its codes and its answer, in words.
use crate::settling::{Lists, MOST, Way, settle_by};
use games::Side;
use games::drawn::{Drawn, Row};
use settle::{SettleFault, Settled, Verdict};
use std::io;

// Settles the match and says all of it.
pub(crate) fn say(
    rt: &impl Print,
    title: &str,
    game: &Drawn,
    way: Way,
    lists: Lists,
) -> io::Result<()> {
    let mut codes = [0u64; MOST];
    let mut counts = [0u16; MOST];
    let (room, beside) = lists.lengths();
    let codes = &mut codes[0..room];
    let counts = &mut counts[0..beside];
    let answer = settle_by(way, game, codes, counts);
    println!(rt; "{title}")?;
    say_match(rt, game)?;
    say_way(rt, way)?;
    say_answer(rt, answer, codes, counts)?;
    say_refuted(rt, way, answer)?;
    println!(rt; "")
}

fn say_match(rt: &impl Print, game: &Drawn) -> io::Result<()> {
    let start = game.start;
    println!(rt; "  It starts at {start}.")?;
    for row in game.rows {
        say_row(rt, row, game.replies)?;
    }
    Ok(())
}

fn say_row(rt: &impl Print, row: &Row, replies: &[u32]) -> io::Result<()> {
    let code = row.code;
    let side = match row.side() {
        Side::Left => "left",
        Side::Right => "right",
    };
    print!(rt; "  At {code} the {side} challenges; ")?;
    let mut replies = replies
        .iter()
        .skip(row.first as usize)
        .take(row.number as usize);
    let Some(first) = replies.next() else {
        return println!(rt; "there is no reply.");
    };
    print!(rt; "the replies lead to {first}")?;
    for y in replies {
        print!(rt; ", {y}")?;
    }
    println!(rt; ".")
}

fn say_way(rt: &impl Print, way: Way) -> io::Result<()> {
    match way {
        Way::Plain => Ok(()),
        Way::LeftOnly => println!(rt; "  Only the left's challenges are kept."),
        Way::LeftOnlyTwice => println!(rt;
            "  Only the left's challenges are kept, and of those again only the left's."
        ),
        Way::AgainstEvens => println!(rt;
            "  The even codes are put forward as a set in which every challenge has a reply."
        ),
    }
}

fn say_answer(
    rt: &impl Print,
    answer: Result<Settled, SettleFault>,
    codes: &[u64],
    counts: &[u16],
) -> io::Result<()> {
    match answer {
        Ok(settled) => {
            say_codes(rt, settled.codes, codes, counts)?;
            say_verdict(rt, settled.verdict, codes.len())
        }
        Err(fault) => {
            let number = fault.number();
            println!(rt;
                "  Refused, fault {number}: the lists are not equally long, or not of 1 to 1,024 entries."
            )
        }
    }
}

fn say_codes(rt: &impl Print, number: usize, codes: &[u64], counts: &[u16]) -> io::Result<()> {
    for (code, count) in codes.iter().zip(counts.iter()).take(number) {
        match *count {
            0 => println!(rt; "  Code {code}: no count.")?,
            _ => println!(rt; "  Code {code}: count {count}.")?,
        }
    }
    Ok(())
}

fn say_verdict(rt: &impl Print, verdict: Verdict, room: usize) -> io::Result<()> {
    match verdict {
        Verdict::Holds => println!(rt;
            "  The match holds: every challenge can be answered, without end."
        ),
        Verdict::Fails(1) => println!(rt; "  The match fails: one challenge is enough to win."),
        Verdict::Fails(count) => println!(rt;
            "  The match fails: {count} challenges are enough to win, and no fewer."
        ),
        Verdict::Full => println!(rt; "  The lists are full: more than {room} codes are reached."),
    }
}

// What a failing match says of the set that was put forward.
fn say_refuted(rt: &impl Print, way: Way, answer: Result<Settled, SettleFault>) -> io::Result<()> {
    let fails = matches!(
        answer,
        Ok(Settled {
            verdict: Verdict::Fails(_),
            ..
        })
    );
    if way == Way::AgainstEvens && fails {
        println!(rt; "  So the even codes are no such set.")
    } else {
        Ok(())
    }
}
