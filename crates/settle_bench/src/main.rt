// Settles the matches that its arguments name, as large as the lists allow: `chain` or `wide`.
#![tactic(auto)]

mod shapes;

use crate::shapes::{Shape, Table};
use games::drawn::Drawn;
use settle::{SettleFault, Settled, Verdict, settle_drawn};
use std::{env, io};

fn main(rt: HostRuntime) -> anyhow::Result<()> {
    for name in env::args(&rt)?.skip(1) {
        let shape: Shape = name.parse()?;
        let table = shape.table(rt.alloc())?;
        println!(rt; "{name}: {shape}")?;
        say(&rt, settled(&table))?;
    }
    Ok(())
}

fn settled(table: &Table) -> Result<Settled, SettleFault> {
    let mut codes = [0; 1_024];
    let mut counts = [0; 1_024];
    let game = Drawn {
        start: 0,
        rows: table.rows.as_slice(),
        replies: table.replies.as_slice(),
    };
    settle_drawn(&game, &mut codes, &mut counts)
}

fn say(rt: &impl Print, answer: Result<Settled, SettleFault>) -> io::Result<()> {
    match answer {
        Ok(
            Settled {
                codes,
                verdict: Verdict::Holds,
            },
        ) => println!(rt; "  {codes} codes are reached, and it holds."),
        Ok(
            Settled {
                codes,
                verdict: Verdict::Fails(count),
            },
        ) => println!(rt; "  {codes} codes are reached, and it fails with {count} challenges."),
        Ok(
            Settled {
                verdict: Verdict::Full,
                ..
            },
        ) => println!(rt; "  More codes are reached than there is room for."),
        Err(fault) => {
            let number = fault.number();
            println!(rt; "  Refused, fault {number}.")
        }
    }
}
