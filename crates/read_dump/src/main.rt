// Reads a dump from standard input, and says in words which page it is the dump of, or why it is none.
#![tactic(auto)]

mod counted;
mod refusal;
mod sentences;
mod written;

use counted::Counted;
use dump::reading::read;
use programs::text::AsProgram;
use refusal::Refusal;
use sentences::InWords;
use std::io;
use std::io::Read;
use texts::lines::count_lines;

// One byte more than a dump may have, so that a text that is too long is seen to be.
const MOST: usize = 4097;

fn read_input(rt: &HostRuntime) -> io::Result<Vec<u8>> {
    let mut text = Vec::new(rt.alloc());
    rt.stdin().take(MOST as u64).read_to_end(&mut text)?;
    Ok(text)
}

fn print_size(rt: &impl Print, text: &[u8]) -> io::Result<()> {
    let bytes = Counted(text.len(), "byte");
    let lines = Counted(count_lines(text), "text line");
    if text.len() < MOST {
        println!(rt; "Read: {bytes}, {lines}.")
    } else {
        println!(rt; "Read: the first {bytes}, {lines}. The rest is left unread.")
    }
}

fn main(rt: HostRuntime) -> io::Result<()> {
    let input = read_input(&rt)?;
    let text = input.as_slice();
    print_size(&rt, text)?;
    match read(text) {
        Ok(page) => {
            println!(rt; "The text is the dump of a page.")?;
            rt.print(InWords(&page))?;
            println!(rt; "As a program, where a value taken is y:")?;
            rt.print(AsProgram(&page))?;
            written::print_dump(&rt, &page, text)
        }
        Err(fault) => rt.print(Refusal { fault, text }),
    }
}
