// Settles a few drawn matches, and says in words what each is and how it comes out.
#![tactic(auto)]

mod examples;
mod settling;
mod words;

use std::io;

fn main(rt: HostRuntime) -> io::Result<()> {
    examples::holding(&rt)?;
    examples::failing(&rt)?;
    examples::short_lists(&rt)?;
    examples::layers(&rt)?;
    examples::refused(&rt)
}
