// The dump of a page, beside the text that the page was read from.
use dump::writing::write;
use pages::page::Page;
use std::io;

pub(crate) fn print_dump(rt: &impl Print, page: &Page, text: &[u8]) -> io::Result<()> {
    let mut out = [0; 4096];
    let Ok(len) = write(page, &mut out) else {
        return println!(rt; "Written back, the dump is longer than 4096 bytes.");
    };
    let dump = &out[0..len];
    println!(rt; "Written back, the dump is:")?;
    rt.write_all(dump)?;
    if dump == text {
        println!(rt; "That is the text that was read, byte for byte.")
    } else {
        println!(rt; "That is not the text that was read.")
    }
}
