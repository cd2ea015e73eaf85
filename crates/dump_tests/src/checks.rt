// What tests of the reader check.
use dump::faults::Layer;
use dump::reading::read;
use std::process::Abort;
use std::test::Fail;

// The layer that the first digit of a refusal's number says.
fn layer_of(number: u8) -> Option<Layer> {
    match number / 10 {
        1 => Some(Layer::Text),
        2 => Some(Layer::Frame),
        3 => Some(Layer::Page),
        _ => None,
    }
}

// The text is refused with this number at this text line.
pub(crate) fn refused(rt: &impl Abort, text: &[u8], number: u8, line: usize) -> Result<(), Fail> {
    let Err(fault) = read(text) else {
        return Err(Fail::new(format_args!("accepted: {}", text.escape_ascii())));
    };
    assert_eq!(rt;
        (fault.number(), fault.line(), Some(fault.layer())),
        (number, line, layer_of(number)),
        "{}",
        text.escape_ascii()
    );
    Ok(())
}

// A row is a text, the number of its refusal and the text line.
pub(crate) fn each_refused(rt: &impl Abort, rows: &[(&str, u8, usize)]) -> Result<(), Fail> {
    for (text, number, line) in rows {
        refused(rt, text.as_bytes(), *number, *line)?;
    }
    Ok(())
}

pub(crate) fn each_accepted(rt: &impl Abort, texts: &[&str]) {
    for text in texts {
        assert!(rt; read(text.as_bytes()).is_ok(), "{}", text);
    }
}
