// A dump in memory that is long enough for it, and in memory that is not.
use dump::reading::read;
use dump::writing::write;
use std::test::Fail;

const DUMP: &[u8; 14] = b"01010000\n0200\n";

// Writes the page of DUMP into out: its length, or the number of the refusal.
fn write_into(out: &mut [u8]) -> Result<Result<usize, u8>, Fail> {
    let Ok(page) = read(DUMP) else {
        return Err(Fail::new("refused"));
    };
    Ok(write(&page, out).map_err(|fault| fault.number()))
}

#[test]
fn exactly_enough(rt: HostRuntime) -> Result<(), Fail> {
    let mut out = [0xEE; 14];
    assert_eq!(rt; write_into(&mut out)?, Ok(14));
    assert_eq!(rt; out, *DUMP);
    Ok(())
}

#[test]
fn one_byte_short(rt: HostRuntime) -> Result<(), Fail> {
    let mut out = [0xEE; 13];
    assert_eq!(rt; write_into(&mut out)?, Err(71));
    assert_eq!(rt; out, [0xEE; 13]);
    Ok(())
}

#[test]
fn no_memory(rt: HostRuntime) -> Result<(), Fail> {
    assert_eq!(rt; write_into(&mut [])?, Err(71));
    Ok(())
}

#[test]
fn bytes_beyond_stay(rt: HostRuntime) -> Result<(), Fail> {
    let mut out = [0xEE; 17];
    assert_eq!(rt; write_into(&mut out)?, Ok(14));
    assert_eq!(rt; &out, b"01010000\n0200\n\xEE\xEE\xEE");
    Ok(())
}
