// Each field of a frame at the ends of its range and just beyond them.
use crate::checks::{each_accepted, each_refused};
use std::test::Fail;

#[test]
fn header_fields(rt: HostRuntime) -> Result<(), Fail> {
    each_refused(
        &rt,
        &[
            // screens: 01 to 20
            ("01000000\n", 23, 1),
            ("01010000\n", 34, 2),
            ("01200000\n", 34, 2),
            ("01210000\n", 23, 1),
            // lines: 00 to 80
            ("01018000\n", 34, 2),
            ("01018100\n", 23, 1),
            // start numbers: 00 to 07
            ("0101000007\n", 34, 2),
            ("0101000008\n", 23, 1),
            ("0101000007070707\n", 34, 2),
            ("0101000007070708\n", 23, 1),
        ],
    )
}

#[test]
fn screen_fields(rt: HostRuntime) -> Result<(), Fail> {
    each_refused(
        &rt,
        &[("01010000\n0205\n", 23, 2), ("01010000\n02FF\n", 23, 2)],
    )?;
    each_accepted(&rt, &["01010000\n0200\n", "0101000000000000\n0204\n"]);
    Ok(())
}

// A first frame that is a line in range is only one that is not awaited.
#[test]
fn line_fields(rt: HostRuntime) -> Result<(), Fail> {
    each_refused(
        &rt,
        &[
            // any screen left and next screen
            ("03FF001F10FF\n", 31, 1),
            // kind: 00 or 01
            ("030001000000\n", 31, 1),
            ("030002000000\n", 23, 1),
            ("030002001000\n", 23, 1),
            // port: 00 to 1F
            ("030000001000\n", 31, 1),
            ("0300001F1000\n", 31, 1),
            ("030000201000\n", 23, 1),
            ("030001200000\n", 23, 1),
        ],
    )
}

#[test]
fn third_byte(rt: HostRuntime) -> Result<(), Fail> {
    each_refused(
        &rt,
        &[
            // 10 in a TAKE
            ("030000000000\n", 23, 1),
            ("030000000F00\n", 23, 1),
            ("030000001000\n", 31, 1),
            ("030000001100\n", 23, 1),
            // 00 to 03 in a SHOW
            ("030001000000\n", 31, 1),
            ("030001000300\n", 31, 1),
            ("030001000400\n", 23, 1),
            ("030001001000\n", 23, 1),
        ],
    )
}

#[test]
fn source_bytes(rt: HostRuntime) -> Result<(), Fail> {
    each_refused(
        &rt,
        &[
            // 00 to 03 or 10
            ("03000000100000\n", 31, 1),
            ("03000000100003\n", 31, 1),
            ("03000000100004\n", 23, 1),
            ("0300000010000F\n", 23, 1),
            ("03000000100010\n", 31, 1),
            ("03000000100011\n", 23, 1),
            ("03000000100010101010\n", 31, 1),
            ("03000000100010101011\n", 23, 1),
        ],
    )
}
