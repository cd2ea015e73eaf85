// The first question that gets a no is the one that is answered.
use crate::checks::{each_refused, refused};
use std::test::Fail;

#[test]
fn questions_of_one_line(rt: HostRuntime) -> Result<(), Fail> {
    each_refused(
        &rt,
        &[
            // ended before digits, digits before their number
            ("0g", 12, 1),
            ("0g0\n", 13, 1),
            // the number of digits before the kind of frame
            ("040\n", 14, 1),
            // the kind before the size, the size before the ranges
            ("04FFFFFFFFFFFFFFFFFFFFFFFFFFFFFF\n", 21, 1),
            ("010000000000000000\n", 22, 1),
            ("02FFFF\n", 22, 1),
            // the ranges before what is awaited
            ("0205\n", 23, 1),
            ("01000000\n", 23, 1),
        ],
    )
}

#[test]
fn awaited_comes_first_in_the_page_layer(rt: HostRuntime) -> Result<(), Fail> {
    each_refused(
        &rt,
        &[
            ("01010000\n01010001\n", 31, 2),
            ("01010100\n030900001009\n", 31, 2),
            ("01010000\n0200\n030900001009\n", 31, 3),
            // a frame is missing before a start number is
            ("01010100\n0201\n", 34, 3),
            ("0101010000\n0200\n", 34, 3),
        ],
    )
}

#[test]
fn earlier_line_first(rt: HostRuntime) -> Result<(), Fail> {
    each_refused(
        &rt,
        &[
            ("0g\n010\n", 13, 1),
            ("010\n0g\n", 14, 1),
            ("04\n0g\n", 21, 1),
            ("0101\n0g\n", 22, 1),
            ("01000000\n0g\n", 23, 1),
            ("0200\n0g\n", 31, 1),
            ("01010001\n0g\n", 32, 1),
            ("01010000\n0205\n04\n", 23, 2),
            ("01010000\n0200\n0200\n0", 31, 3),
            ("01010100\n0200\n030100001000\n0g\n", 33, 3),
            ("0101000000\n0200\n0200\n", 31, 3),
        ],
    )
}

#[test]
fn length_before_all_lines(rt: HostRuntime) -> Result<(), Fail> {
    let mut text = [b'0'; 4097];
    text[1] = b'g';
    text[2] = 0x0A;
    refused(&rt, &text, 11, 0)?;
    refused(&rt, &text[0..4096], 13, 1)
}
