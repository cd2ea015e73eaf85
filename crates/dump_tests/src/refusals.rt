// Each question of the reader, with texts that get a no.
use crate::checks::{each_accepted, each_refused, refused};
use std::test::Fail;

#[test]
fn at_most_4096_bytes(rt: HostRuntime) -> Result<(), Fail> {
    refused(&rt, &[b'0'; 4096], 12, 1)?;
    refused(&rt, &[0x0A; 4096], 14, 1)?;
    refused(&rt, &[b'0'; 4097], 11, 0)?;
    refused(&rt, &[0x0A; 4097], 11, 0)
}

#[test]
fn ended_by_0a(rt: HostRuntime) -> Result<(), Fail> {
    each_refused(
        &rt,
        &[
            ("0", 12, 1),
            ("01010000", 12, 1),
            ("01010000\n0200", 12, 2),
            ("01010000\n0200\n0", 12, 3),
        ],
    )
}

#[test]
fn only_digits(rt: HostRuntime) -> Result<(), Fail> {
    each_refused(
        &rt,
        &[
            ("0a\n", 13, 1),
            ("0f\n", 13, 1),
            ("/0\n", 13, 1),
            (":0\n", 13, 1),
            ("@0\n", 13, 1),
            ("0G\n", 13, 1),
            ("01010000 \n", 13, 1),
            ("01010000\r\n0200\r\n", 13, 1),
            ("01010000\n02 00\n", 13, 2),
        ],
    )
}

#[test]
fn any_other_byte_is_no_digit(rt: HostRuntime) -> Result<(), Fail> {
    for b in [0x00, 0x09, 0x0B, 0x7F, 0x80, 0xFF] {
        refused(&rt, &[b, b'0', 0x0A], 13, 1)?;
    }
    Ok(())
}

#[test]
fn even_number_of_2_to_32_digits(rt: HostRuntime) -> Result<(), Fail> {
    each_refused(
        &rt,
        &[
            ("\n", 14, 1),
            ("0\n", 14, 1),
            ("010\n", 14, 1),
            ("010100000000000000000000000000000\n", 14, 1),
            ("0101000000000000000000000000000000\n", 14, 1),
            ("01010000\n\n", 14, 2),
            ("01010000\n020\n", 14, 2),
            // 2 and 32 digits are as many as may be: the next layer asks on
            ("01\n", 22, 1),
            ("01010000000000000000000000000000\n", 22, 1),
        ],
    )
}

#[test]
fn kind_of_frame(rt: HostRuntime) -> Result<(), Fail> {
    each_refused(
        &rt,
        &[
            ("00\n", 21, 1),
            ("04\n", 21, 1),
            ("FF\n", 21, 1),
            ("10010000\n", 21, 1),
            ("01010000\n0400\n", 21, 2),
        ],
    )
}

#[test]
fn size_of_frame(rt: HostRuntime) -> Result<(), Fail> {
    each_refused(
        &rt,
        &[
            ("0101\n", 22, 1),
            ("010100\n", 22, 1),
            ("010100000000000000\n", 22, 1),
            ("01010000\n02\n", 22, 2),
            ("01010000\n020000\n", 22, 2),
            ("01010100\n0200\n0300000010\n", 22, 3),
            ("01010100\n0200\n0300000010001010101010\n", 22, 3),
        ],
    )
}

#[test]
fn awaited_frame(rt: HostRuntime) -> Result<(), Fail> {
    each_refused(
        &rt,
        &[
            ("0200\n", 31, 1),
            ("030000001000\n", 31, 1),
            ("01010000\n01010000\n", 31, 2),
            ("01010100\n030000001000\n", 31, 2),
            ("01020100\n0200\n030000001000\n", 31, 3),
            ("01010100\n0200\n0200\n", 31, 3),
            ("01010100\n0200\n01010000\n", 31, 3),
            // after the last line none is awaited
            ("01010000\n0200\n01010000\n", 31, 3),
            ("01010000\n0200\n0200\n", 31, 3),
            ("01010000\n0200\n030000001000\n", 31, 3),
            ("01010100\n0200\n030000001000\n030000001000\n", 31, 4),
        ],
    )
}

#[test]
fn start_screen_exists(rt: HostRuntime) -> Result<(), Fail> {
    each_refused(
        &rt,
        &[
            ("01010001\n", 32, 1),
            ("01020002\n", 32, 1),
            ("01200020\n", 32, 1),
            ("010100FF\n", 32, 1),
            // the last of 32 screens is one: the screens are awaited
            ("0120001F\n", 34, 2),
        ],
    )
}

// Screen 0 has one slot, screen 1 has two; text line 4 is the line.
#[test]
fn line_stands(rt: HostRuntime) -> Result<(), Fail> {
    each_refused(
        &rt,
        &[
            // no such screen to leave, or to go to
            ("0102010000\n0201\n0202\n03020000100010\n", 33, 4),
            ("0102010000\n0201\n0202\n03FF0000100010\n", 33, 4),
            ("0102010000\n0201\n0202\n030000001002\n", 33, 4),
            ("0102010000\n0201\n0202\n03000000100210\n", 33, 4),
            // no such slot to show, or to keep
            ("0102010000\n0201\n0202\n03000100010000\n", 33, 4),
            ("0102010000\n0201\n0202\n03010100020000\n", 33, 4),
            ("0102010000\n0201\n0202\n03000000100001\n", 33, 4),
            // the taken value, where a value is shown
            ("0102010000\n0201\n0202\n03000100000010\n", 33, 4),
            // too few sources, and too many
            ("0102010000\n0201\n0202\n030000001000\n", 33, 4),
            ("0102010000\n0201\n0202\n03000000100110\n", 33, 4),
            ("0102010000\n0201\n0202\n0300000010001010\n", 33, 4),
        ],
    )?;
    each_accepted(
        &rt,
        &[
            "0102010000\n0201\n0202\n03000000100010\n",
            "0102010000\n0201\n0202\n0300010000010000\n",
            "0102010000\n0201\n0202\n03010100010001\n",
            "0102010000\n0201\n0202\n0301000010011010\n",
        ],
    );
    Ok(())
}

#[test]
fn all_frames_came(rt: HostRuntime) -> Result<(), Fail> {
    each_refused(
        &rt,
        &[
            ("", 34, 1),
            ("01010000\n", 34, 2),
            ("01020000\n0200\n", 34, 3),
            ("01010100\n0200\n", 34, 3),
            ("01010200\n0200\n030000001000\n", 34, 4),
        ],
    )
}

#[test]
fn start_number_for_each_slot(rt: HostRuntime) -> Result<(), Fail> {
    each_refused(
        &rt,
        &[
            ("0101000000\n0200\n", 35, 1),
            ("01010000\n0201\n", 35, 1),
            ("0101000000\n0202\n", 35, 1),
            ("010100000000\n0201\n", 35, 1),
            ("0102000100\n0201\n0202\n", 35, 1),
            ("01010100\n0201\n03000000100010\n", 35, 1),
        ],
    )?;
    each_accepted(
        &rt,
        &[
            "01010000\n0200\n",
            "0101000007\n0201\n",
            "010200010001\n0201\n0202\n",
        ],
    );
    Ok(())
}
