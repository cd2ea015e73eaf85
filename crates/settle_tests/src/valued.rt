// Kinds of value: which are the same, where one stands, and how it is told.
use std::fmt::Display;
use std::process::Abort;
use values::Kind;
use values::kinds::{Fix, Reading, TimeOfDay};
use values::search::position;
use values::telling::Told;

fn fix(latitude: i32, longitude: i32, height: i32) -> Fix {
    Fix {
        latitude,
        longitude,
        height,
    }
}

fn check_same<K: Kind, S: Fn(K, K) -> bool>(
    rt: &impl Abort,
    v: K,
    w: K,
    same_as: S,
    same: bool,
    what: &impl Display,
)
    requires { S.IsAlwaysCallable same_as }
{
    assert_eq!(rt; v.equals(&w), same, "{what}");
    assert_eq!(rt; w.equals(&v), same, "{what}");
    assert_eq!(rt; same_as(v, w), same, "{what}");
}

#[test]
fn readings_and_times(rt: HostRuntime) {
    let readings = [
        (0, 0, true),
        (0, 1, false),
        (3, 86_403, false),
        (u32::MAX, u32::MAX, true),
        (u32::MAX, 0, false),
    ];
    for (a, b, same) in readings {
        check_same(
            &rt,
            Reading(a),
            Reading(b),
            Reading::same_as,
            same,
            &format_args!("readings {a} and {b}"),
        );
    }
    let times = [
        (3, 86_403, true),
        (86_399, 86_400, false),
        (0, 86_400, true),
        (0, 86_399, false),
        (u32::MAX, 23_295, true),
    ];
    for (a, b, same) in times {
        check_same(
            &rt,
            TimeOfDay(a),
            TimeOfDay(b),
            TimeOfDay::same_as,
            same,
            &format_args!("times {a} and {b}"),
        );
    }
}

#[test]
fn fixes(rt: HostRuntime) {
    let here = fix(1, -2, 3);
    let others = [
        (1, -2, 3, true),
        (-1, -2, 3, false),
        (1, 2, 3, false),
        (1, -2, -3, false),
        (i32::MIN, i32::MAX, 0, false),
    ];
    for (latitude, longitude, height, same) in others {
        let there = fix(latitude, longitude, height);
        check_same(&rt, here, there, Fix::same_as, same, &"fixes");
    }
}

#[test]
fn places(rt: HostRuntime) {
    let codes = [3u64, 5, 3, 5];
    for (wanted, place) in [(3u64, Some(0)), (5, Some(1)), (4, None)] {
        assert_eq!(rt; position(&codes, &wanted), place);
        assert_eq!(rt; position(&codes[0..0], &wanted), None);
    }
    assert_eq!(rt; position(b"abab", &b'b'), Some(1));
    assert_eq!(rt;
        position(&[Reading(3), Reading(86_403)], &Reading(86_403)),
        Some(1)
    );
    assert_eq!(rt;
        position(
            &[TimeOfDay(4), TimeOfDay(3), TimeOfDay(86_403)],
            &TimeOfDay(172_803),
        ),
        Some(1)
    );
    assert_eq!(rt;
        position(&[fix(0, 0, 1), fix(0, 1, 0), fix(0, 1, 0)], &fix(0, 1, 0)),
        Some(1)
    );
}

// Tells a value into the first entries of six nines.
fn check_told<V: Told>(
    rt: &impl Abort,
    value: &V,
    room: usize,
    fits: bool,
    bytes: [u8; 6],
    what: &impl Display,
) {
    let mut out = [9u8; 6];
    assert!(rt; room <= 6, "{what}");
    assert_eq!(rt; value.tell(&mut out[0..room]).is_ok(), fits, "{what}");
    assert_eq!(rt; out, bytes, "{what}");
}

#[test]
fn told_readings(rt: HostRuntime) {
    assert_eq!(rt; <Reading as Told>::width(), 4);
    let table = [
        (0x0102_0304, 4, true, [1, 2, 3, 4, 9, 9]),
        (0x0102_0304, 6, true, [1, 2, 3, 4, 9, 9]),
        (0x0102_0304, 3, false, [9, 9, 9, 9, 9, 9]),
        (0x0102_0304, 0, false, [9, 9, 9, 9, 9, 9]),
        (u32::MAX, 5, true, [255, 255, 255, 255, 9, 9]),
        (256, 4, true, [0, 0, 1, 0, 9, 9]),
    ];
    for (number, room, fits, bytes) in table {
        assert_eq!(rt; Reading(number).number(), u64::from(number));
        check_told(
            &rt,
            &Reading(number),
            room,
            fits,
            bytes,
            &format_args!("reading {number} in {room}"),
        );
    }
}

#[test]
fn told_times(rt: HostRuntime) {
    assert_eq!(rt; <TimeOfDay as Told>::width(), 4);
    let table = [
        (86_403, 3, 4, true, [0, 0, 0, 3, 9, 9]),
        (3, 3, 6, true, [0, 0, 0, 3, 9, 9]),
        (3, 3, 3, false, [9, 9, 9, 9, 9, 9]),
        (86_399, 86_399, 4, true, [0, 1, 0x51, 0x7f, 9, 9]),
        (86_400, 0, 4, true, [0, 0, 0, 0, 9, 9]),
    ];
    for (seconds, number, room, fits, bytes) in table {
        assert_eq!(rt; TimeOfDay(seconds).number(), number);
        check_told(
            &rt,
            &TimeOfDay(seconds),
            room,
            fits,
            bytes,
            &format_args!("time {seconds} in {room}"),
        );
    }
}
