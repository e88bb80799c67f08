use crate::bits::{and, or, xor};
use crate::operators::{Op, add, convert, div, mul, overflows, rem, shl, shr, sub};
use crate::types::Ty;
use crate::values::{is_value, wrap};
use std::process::Abort;

/// A type, two values, and what their sum, difference, product, and, or and xor are; what quotient, remainder, left
/// and right shift are; whether sum, difference, product and left shift overflow.
#[derive(Copy, Clone)]
struct Case(Ty, i128, i128, [i128; 6], [Option<i128>; 4], [bool; 4]);

/// Past the ends of every type.
const FAR: i128 = 1_000_000_000_000_000_000_000;

/// A type, its least and its greatest value.
#[derive(Copy, Clone)]
struct Ends(Ty, i128, i128);

fn check_case(rt: &impl Abort, case: Case) {
    let Case(ty, a, b, whole, partial, overflow) = case;
    if !is_value(ty, a) || !is_value(ty, b) {
        panic!(rt; "no values");
    }
    let answers = [
        add(ty, a, b),
        sub(ty, a, b),
        mul(ty, a, b),
        and(ty, a, b),
        or(ty, a, b),
        xor(ty, a, b),
    ];
    assert_eq!(rt; answers, whole);
    let answers = [div(ty, a, b), rem(ty, a, b), shl(ty, a, b), shr(ty, a, b)];
    assert_eq!(rt; answers, partial);
    let answers = [
        overflows(Op::Add, ty, a, b),
        overflows(Op::Sub, ty, a, b),
        overflows(Op::Mul, ty, a, b),
    ];
    assert_eq!(rt; answers, [overflow[0], overflow[1], overflow[2]]);
    if 0 <= b && b < i128::from(ty.width) {
        assert_eq!(rt; overflows(Op::Shl, ty, a, b), overflow[3]);
    }
}

fn check_ends(rt: &impl Abort, ends: Ends) {
    let Ends(ty, least, greatest) = ends;
    assert_eq!(rt; ty, Ty::new(ty.width, ty.signed));
    if least < -FAR || FAR < greatest {
        panic!(rt; "no ends");
    }
    let inside = [
        is_value(ty, least - 1),
        is_value(ty, least),
        is_value(ty, greatest),
        is_value(ty, greatest + 1),
    ];
    assert_eq!(rt; inside, [false, true, true, false]);
    let wrapped = [
        wrap(ty, least - 1),
        wrap(ty, least),
        wrap(ty, greatest),
        wrap(ty, greatest + 1),
    ];
    assert_eq!(rt; wrapped, [greatest, least, greatest, least]);
    let truth = [
        convert(Ty::BOOL, 0),
        convert(Ty::BOOL, 2),
        convert(Ty::BOOL, least - 1),
        convert(ty, greatest),
    ];
    assert_eq!(rt; truth, [0, 1, 1, greatest]);
}

#[test]
fn operators_at_both_ends_of_each_type(rt: HostRuntime) {
    let ends = [
        Ends(Ty::BOOL, 0, 1),
        Ends(Ty::CHAR, -128, 127),
        Ends(Ty::UCHAR, 0, 255),
        Ends(Ty::SHORT, -32768, 32767),
        Ends(Ty::USHORT, 0, 65535),
        Ends(Ty::INT, -2147483648, 2147483647),
        Ends(Ty::UINT, 0, 4294967295),
        Ends(Ty::LONG, -9223372036854775808, 9223372036854775807),
        Ends(Ty::ULONG, 0, 18446744073709551615),
    ];
    for end in ends {
        check_ends(&rt, end);
    }
    for case in CASES {
        check_case(&rt, case);
    }
}

const CASES: [Case; 24] = [
    Case(
        Ty::BOOL,
        1,
        1,
        [0, 0, 1, 1, 1, 0],
        [Some(1), Some(0), None, None],
        [false, false, false, false],
    ),
    Case(
        Ty::BOOL,
        0,
        1,
        [1, 1, 0, 0, 1, 1],
        [Some(0), Some(0), None, None],
        [false, false, false, false],
    ),
    Case(
        Ty::CHAR,
        -128,
        -1,
        [127, -127, -128, -128, -1, 127],
        [None, None, None, None],
        [true, false, true, false],
    ),
    Case(
        Ty::CHAR,
        -128,
        127,
        [-1, 1, -128, 0, -1, -1],
        [Some(-1), Some(-1), None, None],
        [false, true, true, false],
    ),
    Case(
        Ty::UCHAR,
        255,
        255,
        [254, 0, 1, 255, 255, 0],
        [Some(1), Some(0), None, None],
        [false, false, false, false],
    ),
    Case(
        Ty::UCHAR,
        0,
        255,
        [255, 1, 0, 0, 255, 255],
        [Some(0), Some(0), None, None],
        [false, false, false, false],
    ),
    Case(
        Ty::SHORT,
        -32768,
        -1,
        [32767, -32767, -32768, -32768, -1, 32767],
        [None, None, None, None],
        [true, false, true, false],
    ),
    Case(
        Ty::USHORT,
        65535,
        65535,
        [65534, 0, 1, 65535, 65535, 0],
        [Some(1), Some(0), None, None],
        [false, false, false, false],
    ),
    Case(
        Ty::INT,
        -2147483648,
        -1,
        [
            2147483647,
            -2147483647,
            -2147483648,
            -2147483648,
            -1,
            2147483647,
        ],
        [None, None, None, None],
        [true, false, true, false],
    ),
    Case(
        Ty::INT,
        -2147483648,
        2147483647,
        [-1, 1, -2147483648, 0, -1, -1],
        [Some(-1), Some(-1), None, None],
        [false, true, true, false],
    ),
    Case(
        Ty::UINT,
        4294967295,
        4294967295,
        [4294967294, 0, 1, 4294967295, 4294967295, 0],
        [Some(1), Some(0), None, None],
        [false, false, false, false],
    ),
    Case(
        Ty::UINT,
        0,
        4294967295,
        [4294967295, 1, 0, 0, 4294967295, 4294967295],
        [Some(0), Some(0), None, None],
        [false, false, false, false],
    ),
    Case(
        Ty::LONG,
        -9223372036854775808,
        -1,
        [
            9223372036854775807,
            -9223372036854775807,
            -9223372036854775808,
            -9223372036854775808,
            -1,
            9223372036854775807,
        ],
        [None, None, None, None],
        [true, false, true, false],
    ),
    Case(
        Ty::LONG,
        -9223372036854775808,
        9223372036854775807,
        [-1, 1, -9223372036854775808, 0, -1, -1],
        [Some(-1), Some(-1), None, None],
        [false, true, true, false],
    ),
    Case(
        Ty::ULONG,
        18446744073709551615,
        18446744073709551615,
        [
            18446744073709551614,
            0,
            1,
            18446744073709551615,
            18446744073709551615,
            0,
        ],
        [Some(1), Some(0), None, None],
        [false, false, false, false],
    ),
    Case(
        Ty::ULONG,
        0,
        18446744073709551615,
        [
            18446744073709551615,
            1,
            0,
            0,
            18446744073709551615,
            18446744073709551615,
        ],
        [Some(0), Some(0), None, None],
        [false, false, false, false],
    ),
    Case(
        Ty::LONG,
        -9223372036854775808,
        -9223372036854775808,
        [0, 0, 0, -9223372036854775808, -9223372036854775808, 0],
        [Some(1), Some(0), None, None],
        [true, false, true, false],
    ),
    Case(
        Ty::INT,
        -7,
        2,
        [-5, -9, -14, 0, -5, -5],
        [Some(-3), Some(-1), Some(-28), Some(-2)],
        [false, false, false, true],
    ),
    Case(
        Ty::INT,
        7,
        -2,
        [5, 9, -14, 6, -1, -7],
        [Some(-3), Some(1), None, None],
        [false, false, false, false],
    ),
    Case(
        Ty::INT,
        1,
        31,
        [32, -30, 31, 1, 31, 30],
        [Some(0), Some(1), Some(-2147483648), Some(0)],
        [false, false, false, true],
    ),
    Case(
        Ty::INT,
        1,
        30,
        [31, -29, 30, 0, 31, 31],
        [Some(0), Some(1), Some(1073741824), Some(0)],
        [false, false, false, false],
    ),
    Case(
        Ty::ULONG,
        3,
        63,
        [66, 18446744073709551556, 189, 3, 63, 60],
        [Some(0), Some(3), Some(9223372036854775808), Some(0)],
        [false, false, false, false],
    ),
    Case(
        Ty::INT,
        5,
        32,
        [37, -27, 160, 0, 37, 37],
        [Some(0), Some(5), None, None],
        [false, false, false, false],
    ),
    Case(
        Ty::BOOL,
        1,
        0,
        [1, 1, 0, 0, 1, 1],
        [None, None, Some(1), Some(1)],
        [false, false, false, false],
    ),
];
