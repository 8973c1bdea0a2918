// The two prime fields.
use crate::cases::*;
use field::BaseField;
use fields::{Mersenne31, Mod65537};
use std::test::Fail;

const CASES_65537: [Case; 8] = [
    Case {
        left: (1, 0),
        right: (0, 0),
        sum: (1, 0),
        product: (0, 0),
        opposite: (65536, 0),
        inverse: (1, 0),
    },
    Case {
        left: (1, 0),
        right: (65536, 0),
        sum: (0, 0),
        product: (65536, 0),
        opposite: (65536, 0),
        inverse: (1, 0),
    },
    Case {
        left: (2, 0),
        right: (32768, 0),
        sum: (32770, 0),
        product: (65536, 0),
        opposite: (65535, 0),
        inverse: (32769, 0),
    },
    Case {
        left: (65536, 0),
        right: (0, 0),
        sum: (65536, 0),
        product: (0, 0),
        opposite: (1, 0),
        inverse: (65536, 0),
    },
    Case {
        left: (65536, 0),
        right: (2, 0),
        sum: (1, 0),
        product: (65535, 0),
        opposite: (1, 0),
        inverse: (65536, 0),
    },
    Case {
        left: (65536, 0),
        right: (65536, 0),
        sum: (65535, 0),
        product: (1, 0),
        opposite: (1, 0),
        inverse: (65536, 0),
    },
    Case {
        left: (12345, 0),
        right: (54321, 0),
        sum: (1129, 0),
        product: (18161, 0),
        opposite: (53192, 0),
        inverse: (31651, 0),
    },
    Case {
        left: (32768, 0),
        right: (32768, 0),
        sum: (65536, 0),
        product: (49153, 0),
        opposite: (32769, 0),
        inverse: (65535, 0),
    },
];

#[test]
fn modulo_65537(rt: HostRuntime) -> Result<(), Fail> {
    check_field::<Mod65537>(
        &rt,
        (65537, 1, 256),
        &CASES_65537,
        &[
            (0, 0),
            (1, 1),
            (-1, 65536),
            (65536, 65536),
            (-65536, 1),
            (65537, 0),
            (-65537, 0),
            (-65538, 65536),
            (2147483647, 32768),
            (-2147483647, 32769),
        ],
    )?;
    check_no_elements::<Mod65537>(&rt, &[(65537, 0), (4294967295, 0), (0, 1), (65536, 65536)]);
    assert_eq!(rt; parts(Mod65537::non_square()), (3, 0));
    Ok(())
}

const CASES_2147483647: [Case; 8] = [
    Case {
        left: (1, 0),
        right: (0, 0),
        sum: (1, 0),
        product: (0, 0),
        opposite: (2147483646, 0),
        inverse: (1, 0),
    },
    Case {
        left: (1, 0),
        right: (2147483646, 0),
        sum: (0, 0),
        product: (2147483646, 0),
        opposite: (2147483646, 0),
        inverse: (1, 0),
    },
    Case {
        left: (2, 0),
        right: (1073741823, 0),
        sum: (1073741825, 0),
        product: (2147483646, 0),
        opposite: (2147483645, 0),
        inverse: (1073741824, 0),
    },
    Case {
        left: (2147483646, 0),
        right: (0, 0),
        sum: (2147483646, 0),
        product: (0, 0),
        opposite: (1, 0),
        inverse: (2147483646, 0),
    },
    Case {
        left: (2147483646, 0),
        right: (2, 0),
        sum: (1, 0),
        product: (2147483645, 0),
        opposite: (1, 0),
        inverse: (2147483646, 0),
    },
    Case {
        left: (2147483646, 0),
        right: (2147483646, 0),
        sum: (2147483645, 0),
        product: (1, 0),
        opposite: (1, 0),
        inverse: (2147483646, 0),
    },
    Case {
        left: (12345, 0),
        right: (54321, 0),
        sum: (66666, 0),
        product: (670592745, 0),
        opposite: (2147471302, 0),
        inverse: (1417217438, 0),
    },
    Case {
        left: (1073741823, 0),
        right: (1073741823, 0),
        sum: (2147483646, 0),
        product: (536870912, 0),
        opposite: (1073741824, 0),
        inverse: (2147483645, 0),
    },
];

#[test]
fn modulo_2147483647(rt: HostRuntime) -> Result<(), Fail> {
    check_field::<Mersenne31>(
        &rt,
        (2147483647, 1, 46340),
        &CASES_2147483647,
        &[
            (0, 0),
            (1, 1),
            (-1, 2147483646),
            (2147483646, 2147483646),
            (-2147483646, 1),
            (-65538, 2147418109),
            (2147483647, 0),
            (-2147483647, 0),
        ],
    )?;
    check_no_elements::<Mersenne31>(&rt, &[(2147483647, 0), (4294967295, 0), (0, 1)]);
    assert_eq!(rt; parts(Mersenne31::non_square()), (2147483646, 0));
    Ok(())
}
