// The two quadratic extensions.
use crate::cases::*;
use fields::{Mersenne31x2, Mod65537x2};
use std::test::Fail;

// t times t is 3.
const CASES_65537: [Case; 8] = [
    Case {
        left: (0, 1),
        right: (0, 1),
        sum: (0, 2),
        product: (3, 0),
        opposite: (0, 65536),
        inverse: (0, 21846),
    },
    Case {
        left: (0, 65536),
        right: (0, 1),
        sum: (0, 0),
        product: (65534, 0),
        opposite: (0, 1),
        inverse: (0, 43691),
    },
    Case {
        left: (1, 0),
        right: (1, 2),
        sum: (2, 2),
        product: (1, 2),
        opposite: (65536, 0),
        inverse: (1, 0),
    },
    Case {
        left: (1, 1),
        right: (65536, 1),
        sum: (0, 2),
        product: (2, 0),
        opposite: (65536, 65536),
        inverse: (32768, 32769),
    },
    Case {
        left: (1, 2),
        right: (3, 4),
        sum: (4, 6),
        product: (27, 10),
        opposite: (65536, 65535),
        inverse: (59579, 11916),
    },
    Case {
        left: (65536, 65536),
        right: (65536, 65536),
        sum: (65535, 65535),
        product: (4, 2),
        opposite: (1, 1),
        inverse: (32769, 32768),
    },
    Case {
        left: (33, 65525),
        right: (12345, 54321),
        sum: (12378, 54309),
        product: (24717, 6028),
        opposite: (65504, 12),
        inverse: (10474, 51472),
    },
    Case {
        left: (0, 2),
        right: (65536, 0),
        sum: (65536, 2),
        product: (0, 65535),
        opposite: (0, 65535),
        inverse: (0, 10923),
    },
];

#[test]
fn over_65537(rt: HostRuntime) -> Result<(), Fail> {
    check_field::<Mod65537x2>(
        &rt,
        (65537, 2, 256),
        &CASES_65537,
        &[
            (0, 0),
            (-1, 65536),
            (2147483647, 32768),
            (-2147483647, 32769),
        ],
    )?;
    check_no_elements::<Mod65537x2>(&rt, &[(65537, 0), (0, 65537), (4294967295, 4294967295)]);
    Ok(())
}

// t times t is 2,147,483,646, which is −1.
const CASES_2147483647: [Case; 8] = [
    Case {
        left: (0, 1),
        right: (0, 1),
        sum: (0, 2),
        product: (2147483646, 0),
        opposite: (0, 2147483646),
        inverse: (0, 2147483646),
    },
    Case {
        left: (0, 2147483646),
        right: (0, 1),
        sum: (0, 0),
        product: (1, 0),
        opposite: (0, 1),
        inverse: (0, 1),
    },
    Case {
        left: (1, 0),
        right: (1, 2),
        sum: (2, 2),
        product: (1, 2),
        opposite: (2147483646, 0),
        inverse: (1, 0),
    },
    Case {
        left: (1, 1),
        right: (2147483646, 1),
        sum: (0, 2),
        product: (2147483645, 0),
        opposite: (2147483646, 2147483646),
        inverse: (1073741824, 1073741823),
    },
    Case {
        left: (1, 2),
        right: (3, 4),
        sum: (4, 6),
        product: (2147483642, 10),
        opposite: (2147483646, 2147483645),
        inverse: (858993459, 429496729),
    },
    Case {
        left: (2147483646, 2147483646),
        right: (2147483646, 2147483646),
        sum: (2147483645, 2147483645),
        product: (0, 2),
        opposite: (1, 1),
        inverse: (1073741823, 1073741824),
    },
    Case {
        left: (33, 2147483635),
        right: (12345, 54321),
        sum: (12378, 54309),
        product: (1059237, 1644453),
        opposite: (2147483614, 12),
        inverse: (130625526, 1609306480),
    },
    Case {
        left: (0, 2),
        right: (2147483646, 0),
        sum: (2147483646, 2),
        product: (0, 2147483645),
        opposite: (0, 2147483645),
        inverse: (0, 1073741823),
    },
];

#[test]
fn over_2147483647(rt: HostRuntime) -> Result<(), Fail> {
    check_field::<Mersenne31x2>(
        &rt,
        (2147483647, 2, 46340),
        &CASES_2147483647,
        &[(0, 0), (-1, 2147483646), (2147483647, 0), (-2147483647, 0)],
    )?;
    check_no_elements::<Mersenne31x2>(&rt, &[(2147483647, 0), (0, 2147483647)]);
    Ok(())
}
