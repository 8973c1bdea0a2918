// One game on a board of 2 rows and 8 columns: what both ends hold after it, over several fields and points.
use crate::cases::*;
use board::Bank;
use field::Field;
use fields::{Mersenne31, Mod65537, Mod65537x2};
use std::process::Abort;
use std::test::Fail;

const STEPS: [Step; 3] = [
    (0, 3, Ok(()), 3, 1),
    (8, 1, Ok(()), 4, 2),
    (9, -2, Ok(()), 6, 3),
];

#[test]
fn at_the_host(rt: HostRuntime) -> Result<(), Fail> {
    let mut counts = [7; 17];
    let mut bank = Bank::new(&mut counts);
    let mut end = host::Listening::<Mod65537>::open(2, 8, &mut bank)?;
    check_notes(&rt, &mut end, &mut bank, &STEPS);
    check_book(&rt, end.seal().book(), 6, 3);
    assert_eq!(rt;
        counts,
        [3, 0, 0, 0, 0, 0, 0, 0, 1, -2, 0, 0, 0, 0, 0, 0, 7]
    );
    Ok(())
}

// The first two columns of a box at this point; the other six are zero. There is a ninth cell, which stays one.
fn check_box<F: Field>(
    rt: &impl Abort,
    point: F,
    memory: &mut [F],
    first: (u32, u32),
    second: (u32, u32),
) -> Result<(), Fail> {
    let mut bank = Bank::new(memory);
    let mut end = verifier::Listening::open(2, 8, point, &mut bank)?;
    check_notes(rt, &mut end, &mut bank, &STEPS);
    check_book(rt, end.seal().book(), 6, 3);
    for (y, cell) in bank.cells().iter().enumerate() {
        let (low, high) = match y {
            0 => first,
            1 => second,
            8 => (1, 0),
            _ => (0, 0),
        };
        assert!(rt; cell.low() == low && cell.high() == high);
    }
    Ok(())
}

#[test]
fn at_boxes(rt: HostRuntime) -> Result<(), Fail> {
    let mut memory = [Mod65537::one(); 9];
    check_box(&rt, Mod65537::image(5), &mut memory, (65530, 0), (65527, 0))?;
    check_box(&rt, Mod65537::image(0), &mut memory, (3, 0), (0, 0))?;
    check_box(&rt, Mod65537::image(1), &mut memory, (1, 0), (65535, 0))?;
    let mut memory = [Mersenne31::one(); 9];
    check_box(
        &rt,
        Mersenne31::image(5),
        &mut memory,
        (2147483640, 0),
        (2147483637, 0),
    )?;
    let mut memory = [<Mod65537x2 as Field>::one(); 9];
    let point = <Mod65537x2 as Field>::of_parts(5, 1);
    check_box(&rt, point, &mut memory, (65530, 65535), (65527, 65535))
}
