// What the tests of every field share: elements by their parts, and checks of tables of values.
use field::{Field, INVERSES};
use std::process::Abort;
use std::test::Fail;

// An element by its low and its high part.
pub(crate) type Pair = (u32, u32);

// Two elements, their sum and their product, and the opposite and the inverse of the first.
#[derive(Clone, Copy)]
pub(crate) struct Case {
    pub(crate) left: Pair,
    pub(crate) right: Pair,
    pub(crate) sum: Pair,
    pub(crate) product: Pair,
    pub(crate) opposite: Pair,
    pub(crate) inverse: Pair,
}

pub(crate) fn parts<F: Field>(x: F) -> Pair {
    (x.low(), x.high())
}

fn check_case<F: Field>(rt: &impl Abort, case: Case) -> Result<(), Fail> {
    let (low, high) = case.left;
    let x = F::element(low, high).ok_or("no element on the left")?;
    let (low, high) = case.right;
    let y = F::element(low, high).ok_or("no element on the right")?;
    let i = x.inverse().ok_or("no inverse")?;
    assert!(rt; (x == y) == (case.left == case.right));
    assert_eq!(rt; (parts(x), parts(y)), (case.left, case.right));
    assert_eq!(rt; (parts(x + y), parts(x * y)), (case.sum, case.product));
    assert_eq!(rt; (parts(-x), parts(i)), (case.opposite, case.inverse));
    Ok(())
}

fn check_cases<F: Field>(rt: &impl Abort, cases: &[Case]) -> Result<(), Fail> {
    for case in cases {
        check_case::<F>(rt, *case)?;
    }
    assert!(rt; F::zero().inverse().is_none());
    Ok(())
}

// Each case is a whole number and the low part of its image; the high part is 0.
fn check_images<F: Field>(rt: &impl Abort, cases: &[(i32, u32)]) {
    for &(n, low) in cases {
        assert!(rt; n >= -2147483647);
        assert_eq!(rt; parts(F::image(n)), (low, 0));
    }
}

// The characteristic, the degree and the limit; zero, one, and the inverses of 1 to 252.
fn check_numbers<F: Field>(rt: &impl Abort, numbers: (u32, u32, u32)) {
    assert_eq!(rt; (F::CHARACTERISTIC, F::DEGREE, F::LIMIT), numbers);
    assert_eq!(rt; (parts(F::zero()), parts(F::one())), ((0, 0), (1, 0)));
    for n in 1..=INVERSES {
        assert!(rt; F::image(n as i32) * F::inverse_of(n) == F::one());
    }
}

// Pairs of numbers that are parts of no element.
pub(crate) fn check_no_elements<F: Field>(rt: &impl Abort, pairs: &[Pair]) {
    for &(low, high) in pairs {
        assert!(rt; F::element(low, high).is_none());
    }
}

pub(crate) fn check_field<F: Field>(
    rt: &impl Abort,
    numbers: (u32, u32, u32),
    cases: &[Case],
    images: &[(i32, u32)],
) -> Result<(), Fail> {
    check_numbers::<F>(rt, numbers);
    check_cases::<F>(rt, cases)?;
    check_images::<F>(rt, images);
    Ok(())
}
