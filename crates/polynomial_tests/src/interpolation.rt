// Interpolation at a point, from one value up to 253.
use extension::Extension;
use field::Field;
use polynomial::{MOST_NODES, interpolate_at};
use prime::{Mersenne31, Mod65537};
use std::process::Abort;

type Quadratic = Extension<Mod65537>;

// A point, and the value there by its parts.
type Case<F> = (F, (u32, u32));

fn check_values<F: Field>(rt: &impl Abort, values: &[F], cases: &[Case<F>]) {
    assert!(rt; (1..=MOST_NODES as usize).contains(&values.len()));
    for &(point, parts) in cases {
        let value = interpolate_at(values, point);
        assert_eq!(rt; (value.low(), value.high()), parts);
    }
}

fn three_values<F: Field>() -> [F; 3] {
    [F::image(9), F::image(5), F::image(17)]
}

// At these points of the base, in every field.
fn base_cases<F: Field>() -> [Case<F>; 4] {
    [
        (F::image(0), (9, 0)),
        (F::image(1), (5, 0)),
        (F::image(2), (17, 0)),
        (F::image(5), (149, 0)),
    ]
}

#[test]
fn through_9_5_17(rt: HostRuntime) {
    check_values::<Mod65537>(&rt, &three_values(), &base_cases());
    check_values::<Mersenne31>(&rt, &three_values(), &base_cases());
}

// The same values in the extension, with points of the base, t and 5 + t.
#[test]
fn off_the_base(rt: HostRuntime) {
    check_values::<Quadratic>(&rt, &three_values(), &base_cases());
    check_values::<Quadratic>(
        &rt,
        &three_values(),
        &[
            (Field::of_parts(0, 1), (33, 65525)),
            (Field::of_parts(5, 1), (173, 68)),
        ],
    );
}

#[test]
fn through_one_value(rt: HostRuntime) {
    check_values(
        &rt,
        &[Mod65537::image(9)],
        &[
            (Mod65537::image(0), (9, 0)),
            (Mod65537::image(5), (9, 0)),
            (Mod65537::image(65536), (9, 0)),
        ],
    );
}

// Through the powers of 2, as many as there is memory for.
fn check_powers<F: Field>(rt: &impl Abort, values: &mut [F], cases: &[Case<F>]) {
    let mut power = F::one();
    for value in values.iter_mut() {
        *value = power;
        power = power + power;
    }
    check_values(rt, values, cases);
}

#[test]
fn through_253_powers(rt: HostRuntime) {
    check_powers(
        &rt,
        &mut [Mod65537::zero(); 253],
        &[
            (Mod65537::image(0), (1, 0)),
            (Mod65537::image(252), (61441, 0)),
            (Mod65537::image(253), (57344, 0)),
            (Mod65537::image(300), (20969, 0)),
            (Mod65537::image(65536), (1, 0)),
        ],
    );
    check_powers(
        &rt,
        &mut [Mersenne31::zero(); 253],
        &[
            (Mersenne31::image(0), (1, 0)),
            (Mersenne31::image(252), (16, 0)),
            (Mersenne31::image(253), (31, 0)),
            (Mersenne31::image(300), (62909126, 0)),
        ],
    );
    check_powers(
        &rt,
        &mut [Quadratic::zero(); 253],
        &[
            (Quadratic::image(253), (57344, 0)),
            (Field::of_parts(0, 1), (29701, 26135)),
        ],
    );
}
