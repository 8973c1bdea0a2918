// The Lagrange basis, at its nodes and elsewhere.
use extension::Extension;
use field::Field;
use polynomial::{MOST_NODES, basis_at, node_at};
use prime::{Mersenne31, Mod65537};
use std::process::Abort;

// Rows, a row, and the two parts of the row's basis polynomial at a point.
type Case = (u32, u32, (u32, u32));

fn check_basis<F: Field>(rt: &impl Abort, point: F, cases: &[Case]) {
    for &(rows, x, parts) in cases {
        assert!(rt; rows <= MOST_NODES && x < rows);
        let value = basis_at(rows, x, point);
        assert_eq!(rt; (value.low(), value.high()), parts);
    }
}

// One at its own node, zero at the others.
fn check_nodes<F: Field>(rt: &impl Abort, rows: u32) {
    assert!(rt; rows <= MOST_NODES);
    for x in 0..rows {
        for k in 0..rows {
            let value: F = basis_at(rows, x, node_at(k));
            let expected = if k == x { F::one() } else { F::zero() };
            assert!(rt; value == expected);
        }
    }
}

#[test]
fn at_nodes(rt: HostRuntime) {
    for rows in [1, 2, 3, 64] {
        check_nodes::<Mod65537>(&rt, rows);
        check_nodes::<Mersenne31>(&rt, rows);
        check_nodes::<Extension<Mod65537>>(&rt, rows);
    }
}

#[test]
fn at_5(rt: HostRuntime) {
    check_basis::<Mod65537>(
        &rt,
        Mod65537::image(5),
        &[
            (1, 0, (1, 0)),
            (2, 0, (65533, 0)),
            (2, 1, (5, 0)),
            (3, 0, (6, 0)),
            (3, 1, (65522, 0)),
            (3, 2, (10, 0)),
        ],
    );
    check_basis::<Mersenne31>(
        &rt,
        Mersenne31::image(5),
        &[
            (1, 0, (1, 0)),
            (2, 0, (2147483643, 0)),
            (2, 1, (5, 0)),
            (3, 0, (6, 0)),
            (3, 1, (2147483632, 0)),
            (3, 2, (10, 0)),
        ],
    );
}

#[test]
fn of_64_rows(rt: HostRuntime) {
    check_basis::<Mod65537>(
        &rt,
        Mod65537::image(100),
        &[
            (64, 0, (33143, 0)),
            (64, 1, (53621, 0)),
            (64, 31, (55274, 0)),
            (64, 63, (13158, 0)),
        ],
    );
    check_basis::<Mersenne31>(
        &rt,
        Mersenne31::image(100),
        &[
            (64, 0, (1559915607, 0)),
            (64, 1, (1859600386, 0)),
            (64, 31, (1761342394, 0)),
            (64, 63, (1820182124, 0)),
        ],
    );
}

// At 5 + t.
#[test]
fn off_the_base(rt: HostRuntime) {
    check_basis::<Extension<Mod65537>>(
        &rt,
        <Extension<Mod65537> as Field>::of_parts(5, 1),
        &[
            (1, 0, (1, 0)),
            (2, 0, (65533, 65536)),
            (2, 1, (5, 1)),
            (3, 0, (32776, 32772)),
            (3, 1, (65519, 65529)),
            (3, 2, (32780, 32773)),
            (64, 0, (59570, 60654)),
            (64, 63, (18373, 64200)),
        ],
    );
}
