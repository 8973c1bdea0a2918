// Single operations of a field against plain arithmetic.
use field::{Field, INVERSES};
use reference::Element;
use report::{Report, Table, element, parts};

// Whole numbers around zero, around the rows and around both characteristics.
const NUMBERS: [i32; 10] = [
    -2_147_483_647,
    -65_538,
    -65_537,
    -1,
    0,
    1,
    65_536,
    65_537,
    2_147_483_646,
    2_147_483_647,
];

// Holds an element to a pair, part by part.
fn compare<F: Field>(report: &mut Report, what: &'static str, found: F, wanted: Element) {
    let found = parts(found);
    report.same(what, found.low, wanted.low);
    report.same(what, found.high, wanted.high);
}

// Sums, products, opposites, inverses and sameness of two elements.
fn compare_two<F: Field>(table: &mut Table, a: Element, b: Element) {
    let field = table.source.field;
    let report = &mut table.report;
    let x: F = element(a);
    let y: F = element(b);
    compare(report, "a sum", x + y, field.sum(a, b));
    compare(report, "a product", x * y, field.product(a, b));
    compare(
        report,
        "an opposite",
        -x,
        field.difference(Element::ZERO, a),
    );
    report.holds("sameness", (x == y) == (a == b));
    match x.inverse() {
        Some(inverse) => compare(report, "an inverse", inverse, field.inverse(a)),
        None => report.holds("no inverse", a == Element::ZERO),
    }
}

// Images of whole numbers, and the inverses at hand.
fn compare_numbers<F: Field>(table: &mut Table) {
    let field = table.source.field;
    let report = &mut table.report;
    for n in NUMBERS {
        compare(report, "an image", F::image(n), field.image(i64::from(n)));
    }
    for n in 1..=INVERSES {
        let wanted = field.inverse(field.image(i64::from(n)));
        compare(
            report,
            "an inverse of a whole number",
            F::inverse_of(n),
            wanted,
        );
    }
}

/// Compares the operations of one field on so many pairs of generated elements, and on each of them twice.
pub fn compare_arithmetic<F: Field>(table: &mut Table, times: u64) {
    compare_numbers::<F>(table);
    compare_two::<F>(table, Element::ZERO, Element::ZERO);
    for _ in 0..times {
        let a = table.source.any_element();
        let b = table.source.any_element();
        compare_two::<F>(table, a, b);
        compare_two::<F>(table, a, a);
    }
}
