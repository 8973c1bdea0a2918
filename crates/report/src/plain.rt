// Elements and moves of the product, and the plain numbers for them.
use board::Move;
use field::Field;
use reference::Element;
use std::alloc::{AllocError, Global};

/// The element of the product's field with these parts; zero where the field has none.
pub fn element<F: Field>(x: Element) -> F {
    let low = u32::try_from(x.low).ok();
    let high = u32::try_from(x.high).ok();
    low.zip(high)
        .and_then(|(low, high)| F::element(low, high))
        .unwrap_or(F::zero())
}

/// The parts of an element.
pub fn parts<F: Field>(x: F) -> Element {
    Element {
        low: u64::from(x.low()),
        high: u64::from(x.high()),
    }
}

/// The elements of the product's field, one by one.
pub fn elements<F: Field>(heap: Global, xs: &[Element]) -> Result<Vec<F>, AllocError> {
    xs.iter().map(|x| element(*x)).collect(heap)
}

/// A move as the product has it.
pub fn own_move(m: reference::Move) -> Move {
    Move {
        cell: m.cell,
        amount: m.amount,
    }
}

/// Whether what was found is, in plain numbers, what is wanted, one by one.
pub fn same<X: Copy, Y: Copy + PartialEq, P: Fn(X) -> Y>(
    found: &[X],
    wanted: &[Y],
    plain: P,
) -> bool
    requires { P.IsAlwaysCallable plain }
{
    found.iter().map(|x| plain(*x)).eq(wanted.iter().copied())
}

/// Whether elements have these parts, one by one.
pub fn same_elements<F: Field>(found: &[F], wanted: &[Element]) -> bool {
    same(found, wanted, |x| parts(x))
}
