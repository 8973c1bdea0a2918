// Lagrange's formula.
use crate::arithmetic::Arithmetic;
use crate::element::Element;
use crate::game::Game;
use std::alloc::AllocError;

// The element of a row's number.
fn node(field: Arithmetic, k: u64) -> Element {
    Element::whole(field.residue(k))
}

// The product of (a − k) over k from 0 to n − 1 without x.
fn product_without(field: Arithmetic, n: u64, x: u64, a: Element) -> Element {
    (0..n).filter(|k| *k != x).fold(
        Element::ONE,
        |all, k| field.product(all, field.difference(a, node(field, k))),
    )
}

// χ_x over the nodes 0 to n − 1, at a point.
fn basis_of(field: Arithmetic, n: u64, x: u64, point: Element) -> Element {
    let above = product_without(field, n, x, point);
    let below = product_without(field, n, x, node(field, x));
    field.product(above, field.inverse(below))
}

/// The value at a point of the polynomial that takes these values at 0, 1, 2, ..
pub fn value_at(field: Arithmetic, values: &[Element], point: Element) -> Element {
    let n = values.len() as u64;
    (0..n).zip(values).fold(
        Element::ZERO,
        |all, (j, value)| field.sum(all, field.product(*value, basis_of(field, n, j, point))),
    )
}

// Column y at the point whose basis is given, from the board's counts row by row.
fn column(
    field: Arithmetic,
    basis: &[Element],
    columns: usize,
    counts: &[i64],
    y: usize,
) -> Element {
    basis
        .iter()
        .zip(counts.chunks(columns.max(1)))
        .fold(Element::ZERO, |all, (weight, row)| {
            let count = row.get(y).copied().unwrap_or(0);
            field.sum(all, field.product(field.image(count), *weight))
        })
}

impl Game {
    /// χ_0 to χ_(h − 1) over the h rows, at a point.
    pub fn basis(self, point: Element) -> Result<Vec<Element>, AllocError> {
        let rows = self.at.rows;
        (0..rows)
            .map(|x| basis_of(self.field, rows, x, point))
            .collect(self.heap)
    }

    /// Every column of the counts at a point.
    pub fn columns_at(self, counts: &[i64], point: Element) -> Result<Vec<Element>, AllocError> {
        let basis = self.basis(point)?;
        let columns = self.at.columns as usize;
        (0..columns)
            .map(|y| column(self.field, basis.as_slice(), columns, counts, y))
            .collect(self.heap)
    }
}
