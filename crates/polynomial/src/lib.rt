//! Polynomials over any field: the Lagrange basis and interpolation at a point,
//! and what is true of them.
#![tactic(auto)]

mod basis;
mod interpolate;
mod node;
mod theorems;
mod totals;

pub use basis::basis_at;
pub use interpolate::interpolate_at;
pub use node::{MOST_NODES, difference, node_at};
pub use theorems::{
    columns_take_counts, lagrange_basis, one_pass_interpolates, one_polynomial_through_values,
    polynomial_operations, roots_at_most_degree, roots_of_several,
};
pub use totals::total;
