// The value at a point of the polynomial through given values.
ghost use Rattle.std.specs.Prelude.{◌≡◌, ◌<◌, ◌≤◌, length};
ghost use Rattle.field.specs.declared.limits.TheConstants.{INVERSES};
ghost use Rattle.polynomial.specs.Polynomials.{eval};
ghost use Rattle.polynomial.specs.Interpolation.{interpolant};
ghost use Rattle.polynomial.specs.OnePass.{first_weight, next_weight};
ghost use Rattle.polynomial.specs.declared.node.TheConstants.{MOST_NODES};

use crate::node::{difference, difference_inverse, node_at};
use field::Field;

// The weight of the value at 0, where the last is at d: one over the product of 0 − k for k from 1 to d.
#[tactic(auto, using(crate::proofs::Steps::first_weight_step))]
fn first_weight<F: Field>(d: u32) -> F
    requires { d ≤ INVERSES }
    ensures { result ≡ first_weight F.Field.model d }
{
    let mut weight = F::one();
    for k in 1..=d {
        weight = difference_inverse::<F>(0, k) * weight;
    }
    weight
}

// The weight of the value at j + 1, from that of the value at j.
fn next_weight<F: Field>(d: u32, j: u32, weight: F) -> F
    requires inside { j < d }
    requires few { d ≤ INVERSES }
    ensures { result ≡ next_weight F.Field.model d j weight }
{
    let factor = difference::<F>(node_at(j), node_at(d));
    weight * factor * F::inverse_of(j + 1)
}

/// The value at x of the polynomial that takes the 1 to 253 given values at 0, 1, 2, ..: one pass over them. Nothing is divided by
/// a difference with x, so an x that is one of these nodes is no special case.
#[tactic(auto, using(crate::proofs::Steps::pass_end, crate::proofs::Steps::pass_whole))]
pub fn interpolate_at<F: Field>(values: &[F], x: F) -> F
    requires some { 1 ≤ length values.now }
    requires few { length values.now ≤ MOST_NODES }
    ensures { result ≡ eval F.Field.model (interpolant F.Field.model values.now) x }
{
    let d = (values.len() - 1) as u32;
    let mut weight = first_weight::<F>(d);
    let mut before = F::one();
    let mut all = F::zero();
    for (i, value) in values.iter().enumerate() {
        let j = i as u32;
        let step = difference(x, node_at(j));
        all = all * step + *value * weight * before;
        before = before * step;
        if j < d {
            weight = next_weight(d, j, weight);
        }
    }
    all
}
