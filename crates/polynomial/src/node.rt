// Nodes: the elements that 0, 1, 2, .. stand for.
ghost use Rattle.std.specs.Prelude.{◌≡◌, ◌<◌, ◌≤◌, ◌≢◌};
ghost use Rattle.field.specs.declared.limits.TheConstants.{INVERSES};
ghost use Rattle.polynomial.specs.Polynomials.{sub};
ghost use Rattle.polynomial.specs.Interpolation.{node};

use field::{Field, INVERSES};

/// The most nodes that a polynomial may be given at, 253: the difference of any two of them has its inverse at hand.
pub const MOST_NODES: u32 = INVERSES + 1;

/// The node k: the element that k stands for.
pub fn node_at<F: Field>(k: u32) -> F
    requires { k ≤ 2147483647 }
    ensures { result ≡ node F.Field.model k }
{
    F::image(k as i32)
}

/// One element less another.
pub fn difference<F: Field>(a: F, b: F) -> F
    ensures { result ≡ sub F.Field.model a b }
{
    a + -b
}

// One over x − k, for two different nodes: one over the larger less the smaller, with the sign of x − k.
#[tactic(auto, using(crate::proofs::Nodes::differences))]
pub(crate) fn difference_inverse<F: Field>(x: u32, k: u32) -> F
    requires first { x ≤ INVERSES }
    requires second { k ≤ INVERSES }
    requires apart { x ≢ k }
    ensures { result ≡ F.Field.model.inv
        (sub F.Field.model (node F.Field.model x) (node F.Field.model k)) }
{
    if k < x {
        F::inverse_of(x - k)
    } else {
        -F::inverse_of(k - x)
    }
}
