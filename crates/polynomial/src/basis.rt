// The Lagrange basis at a point.
ghost use Rattle.std.specs.Prelude.{◌≡◌, ◌<◌, ◌≤◌};
ghost use Rattle.polynomial.specs.Interpolation.{chi};
ghost use Rattle.polynomial.specs.declared.node.TheConstants.{MOST_NODES};

use crate::node::{difference, difference_inverse, node_at};
use field::Field;

/// χ_x at the point, on 1 to 253 rows: the polynomial that is one at row x and zero at the other rows. It costs two products for
/// each row but x.
pub fn basis_at<F: Field>(rows: u32, x: u32, point: F) -> F
    requires few { rows ≤ MOST_NODES }
    requires inside { x < rows }
    ensures { result ≡ chi F.Field.model rows x point }
{
    // The point less the row is one less at each row, which is less work than a new image.
    let less = -F::one();
    let mut step = difference(point, node_at(0));
    let mut all = F::one();
    for k in 0..rows {
        if k != x {
            all = step * difference_inverse(x, k) * all;
        }
        step = step + less;
    }
    all
}
