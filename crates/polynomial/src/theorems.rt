// What is true of polynomials over every lawful field. Each contract is one theorem.
ghost use Rattle.polynomial.specs.Polynomials.{Operations, RootBound, Counting};
ghost use Rattle.polynomial.specs.Interpolation.{LagrangeBasis, Interpolation};
ghost use Rattle.polynomial.specs.OnePass.{OnePass};
ghost use Rattle.polynomial.specs.Columns.{ColumnsExtend};

use field::Field;

/// Sums, multiples and products of polynomials have the values that they should, and degrees that add up.
pub fn polynomial_operations<F: Field>()
    ensures { Operations F.Field.model }
{}

/// A polynomial of degree at most d that is not zero everywhere has at most d different roots.
pub fn roots_at_most_degree<F: Field>()
    ensures { RootBound F.Field.model }
{}

/// Different points, each a root of one of several polynomials, are no more than the sum of the degrees.
#[tactic(auto, using(crate::proofs::Counts::counting))]
pub fn roots_of_several<F: Field>()
    ensures { Counting F.Field.model }
{}

/// χ_x on h rows is a polynomial of degree h − 1, one at x and zero at the other rows.
pub fn lagrange_basis<F: Field>()
    ensures { LagrangeBasis F.Field.model }
{}

/// Through D + 1 values goes exactly one polynomial function of degree at most D.
pub fn one_polynomial_through_values<F: Field>()
    ensures { Interpolation F.Field.model }
{}

/// The pass over the values that divides by no difference with the point gives that polynomial's value.
#[tactic(auto, using(crate::proofs::OnePass::one_pass_lem))]
pub fn one_pass_interpolates<F: Field>()
    ensures { OnePass F.Field.model }
{}

/// A column of counts is a polynomial of degree at most h − 1 in the point, and takes the counts at the rows.
pub fn columns_take_counts<F: Field>()
    ensures { ColumnsExtend F.Field.model }
{}
