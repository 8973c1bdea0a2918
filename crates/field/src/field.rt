// The interface of fields.
ghost use Rattle.std.specs.Prelude.{◌≡◌, ◌≤◌, ℕ, pos};
ghost use Rattle.field.specs.Field.{FieldModel, LawfulField, InRange, PartsOf, same, inverse, high_limit, element};
ghost use Rattle.field.specs.declared.limits.TheConstants.{INVERSES};

use std::ops::{Add, Mul, Neg};

/// A lawful field. Its meaning is one record of constants and operations; `a + b`, `a * b` and `-a` are what the record says, and so is
/// what each method answers. Elements are equal where both parts agree.
pub trait Field: Copy + Eq + Add<Output = Self> + Mul<Output = Self> + Neg<Output = Self> {
    ghost model: { FieldModel Self };

    ghost CHARACTERISTIC: { ℕ };

    /// The characteristic p, a prime from 65,537 to 2,147,483,647.
    const CHARACTERISTIC: u32;

    ghost DEGREE: { ℕ };

    /// The degree e over the residues modulo p: 1 or 2.
    const DEGREE: u32;

    ghost LIMIT: { ℕ };

    /// The limit W of the weight of a board's moves: at least 1, and W × W is below p.
    const LIMIT: u32;

    /// Zero.
    fn zero() -> Self
        ensures { result ≡ model.zero };

    /// One.
    fn one() -> Self
        ensures { result ≡ model.one };

    /// One over the element; nothing at zero.
    fn inverse(self) -> Option<Self>
        ensures { result ≡ inverse model self };

    /// One over a whole number from 1 to 252.
    fn inverse_of(n: u32) -> Self
        requires least { 1 ≤ n }
        requires greatest { n ≤ INVERSES }
        ensures { result ≡ model.inv (model.image (pos n)) };

    /// The element that a whole number from −2,147,483,647 to 2,147,483,647 stands for.
    fn image(n: i32) -> Self
        requires { InRange n }
        ensures { result ≡ model.image n };

    /// The low part, from 0 to p − 1.
    fn low(self) -> u32
        ensures { result ≡ model.low self };

    /// The high part, from 0 to p − 1, and 0 where the degree is 1.
    fn high(self) -> u32
        ensures { result ≡ model.high self };

    /// The element with these parts.
    fn of_parts(low: u32, high: u32) -> Self
        requires { PartsOf model low high }
        ensures { result ≡ model.make low high };

    /// High parts are below this: p, or 1 where the degree is 1.
    fn high_limit() -> u32
        ensures { result ≡ high_limit model.characteristic model.degree }
    {
        if Self::DEGREE == 1 {
            1
        } else {
            Self::CHARACTERISTIC
        }
    }

    /// The element with these parts; nothing where they are no parts of an element.
    fn element(low: u32, high: u32) -> Option<Self>
        ensures { result ≡ element model low high }
    {
        if low < Self::CHARACTERISTIC && high < Self::high_limit() {
            Some(Self::of_parts(low, high))
        } else {
            None
        }
    }

    ghost lawful: { LawfulField model };

    ghost equality: { (x y : Self) → Self.PartialEq.eq x y ≡ same model x y };

    ghost characteristic_is: { CHARACTERISTIC ≡ model.characteristic };

    ghost degree_is: { DEGREE ≡ model.degree };

    ghost limit_is: { LIMIT ≡ model.limit };

    ghost can_add_law: { (x y : Self) → Self.Add.can_add x y };

    ghost add_law: { (x y z : Self) → Self.Add.add_gives x y z → z ≡ model.add x y };

    ghost can_mul_law: { (x y : Self) → Self.Mul.can_mul x y };

    ghost mul_law: { (x y z : Self) → Self.Mul.mul_gives x y z → z ≡ model.mul x y };

    ghost can_neg_law: { (x : Self) → Self.Neg.can_neg x };

    ghost neg_law: { (x z : Self) → Self.Neg.neg_gives x z → z ≡ model.neg x };
}
