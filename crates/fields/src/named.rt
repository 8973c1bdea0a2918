// The four fields that have names.
ghost use Rattle.std.specs.Prelude.{◌≡◌, ◌↔◌, IsTrue, IsSome, IfSome};
ghost use Rattle.fields.specs.NamedFields.{characteristic_of, degree_of, limit_of, non_square_of, is_named};

use crate::task::FieldTask;
use extension::Extension;
use field::Field;
use prime::{
    Mersenne31, Mod65537, limit_65537, limit_2147483647, non_square_65537, non_square_2147483647,
};

/// The quadratic extension of the residues modulo 65,537: a + b t with t × t = 3.
pub type Mod65537x2 = Extension<Mod65537>;

/// The quadratic extension of the residues modulo 2,147,483,647: a + b t with t × t = −1.
pub type Mersenne31x2 = Extension<Mersenne31>;

/// One of the four named fields, as a value.
#[derive(Clone, Copy, PartialEq, Eq, Debug)]
pub enum NamedField {
    /// The residues modulo 65,537.
    Mod65537,
    /// The extension of the residues modulo 65,537.
    Mod65537x2,
    /// The residues modulo 2,147,483,647.
    Mersenne31,
    /// The extension of the residues modulo 2,147,483,647.
    Mersenne31x2,
}

impl NamedField {
    /// All four, each prime field before its extension.
    pub const ALL: [NamedField; 4] = [
        NamedField::Mod65537,
        NamedField::Mod65537x2,
        NamedField::Mersenne31,
        NamedField::Mersenne31x2,
    ];

    /// The named field of characteristic p and degree e, if there is one.
    pub fn of_numbers(p: u32, e: u32) -> Option<NamedField>
        ensures known { IsSome result ↔ IsTrue (is_named p e) }
        ensures characteristic { IfSome result (λ field. characteristic_of field ≡ p) }
        ensures degree { IfSome result (λ field. degree_of field ≡ e) }
    {
        match (p, e) {
            (65_537, 1) => Some(NamedField::Mod65537),
            (65_537, 2) => Some(NamedField::Mod65537x2),
            (2_147_483_647, 1) => Some(NamedField::Mersenne31),
            (2_147_483_647, 2) => Some(NamedField::Mersenne31x2),
            _ => None,
        }
    }

    /// The characteristic p: 65,537 or 2,147,483,647.
    pub fn characteristic(self) -> u32
        ensures { result ≡ characteristic_of self }
    {
        match self {
            NamedField::Mod65537 => Mod65537::CHARACTERISTIC,
            NamedField::Mod65537x2 => Mod65537x2::CHARACTERISTIC,
            NamedField::Mersenne31 => Mersenne31::CHARACTERISTIC,
            NamedField::Mersenne31x2 => Mersenne31x2::CHARACTERISTIC,
        }
    }

    /// The degree e: 1, or 2 for an extension.
    pub fn degree(self) -> u32
        ensures { result ≡ degree_of self }
    {
        match self {
            NamedField::Mod65537 => Mod65537::DEGREE,
            NamedField::Mod65537x2 => Mod65537x2::DEGREE,
            NamedField::Mersenne31 => Mersenne31::DEGREE,
            NamedField::Mersenne31x2 => Mersenne31x2::DEGREE,
        }
    }

    /// The limit W of the weight of a board's moves: 256 or 46,340.
    pub fn limit(self) -> u32
        ensures { result ≡ limit_of self }
    {
        match self {
            NamedField::Mod65537 | NamedField::Mod65537x2 => limit_65537(),
            NamedField::Mersenne31 | NamedField::Mersenne31x2 => limit_2147483647(),
        }
    }

    /// The number that t × t is in the extension of the residues modulo p: 3 or 2,147,483,646,
    /// which is no square modulo p.
    pub fn non_square(self) -> u32
        ensures { result ≡ non_square_of self }
    {
        match self {
            NamedField::Mod65537 | NamedField::Mod65537x2 => non_square_65537(),
            NamedField::Mersenne31 | NamedField::Mersenne31x2 => non_square_2147483647(),
        }
    }

    /// Does a task over this field.
    pub fn run<T: FieldTask>(self, task: T) -> T::Out
        ensures { T.run_gives (characteristic_of self) (degree_of self) task result }
    {
        match self {
            NamedField::Mod65537 => task.run::<Mod65537>(),
            NamedField::Mod65537x2 => task.run::<Mod65537x2>(),
            NamedField::Mersenne31 => task.run::<Mersenne31>(),
            NamedField::Mersenne31x2 => task.run::<Mersenne31x2>(),
        }
    }
}
