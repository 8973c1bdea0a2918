//! Prime fields: the residues modulo any prime that is a `Modulus`,
//! which 65,537 and 2,147,483,647 are.
#![tactic(auto)]

mod modulo_2147483647;
mod modulo_65537;
mod modulus;
mod operators;
mod prime_field;
mod residue;
mod table_2147483647;
mod table_65537;

pub use modulo_65537::{Mod65537, is_lawful_65537, is_prime_65537, limit_65537, non_square_65537};
pub use modulo_2147483647::{
    Mersenne31, is_lawful_2147483647, is_prime_2147483647, limit_2147483647, non_square_2147483647,
};
pub use modulus::Modulus;
pub use residue::Residue;
