// The prime field of the residues modulo 65,537.
ghost use Rattle.std.specs.Prelude.{◌≡◌};
ghost use Rattle.std.proofs.Common.{lit<};
ghost use Rattle.field.specs.Field.{LawfulField, LawfulBase};
ghost use Rattle.prime.specs.Primes.{Prime};
ghost use Rattle.prime.specs.Residues.{residue_of, prime_field};
ghost use Rattle.prime.specs.Fields.{modulus_65537};

use crate::modulus::Modulus;
use crate::residue::Residue;
use crate::table_65537::INVERSES;
use field::{BaseField, Field};

/// The field of the residues modulo the prime 65,537.
/// The limit of weights is 256, and 3 is no square.
pub type Mod65537 = Residue<65537>;

impl Modulus<65537> for Residue<65537> {
    ghost positive = { lit< tt };

    ghost LIMIT = { 256 };

    const LIMIT: u32 = 256;

    ghost NON_SQUARE = { 3 };

    const NON_SQUARE: u32 = 3;

    ghost lawful = { modulus_65537 };

    fn inverses() -> &'static [u32; 252] {
        &INVERSES
    }
}

/// 65,537 is prime: a theorem, with nothing to run.
#[tactic(auto, using(crate::specs::Primality::prime_65537))]
pub fn is_prime_65537()
    ensures { Prime 65537 }
{}

/// The limit of the weight of a board's moves modulo 65,537: 256.
pub fn limit_65537() -> u32
    ensures { result ≡ 256 }
{
    <Mod65537 as Field>::LIMIT
}

/// The number that makes the extension: t × t is 3.
/// That it is no square modulo 65,537 says `is_lawful_65537`.
pub fn non_square_65537() -> u32
    ensures { result ≡ 3 }
{
    Mod65537::non_square().value()
}

/// The residues modulo 65,537 are a lawful field, and with 3, which is no square,
/// a lawful base of the extension: a theorem, with nothing to run.
#[tactic(auto, using(crate::specs::Fields::lawful_65537, crate::specs::Fields::base_65537))]
pub fn is_lawful_65537()
    ensures field { LawfulField (prime_field 65537 (lit< tt) 256) }
    ensures base { LawfulBase (prime_field 65537 (lit< tt) 256) (residue_of 65537 (lit< tt) 3) }
{}
