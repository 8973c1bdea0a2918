// Residues modulo P, and the way to the inverse of one where P is prime.
ghost use Rattle.std.specs.Prelude.{◌≡◌, ◌<◌, ◌≤◌, ◌==◌, Some, None, if◌then◌else◌};

/// A residue modulo P: a whole number from 0 to P − 1.
#[derive(Clone, Copy, PartialEq, Eq, Debug)]
pub struct Residue<const P: u32> {
    pub(crate) value: u32,
    ghost small: { value < P },
}

impl<const P: u32> Residue<P> {
    ghost use Rattle.prime.specs.Residues.{inverted, value_of};

    /// The number itself, from 0 to P − 1.
    pub fn value(self) -> u32
        ensures { result ≡ value_of self.entry }
    {
        self.value
    }

    // What times the residue leaves 1 modulo a prime P; nothing at 0. It is the extended Euclidean
    // algorithm with its coefficients reduced modulo P: each remainder r is its t times the residue.
    // Each turn needs both remainders and both coefficients.
    pub(crate) fn inverted(self) -> Option<Self>
        requires least { 1 < P }
        requires most { P ≤ 2147483647 }
        ensures { result ≡ (if self.entry.value == 0 then None else Some (inverted self.entry)) }
    {
        if self.value == 0 {
            return None;
        }
        let p = P as u64;
        let (mut r0, mut r1) = (p, self.value as u64);
        let (mut t0, mut t1) = (0u64, 1u64);
        while r1 != 0 {
            let less = (r0 / r1 * t1) % p;
            let t2 = (t0 + (p - less)) % p;
            (r0, r1) = (r1, r0 % r1);
            (t0, t1) = (t1, t2);
        }
        let value = (t0 % p) as u32;
        Some(Residue { value })
    }
}
