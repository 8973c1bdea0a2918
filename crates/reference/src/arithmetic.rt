// Residues modulo p, and pairs of them with t × t = w. One code serves every field: p, e and w are values.
use crate::element::Element;

/// A field in plain numbers. Its primes are below 2^31, so no sum and no product of residues wraps.
#[derive(Clone, Copy, PartialEq, Eq, Debug)]
pub struct Arithmetic {
    /// The characteristic.
    pub p: u64,
    /// The degree, 1 or 2.
    pub e: u64,
    /// The residue that t × t comes to.
    pub w: u64,
    /// The limit of weights.
    pub limit: u64,
}

impl Arithmetic {
    /// The residues modulo 65,537.
    pub const MOD_65537: Arithmetic = Arithmetic {
        p: 65_537,
        e: 1,
        w: 3,
        limit: 256,
    };

    /// The residues modulo 2,147,483,647.
    pub const MERSENNE_31: Arithmetic = Arithmetic {
        p: 2_147_483_647,
        e: 1,
        w: 2_147_483_646,
        limit: 46_340,
    };

    /// The pairs of this field's residues.
    pub fn extended(self) -> Arithmetic {
        Arithmetic { e: 2, ..self }
    }

    /// What a number leaves, divided by p.
    pub fn residue(self, n: u64) -> u64 {
        n.checked_rem(self.p).unwrap_or(0)
    }

    fn times(self, a: u64, b: u64) -> u64 {
        self.residue(a.wrapping_mul(b))
    }

    fn plus(self, a: u64, b: u64) -> u64 {
        self.residue(a.wrapping_add(b))
    }

    fn minus(self, a: u64, b: u64) -> u64 {
        self.plus(a, self.p.wrapping_sub(b))
    }

    /// The element that a whole number stands for.
    pub fn image(self, n: i64) -> Element {
        let size = self.residue(n.unsigned_abs());
        Element::whole(if n < 0 { self.minus(0, size) } else { size })
    }

    /// x + y.
    pub fn sum(self, x: Element, y: Element) -> Element {
        Element {
            low: self.plus(x.low, y.low),
            high: self.plus(x.high, y.high),
        }
    }

    /// x − y.
    pub fn difference(self, x: Element, y: Element) -> Element {
        Element {
            low: self.minus(x.low, y.low),
            high: self.minus(x.high, y.high),
        }
    }

    /// x × y: (a + b t)(c + d t) = (a c + w b d) + (a d + b c) t.
    pub fn product(self, x: Element, y: Element) -> Element {
        let squared = self.times(self.w, self.times(x.high, y.high));
        Element {
            low: self.plus(self.times(x.low, y.low), squared),
            high: self.plus(self.times(x.low, y.high), self.times(x.high, y.low)),
        }
    }

    /// x multiplied n times: the squares of squares at the binary digits of n.
    pub fn power(self, x: Element, n: u64) -> Element {
        let mut all = Element::ONE;
        let mut square = x;
        let mut rest = n;
        while rest > 0 {
            if rest % 2 == 1 {
                all = self.product(all, square);
            }
            square = self.product(square, square);
            rest /= 2;
        }
        all
    }

    /// One over x, and zero at zero: in a field of q elements x^(q − 1) is 1 for every other x.
    pub fn inverse(self, x: Element) -> Element {
        let q = if self.e == 1 {
            self.p
        } else {
            self.p.wrapping_mul(self.p)
        };
        self.power(x, q.wrapping_sub(2))
    }

    /// Whether two numbers are the parts of an element.
    pub fn has_parts(self, low: u64, high: u64) -> bool {
        low < self.p && high < self.p && (self.e != 1 || high == 0)
    }

    /// The elements of these added, from the first on.
    pub fn total(self, several: &[Element]) -> Element {
        several
            .iter()
            .fold(Element::ZERO, |all, x| self.sum(all, *x))
    }
}
