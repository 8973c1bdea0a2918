// What the pen puts: each of these puts bytes at a place of the paper, on which there is room for
// them, and returns the place behind them.
ghost use Rattle.std.specs.Prelude.{◌+◌, ◌<◌, ◌≤◌, [], ◌∷◌, length, decimal};
ghost use Rattle.std.specs.Fmt.{signed_decimal};
ghost use Rattle.writer.specs.Papers.{Lays};

#[inline(always)]
fn put_byte(paper: &mut [u8], at: usize, byte: u8) -> usize
    requires { at < length paper.old }
    ensures { Lays (byte ∷ []) paper.old at paper.new result }
{
    paper[at] = byte;
    at + 1
}

pub(crate) fn put_bytes(paper: &mut [u8], at: usize, bytes: &[u8]) -> usize
    requires { at + length bytes.now ≤ length paper.old }
    ensures { Lays bytes.now paper.old at paper.new result }
{
    let end = at + bytes.len();
    paper[at..end].copy_from_slice(bytes);
    end
}

// A natural number in decimal, by hand: a `write!` may fail, and this may not.
#[tactic(auto, using(std::proofs::lemmas::Fmt::decimal_digit, std::proofs::lemmas::Fmt::decimal_nonempty, crate::proofs::Papers::front_fits, crate::proofs::Papers::lays_length, crate::proofs::Papers::lays_as))]
pub(crate) fn put_decimal(paper: &mut [u8], at: usize, n: u64) -> usize
    requires { at + length (decimal n) ≤ length paper.old }
    ensures { Lays (decimal n) paper.old at paper.new result }
{
    if n < 10 {
        return put_byte(paper, at, b'0' + n as u8);
    }
    let tens = n / 10;
    if tens < 10 {
        let last = put_byte(paper, at, b'0' + tens as u8);
        return put_byte(paper, last, b'0' + (n % 10) as u8);
    }
    let next = put_decimal(paper, at, tens / 10);
    let last = put_byte(paper, next, b'0' + (tens % 10) as u8);
    put_byte(paper, last, b'0' + (n % 10) as u8)
}

// A whole number in decimal.
pub(crate) fn put_signed(paper: &mut [u8], at: usize, z: i64) -> usize
    requires { at + length (signed_decimal z) ≤ length paper.old }
    ensures { Lays (signed_decimal z) paper.old at paper.new result }
{
    if z < 0 {
        let next = put_byte(paper, at, b'-');
        put_decimal(paper, next, z.unsigned_abs())
    } else {
        put_decimal(paper, at, z.unsigned_abs())
    }
}
