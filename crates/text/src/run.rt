// Runs of bytes: how long they are, and what they say.
ghost use Rattle.std.specs.Prelude.{◌≡◌, ◌==◌, ◌^◌, ◌<◌, not, length, take_while, IfSome};
ghost use Rattle.std.specs.List.{list_all};
ghost use Rattle.std.specs.Char.{is_ascii_lowercase};
ghost use Rattle.text.specs.Tokens.{is_stop, is_word, digits_value, number_value};

// Whether a byte ends a run: a space, a bracket or a line end.
fn is_stop(b: u8) -> bool
    ensures { result ≡ is_stop b }
{
    b == b' ' || b == b'(' || b == b')' || b == b'\n'
}

// The length of the run at the front.
pub(crate) fn run_length(bytes: &[u8]) -> usize
    ensures { result ≡ length (take_while (λ b. not (is_stop b)) bytes.now) }
{
    bytes.iter().take_while(|b| !is_stop(**b)).count()
}

// How many spaces stand at the front.
pub(crate) fn leading_spaces(bytes: &[u8]) -> usize
    ensures { result ≡ length (take_while (λ b. b == 32) bytes.now) }
{
    bytes.iter().take_while(|b| **b == b' ').count()
}

// Whether each byte is a letter a to z.
fn all_letters(run: &[u8]) -> bool
    ensures { result ≡ list_all is_ascii_lowercase run.now }
{
    run.iter().all(|b| b.is_ascii_lowercase())
}

// Whether a run is one to eight letters.
pub(crate) fn is_word(run: &[u8]) -> bool
    ensures { result ≡ is_word run.now }
{
    (1..=8).contains(&run.len()) && all_letters(run)
}

// The value of one to ten digits.
fn digits_value(digits: &[u8]) -> Option<u64>
    ensures value { result ≡ digits_value digits.now }
    ensures small { IfSome result (λ n. n < 10 ^ 10) }
{
    if !(1..=10).contains(&digits.len()) {
        return None;
    }
    let mut value = 0;
    for b in digits {
        if !b.is_ascii_digit() {
            return None;
        }
        value = value * 10 + u64::from(*b - b'0');
    }
    Some(value)
}

// The value of a number: an optional minus sign and digits.
pub(crate) fn number_value(run: &[u8]) -> Option<i64>
    ensures { result ≡ number_value run.now }
{
    match run {
        [b'-', digits @ ..] => digits_value(digits).map(|n| -(n as i64)),
        digits => digits_value(digits).map(|n| n as i64),
    }
}
