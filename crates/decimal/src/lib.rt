// Reads a number in decimal digits.

#![tactic(auto)]

ghost use Rattle.std.specs.Prelude.{◌≡◌, true};
ghost use Rattle.std.specs.Str.{all_ascii_digits};
ghost use Rattle.rules.specs.Scan.{skip};
ghost use Rattle.decimal.specs.Digits.{is_digit, number_of, number_at};

// std's test as a function, which promises what the rules call a digit.
fn is_digit(b: u8) -> bool
    ensures { result ≡ is_digit b }
{
    b.is_ascii_digit()
}

// The end of the digits at the place.
fn skip_digits(s: &[u8], at: usize) -> usize
    ensures { result ≡ skip is_digit s.now at }
{
    scan::skip_while(s, at, is_digit)
}

// Numbers are below 2^32.
const LIMIT: u64 = 4294967296;

// The number that 1 to 10 digits say, if it is below 2^32: kept at 2^32 once it is not, so that no product wraps. std's `from_str_radix` takes a
// text, so the digits would be gone over twice, and reading a number cost more than twice as much.
fn number_of(digits: &[u8]) -> Option<u32>
    requires { all_ascii_digits digits.now ≡ true }
    ensures { result ≡ number_of digits.now }
{
    if digits.is_empty() {
        return None;
    }
    if 10 < digits.len() {
        return None;
    }
    let mut n = 0;
    for digit in digits {
        n = (n * 10 + u64::from(*digit - b'0')).min(LIMIT);
    }
    u32::try_from(n).ok()
}

// The number at the place, with all the digits there, and the place after it.
pub fn number_at(s: &[u8], at: usize) -> Option<(u32, usize)>
    ensures { result ≡ number_at s.now at }
{
    let end = skip_digits(s, at);
    let n = number_of(s.get(at..end)?)?;
    Some((n, end))
}
