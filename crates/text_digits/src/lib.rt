// The value of decimal digits, for all who read them: both readings of a rule, and a header's count of forms. `u64::from_str_radix` in base
// ten, which the crate asks of Rust's library, is `integer_of`.
#![tactic(auto)]

ghost use Rattle.std.specs.Prelude.{◌≡◌};
ghost use Rattle.text_digits.specs.Digits.{digit, digit_on, digits, integer};

pub fn is_digit(b: u8) -> bool
    ensures { result ≡ digit b }
{
    b.is_ascii_digit()
}

// A number with one more digit, or none if that is no digit or too much.
pub fn digit_on(v: u64, ch: u8) -> Option<u64>
    ensures { result ≡ digit_on v ch }
{
    if !is_digit(ch) {
        return None;
    }
    v.checked_mul(10)?.checked_add(u64::from(ch - b'0'))
}

// Digits alone, at least one.
#[tactic(auto, using(crate::proofs::Digits::digits_cases))]
pub fn digits_of(s: &[u8]) -> Option<u64>
    ensures { result ≡ digits s.now }
{
    if s.is_empty() {
        return None;
    }
    let mut v = 0;
    for &ch in s {
        v = digit_on(v, ch)?;
    }
    Some(v)
}

// `u64::from_str_radix(s, 10)`.
pub fn integer_of(s: &[u8]) -> Option<u64>
    ensures { result ≡ integer s.now }
{
    if s.first() == Some(&b'+') {
        return digits_of(&s[1..]);
    }
    digits_of(s)
}
