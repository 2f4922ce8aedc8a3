//! Numbers in decimal.
ghost use Rattle.std.specs.Prelude.{◌≡◌, ◌≢◌, ◌≤◌, ◌<◌, ◌^◌, ℕ, [], length, IfSome, IfNone};
ghost use Rattle.std.specs.Str.Parse.{digits_value, AllDigits};
ghost use Rattle.std.specs.Fmt.{decimal};

/// The number that the digits write, or none if they write none: they are 1 to 14, and the first of them is no 0 if
/// there are more.
pub fn read_number(digits: &[u8]) -> Option<u64>
    ensures some { IfSome result (λ n. (n < 10 ^ 14) × (digits.now ≡ decimal n)) }
    ensures none { IfNone result ((n : ℕ) → n < 10 ^ 14 → digits.now ≢ decimal n) }
{
    if digits.is_empty() || digits.len() > 14 {
        return None;
    }
    if digits[0] == b'0' && digits.len() > 1 {
        return None;
    }
    value_of(digits)
}

// The number that up to 14 digits write, with noughts in front or without.
fn value_of(digits: &[u8]) -> Option<u64>
    requires { length digits.now ≤ 14 }
    ensures some { IfSome result (λ n.
        (n < 10 ^ 14) × (n ≡ digits_value 10 digits.now) × AllDigits 10 digits.now) }
    ensures none { IfNone result (AllDigits 10 digits.now → digits.now ≡ []) }
{
    let mut number = 0u64;
    for digit in digits {
        if !digit.is_ascii_digit() {
            return None;
        }
        number = number * 10 + u64::from(digit - b'0');
    }
    Some(number)
}
