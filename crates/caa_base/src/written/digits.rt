//! Numbers that are read digit by digit.

ghost use Rattle.std.specs.Prelude.{◌≡◌, ◌≤◌, IfSome};
ghost use Rattle.caa_base.specs.Written.Lines.{digits_within};

/// The number that these digits make, where it is at most `most`. A byte below the digits counts as 0.
pub fn digits_within(digits: &[u8], most: u64) -> Option<u64>
    ensures value { result ≡ digits_within most digits.now }
    ensures small { IfSome result (λ number. number ≤ most) }
{
    let most = u128::from(most);
    let mut number = 0u128;
    for digit in digits {
        if number > most {
            return None;
        }
        number = 10 * number + u128::from(digit.saturating_sub(b'0'));
    }
    if number > most {
        return None;
    }
    Some(number as u64)
}
