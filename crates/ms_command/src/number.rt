ghost use Rattle.std.specs.Prelude.{◌≡◌, ◌≤◌, ◌<◌, ◌^◌, IfSome, length, pos, Some, None, if◌then◌else◌};
ghost use Rattle.std.specs.Char.{is_ascii_digit};
ghost use Rattle.std.specs.List.{list_all};
ghost use Rattle.std.specs.Option.{option_map};
ghost use Rattle.std.specs.Str.Parse as digits;
ghost use Rattle.ms_command.specs.Numerals.{number_value, numeral_value};

/// The most digits of a number in a command.
const MOST_DIGITS: usize = 10;

/// The whole number that a token stands for: one to ten digits, perhaps behind a minus sign.
pub fn number(token: &[u8]) -> Option<i64>
    ensures { result ≡ number_value token.now }
{
    match token {
        [] => None,
        [b'-', digits @ ..] => signed(digits).map(|n| -n),
        _ => signed(token),
    }
}

/// The number that one to ten digits stand for, as a signed number.
fn signed(text: &[u8]) -> Option<i64>
    ensures { result ≡ option_map pos (numeral_value text.now) }
{
    match numeral(text) {
        None => None,
        Some(value) => Some(value as i64),
    }
}

/// The number that one to ten digits stand for.
pub fn numeral(text: &[u8]) -> Option<u64>
    ensures value { result ≡ numeral_value text.now }
    ensures small { IfSome result (λ value. value < 10 ^ 10) }
{
    if text.is_empty() || text.len() > MOST_DIGITS {
        return None;
    }
    digits_value(text)
}

/// The number that at most ten bytes stand for, where each is a digit.
fn digits_value(text: &[u8]) -> Option<u64>
    requires { length text.now ≤ 10 }
    ensures value { result ≡ (if list_all is_ascii_digit text.now then Some (digits.digits_value 10 text.now) else None) }
    ensures small { IfSome result (λ value. value < 10 ^ 10) }
{
    let mut value = 0u64;
    for byte in text {
        if !byte.is_ascii_digit() {
            return None;
        }
        value = value * 10 + u64::from(*byte - b'0');
    }
    Some(value)
}
