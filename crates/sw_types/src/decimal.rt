//! Decimal digits.

ghost use Rattle.std.specs.Prelude.{◌≡◌, ◌<◌, ◌≤◌, ◌^◌, ◌↔◌, ℕ, IfSome, IsTrue, Some, length};
ghost use Rattle.std.specs.Fmt.{decimal};
ghost use Rattle.std.specs.Str.Parse.{IsNumeral, digits_value};
ghost use Rattle.sw_types.specs.Decimal.{last_digits};

// Fills the text with the last digits of a number.
pub(crate) fn write_digits(text: &mut [u8], number: u64)
    ensures { text.new ≡ last_digits (length text.old) number }
{
    let mut rest = number;
    let mut place = text.len();
    while place > 0 {
        place -= 1;
        text[place] = b'0' + (rest % 10) as u8;
        rest /= 10;
    }
}

// The number whose last digits, as many as the text is long, the text is, or `None` where a byte is no digit.
pub(crate) fn read_digits(text: &[u8]) -> Option<u64>
    requires { length text.now ≤ 15 }
    ensures found { IfSome result (λ number. (text.now ≡ last_digits (length text.now) number) × (number < 10 ^ length text.now)) }
    ensures reads { (number : ℕ) → number < 10 ^ length text.now → text.now ≡ last_digits (length text.now) number → result ≡ Some number }
{
    let mut number = 0;
    for byte in text {
        if !byte.is_ascii_digit() {
            return None;
        }
        number = number * 10 + u64::from(*byte - b'0');
    }
    Some(number)
}

/// The number that these digits write, with zeros in front or none, where they are digits and it is below 2^64.
pub(crate) fn number_of(digits: &[u8]) -> Option<u64>
    ensures { IsNumeral 10 digits.now → digits_value 10 digits.now < 2 ^ 64 → result ≡ Some (digits_value 10 digits.now) }
{
    let text = str::from_utf8(digits).ok()?;
    text.parse().ok()
}

/// Whether a text is the decimal of a number.
pub fn is_decimal(text: &[u8], number: u64) -> bool
    ensures { IsTrue result ↔ text.now ≡ decimal number }
{
    if number < 10 {
        return text == [b'0' + number as u8].as_slice();
    }
    let Some((last, front)) = text.split_last() else {
        return false;
    };
    *last == b'0' + (number % 10) as u8 && is_decimal(front, number / 10)
}

/// The number whose decimal this is, if it is one: digits without a sign, with no zero in front but in `0` itself, of a
/// number below 2^64.
pub fn read_decimal(text: &[u8]) -> Option<u64>
    ensures found { IfSome result (λ number. text.now ≡ decimal number) }
    ensures reads { (number : ℕ) → number < 2 ^ 64 → text.now ≡ decimal number → result ≡ Some number }
{
    let number = number_of(text)?;
    if is_decimal(text, number) {
        Some(number)
    } else {
        None
    }
}
