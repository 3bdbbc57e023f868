// Numbers as they are written in a line.
ghost use Rattle.std.specs.Prelude.{◌≡◌, ◌^◌, ◌≤◌, ◌↔◌, IfOk, IfSome, IsErrOf, IsNone, IsTrue};
ghost use Rattle.std.specs.Char.{is_digit};
ghost use Rattle.std.specs.List.{list_all};
ghost use Rattle.std.specs.Str.Parse.{IsNumeral, digits_value};

/// Why a text is no number.
#[derive(Clone, Copy, Debug, PartialEq, Eq)]
pub enum NumberError {
    /// It is empty, or has a byte that is no digit.
    NotDigits,
    /// It has digits only, and they write a number above the largest of the type.
    TooLarge,
}

fn are_digits(text: &str, radix: u32) -> bool
    requires least { 2 ≤ radix }
    requires most { radix ≤ 36 }
    ensures { result ≡ list_all (λ b. is_digit b radix) text.now }
{
    text.bytes().all(|byte| char::from(byte).is_digit(radix))
}

// One digit or more, and nothing else.
#[tactic(auto, using(crate::proofs::Digits::digits_if_tested, crate::proofs::Digits::tested_if_digits))]
fn is_numeral(text: &str, radix: u32) -> bool
    requires least { 2 ≤ radix }
    requires most { radix ≤ 36 }
    ensures { IsTrue result ↔ IsNumeral radix text.now }
{
    !text.is_empty() && are_digits(text, radix)
}

/// The number that digits write in a base, without a sign, if it is one and fits. A number of many digits is one too where its value fits.
// For readers that do not tell why a text is no number: that takes another walk over its digits.
#[tactic(auto, using(crate::proofs::Digits::no_plus, crate::proofs::Digits::unread_is_large))]
pub fn number_in(text: &str, radix: u32) -> Option<u32>
    requires least { 2 ≤ radix }
    requires most { radix ≤ 36 }
    ensures value { IfSome result (λ n. IsNumeral radix text.now × (n ≡ digits_value radix text.now)) }
    ensures none { IsNone result → IsNumeral radix text.now → 2 ^ 32 ≤ digits_value radix text.now }
{
    // The library's readers take a plus before the digits.
    if text.starts_with('+') {
        return None;
    }
    // Its reader of decimals is the quicker one.
    if radix == 10 {
        text.parse::<u32>().ok()
    } else {
        u32::from_str_radix(text, radix).ok()
    }
}

/// The same number, or why there is none.
pub fn read_number(text: &str, radix: u32) -> Result<u32, NumberError>
    requires least { 2 ≤ radix }
    requires most { radix ≤ 36 }
    ensures value { IfOk result (λ n. n ≡ digits_value radix text.now) }
    ensures not_digits { IsErrOf result NumberError.NotDigits ↔ ¬ IsNumeral radix text.now }
    ensures too_large { IsErrOf result NumberError.TooLarge → 2 ^ 32 ≤ digits_value radix text.now }
{
    if let Some(number) = number_in(text, radix) {
        return Ok(number);
    }
    if !is_numeral(text, radix) {
        return Err(NumberError::NotDigits);
    }
    Err(NumberError::TooLarge)
}
