//! Numbers among the words.

ghost use Rattle.std.specs.Prelude.{◌≡◌, ◌<◌, ◌^◌, IsTrue, length, SomeIff};
ghost use Rattle.std.specs.Char.{is_ascii_digit};
ghost use Rattle.std.specs.List.{list_all};
ghost use Rattle.std.specs.Option.{option_map};
ghost use Rattle.std.specs.Str.Parse.{digits_value};
ghost use Rattle.command_words.specs.Forms as spec;

fn are_digits(bytes: &[u8]) -> bool
    ensures { result ≡ list_all is_ascii_digit bytes.now }
{
    bytes.iter().all(|byte| byte.is_ascii_digit())
}

// The number that digits write, where it has 64 bits.
fn magnitude(text: &str) -> Option<u64>
    requires some { 0 < length text.now }
    requires digits { IsTrue (list_all is_ascii_digit text.now) }
    ensures { SomeIff result (digits_value 10 text.now < 2 ^ 64) (digits_value 10 text.now) }
{
    text.parse::<u64>().ok()
}

/// The number that a text of decimal digits writes, where it is in the range; `None` for any other
/// text.
pub(crate) fn number_within(text: &str, low: u64, high: u64) -> Option<u64>
    ensures { result ≡ spec.number_within low high text.now }
{
    if text.is_empty() || !are_digits(text.as_bytes()) {
        return None;
    }
    let number = magnitude(text)?;
    if low <= number && number <= high {
        Some(number)
    } else {
        None
    }
}

/// The same of an option that stands for a number where it isn't among the words.
pub(crate) fn number_or(text: Option<&str>, standard: u32, low: u32, high: u32) -> Option<u32>
    ensures { result ≡ spec.number_or standard low high (option_map (λ t. t.now) text.entry) }
{
    let Some(text) = text else {
        return Some(standard);
    };
    small(text, low, high)
}

/// The number that a text writes, where it is in the range.
pub(crate) fn small(text: &str, low: u32, high: u32) -> Option<u32>
    ensures { result ≡ spec.number_within low high text.now }
{
    let number = number_within(text, u64::from(low), u64::from(high))?;
    u32::try_from(number).ok()
}
