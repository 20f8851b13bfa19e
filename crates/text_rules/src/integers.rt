//! Which texts are plain integers. No test takes memory.
ghost use Rattle.std.specs.Prelude.{◌≡◌, Some, IsTrue};
ghost use Rattle.std.specs.Str.{all_ascii_digits};
ghost use Rattle.std.specs.Str.Parse.{signed_digits_value};
ghost use Rattle.text_rules.specs.Integers.{is_positive_integer, is_plain_integer, plain_integer_value};

/// How many digits a plain integer has at most.
const DIGIT_LIMIT: usize = 30;

/// Whether all bytes are decimal digits.
fn are_digits(bytes: &[u8]) -> bool
    ensures { result ≡ all_ascii_digits bytes.now }
{
    for byte in bytes {
        if !byte.is_ascii_digit() {
            return false;
        }
    }
    true
}

/// Whether a text is 1 to 30 digits, of which the first isn't `0`.
#[tactic(auto, unfolding(crate::specs::Integers::is_positive_integer))]
fn is_positive_integer(text: &[u8]) -> bool
    ensures { result ≡ is_positive_integer text.now }
{
    match text {
        [] => false,
        [first, ..] => *first != b'0' && text.len() <= DIGIT_LIMIT && are_digits(text),
    }
}

/// Whether a text is a plain integer: `0`, or 1 to 30 digits of which the first isn't `0`, with `-` in front or not.
#[tactic(auto, unfolding(crate::specs::Integers::is_plain_integer))]
pub fn is_plain_integer(text: &str) -> bool
    ensures { result ≡ is_plain_integer text.now }
{
    let bytes = text.as_bytes();
    match bytes {
        [] => false,
        [first, rest @ ..] => {
            is_positive_integer(bytes)
                || (*first == b'-' && is_positive_integer(rest))
                || (*first == b'0' && rest.is_empty())
        }
    }
}

/// The number of a plain integer.
fn parsed(text: &str) -> Option<i128>
    requires { IsTrue (is_plain_integer text.now) }
    ensures { result ≡ Some (signed_digits_value 10 text.now) }
{
    text.parse::<i128>().ok()
}

/// The number of a text, where it is a plain integer.
pub fn plain_integer_value(text: &str) -> Option<i128>
    ensures { result ≡ plain_integer_value text.now }
{
    if is_plain_integer(text) {
        parsed(text)
    } else {
        None
    }
}
