//! Whole numbers in their plain decimal form as numbers of JSON.
ghost use Rattle.std.specs.Prelude.{◌≡◌};
ghost use Rattle.std.specs.Option.{option_map};
ghost use Rattle.serde_json.specs.View.{number_view};
ghost use Rattle.jsonld_values.specs.TermWriting.{json_number, plain_number};

use serde_json::Number;
use text_rules::plain_integer_value;

/// A whole number as JSON's own, where it is one from -2^63 to 2^64 - 1.
fn json_number(value: i128) -> Option<Number>
    ensures { option_map number_view result ≡ json_number value }
{
    Number::from_i128(value)
}

/// The number from -2^63 to 2^64 - 1 whose plain decimal form a text is.
pub(crate) fn plain_number(text: &str) -> Option<Number>
    ensures { option_map number_view result ≡ plain_number text.now }
{
    match plain_integer_value(text) {
        Some(value) => json_number(value),
        None => None,
    }
}
