//! A fraction, which is kept as its text.
ghost use Rattle.std.specs.Prelude.{◌≡◌, option_map};
ghost use Rattle.examples.specs.Rates.{kept_text};

use miniserde::json::Number;

/// Returns the text of a ratio, as `1.50`, or `None` if the ratio is an integer of 64 bits.
pub fn fraction(ratio: &Number) -> Option<&str>
    ensures { option_map (λ s. s.now) result ≡ kept_text ratio.now }
{
    match ratio {
        Number::Text(text) => Some(text.as_str()),
        _ => None,
    }
}
