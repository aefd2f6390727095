//! The checks of the newtypes.
ghost use Rattle.std.specs.Prelude.{◌≡◌};
ghost use Rattle.std.specs.List.{list_all};
ghost use Rattle.test_newtypes.specs.Checks.{at_most_100, is_celsius, is_slug, is_slug_byte};

/// Returns whether the number is at most 100.
pub fn at_most_100(n: u8) -> bool
    ensures { result ≡ at_most_100 n }
{
    n <= 100
}

// Returns whether the byte is a letter from a to z, a digit or a hyphen.
fn is_slug_byte(b: u8) -> bool
    ensures { result ≡ is_slug_byte b }
{
    (97 <= b && b <= 122) || (48 <= b && b <= 57) || b == 45
}

// Returns whether each byte of the text is one of a slug.
fn all_slug_bytes(s: &str) -> bool
    ensures { result ≡ list_all is_slug_byte s.now }
{
    s.as_bytes().iter().all(|b| is_slug_byte(*b))
}

/// Returns whether the text is one letter from a to z, digit or hyphen, or more of them.
pub fn is_slug(s: &str) -> bool
    ensures { result ≡ is_slug s.now }
{
    !s.is_empty() && all_slug_bytes(s)
}

/// Returns whether the temperature is above absolute zero.
pub fn is_celsius(n: i16) -> bool
    ensures { result ≡ is_celsius n }
{
    -273 <= n
}
