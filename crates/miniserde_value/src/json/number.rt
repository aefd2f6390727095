//! The type `Number`, a JSON number.
ghost use Rattle.std.specs.Prelude.{◌≡◌, IfOk, OnErr, IsErrOf};
ghost use Rattle.miniserde_model.specs.declared.error.Error.TheVariants.{Memory};

use miniserde_model::error::Result;
use miniserde_text::json::number::NumberText;
use std::alloc::Global;
use std::fmt;

/// A JSON number. An `I64` of at least 0 is written without `-`, as the `U64` of that number is.
#[derive(Drop)]
pub enum Number {
    U64(u64),
    I64(i64),
    /// A number with a fraction or an exponent, or an integer below -2^63 or above 2^64-1, as its text.
    Text(NumberText),
}

impl Number {
    /// Returns a copy of the number, or `Memory` if an allocation fails.
    pub fn try_clone(&self, alloc: Global) -> Result<Number>
        ensures ok { IfOk result (λ n. n ≡ self.now) }
        ensures memory { OnErr result (IsErrOf result Memory) }
    {
        match self {
            Number::U64(n) => Ok(Number::U64(*n)),
            Number::I64(n) => Ok(Number::I64(*n)),
            Number::Text(text) => Ok(Number::Text(text.try_clone(alloc)?)),
        }
    }
}

/// Shows the number as it is written in JSON. Allocates nothing.
impl fmt::Display for Number {
    ghost use Rattle.std.specs.Prelude.{Some};
    ghost use Rattle.miniserde_model.specs.Compact.{compact};
    ghost use Rattle.miniserde_model.specs.Normal.{norm};
    ghost use Rattle.miniserde_value.specs.Numbers.{number_leaf};

    ghost output = { λ n. Some (compact (norm (number_leaf n))) };

    // Formatting options, as in `{:>20}`, change nothing.
    ghost styled_output = { λ n _. Some (compact (norm (number_leaf n))) };

    fn fmt<W: fmt::Write>(&self, f: &mut fmt::Formatter<W>) -> fmt::Result {
        match self {
            Number::U64(n) => f.write_str(itoa::Buffer::new().format(*n)),
            Number::I64(n) => f.write_str(itoa::Buffer::new().format(*n)),
            Number::Text(text) => f.write_str(text.as_str()),
        }
    }
}

/// Shows `Number(`, the number as it is written in JSON, and `)`.
impl fmt::Debug for Number {
    fn fmt<W: fmt::Write>(&self, f: &mut fmt::Formatter<W>) -> fmt::Result {
        write!(f, "Number({self})")
    }
}
