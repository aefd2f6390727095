//! The trait `TextValue` of types whose values are written as JSON strings.
ghost use Rattle.std.specs.Prelude.{◌≡◌, ◌++◌, ℕ, Bool, true, false, List, Option, Some, Ok, Err, IfOk, IfErr, OnOk, OnErr};
ghost use Rattle.std.specs.Prelude.{IsErrOf, string_bytes};
ghost use Rattle.miniserde_model.specs.declared.error.Error.{Error};
ghost use Rattle.miniserde_model.specs.declared.error.Error.TheVariants.{Memory};

use miniserde_model::error::Result;
use std::alloc::Global;

/// A type whose values are written as JSON strings, as an identifier or a date of another crate in a newtype. Its text
/// is parsed as a value of the same content.
pub trait TextValue: Sized + Drop {
    // The content of a value, and the type of that content. It must tell apart values that are not equal: contracts
    // compare values by it alone, and no law asks for that.
    ghost Content: { Type 0 };

    ghost content: { Self → Content };

    // The content of the value that a text is parsed as, if any.
    ghost parsed: { List ℕ → Option Content };

    // The text of a value of the content.
    ghost text: { Content → List ℕ };

    // If true, `parse` never returns `Memory`.
    ghost parse_infallible: { Bool } = { false };

    /// Parses a value. Returns `Invalid` if the text is parsed as no content, and `Memory` if an allocation fails.
    fn parse(alloc: Global, s: &str) -> Result<Self>
        ensures value { IfOk result (λ v. parsed s.now ≡ Some (content v)) }
        ensures invalid { result ≡ Err Error.Invalid → ((c : Content) × (parsed s.now ≡ Some c)) → ⊥ }
        ensures infallible { parse_infallible ≡ true → IfErr result (λ e. e ≡ Error.Invalid) };

    /// Appends the text of the value to `out`. Each error is `Memory`; no clause says what is then in `out`.
    fn write(&self, out: &mut String) -> Result<()>
        ensures ok { OnOk result (string_bytes out.new ≡ string_bytes out.old ++ text (content self.now)) }
        ensures memory { OnErr result (IsErrOf result Memory) };

    /// Changes nothing. It promises that the text of the value is parsed as a value of the same content.
    fn is_read_back(&self)
        ensures { parsed (text (content self.now)) ≡ Some (content self.now) };
}
