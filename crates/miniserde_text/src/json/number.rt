//! Numbers that are kept as their texts.
ghost use Rattle.std.specs.Prelude.{◌≡◌, ◌↔◌, Err, IsTrue, IfOk, OnOk, OnErr, IsErrOf};
ghost use Rattle.miniserde_model.specs.Tree.{num};
ghost use Rattle.miniserde_model.specs.Number.{IsNumber};
ghost use Rattle.miniserde_model.specs.declared.error.Error.{Error};

use super::lex::Event;
use super::lex::number::take_any_number;
use miniserde_model::error::{Error, Result};
use std::alloc::Global;
use std::marker::Model;

/// The text of a number with a fraction or an exponent, or of an integer below -2^63 or above 2^64-1. A contract sees
/// its bytes.
#[derive(Debug, Drop)]
pub struct NumberText {
    text: Box<String>,
}

impl Model for NumberText {
    ghost use Rattle.std.specs.Prelude.{List, ℕ, string_bytes};
    ghost use Rattle.miniserde_model.specs.Tree.{num};
    ghost use Rattle.miniserde_model.specs.Number.{IsNumber};

    ghost Value = { List ℕ };

    ghost view = { λ n. string_bytes n.text.value };

    ghost invariant = { λ n. IsNumber (string_bytes n.text.value) (num (string_bytes n.text.value)) };
}

impl NumberText {
    /// Returns whether the whole of `t` is the text of a number with a fraction or an exponent, or of an integer below
    /// -2^63 or above 2^64-1.
    pub fn is_text(t: &str) -> bool
        ensures { IsTrue result ↔ IsNumber t.now (num t.now) }
    {
        let Some((event, end)) = take_any_number(t, 0) else {
            return false;
        };
        match event {
            Event::Number(_) => end == t.len(),
            _ => false,
        }
    }

    /// Returns a copy of `t`. Returns `Invalid` without allocating if `is_text` returns `false` for `t`, and `Memory`
    /// if an allocation fails.
    pub fn new(alloc: Global, t: &str) -> Result<NumberText>
        ensures ok { IfOk result (λ n. n ≡ t.now) }
        ensures is_text { OnOk result (IsNumber t.now (num t.now)) }
        ensures invalid { result ≡ Err Error.Invalid → IsNumber t.now (num t.now) → ⊥ }
        ensures memory { result ≡ Err Error.Memory → IsNumber t.now (num t.now) }
    {
        if !NumberText::is_text(t) {
            return Err(Error::Invalid);
        }
        NumberText::new_unchecked(alloc, t)
    }

    /// Returns a copy of `t` without a check: the contract demands that `is_text` returns `true` for `t`. Returns
    /// `Memory` if an allocation fails.
    pub fn new_unchecked(alloc: Global, t: &str) -> Result<NumberText>
        requires { IsNumber t.now (num t.now) }
        ensures ok { IfOk result (λ n. n ≡ t.now) }
        ensures memory { OnErr result (IsErrOf result Error.Memory) }
    {
        let text = Box::new(alloc, String::from_str(alloc, t)?)?;
        Ok(NumberText { text })
    }

    /// Returns the text. Allocates nothing.
    pub fn as_str(&self) -> &str
        ensures value { result.now ≡ self.now }
        ensures is_text { IsNumber result.now (num result.now) }
    {
        self.text.as_str()
    }

    /// Returns a copy of the number, or `Memory` if an allocation fails.
    pub fn try_clone(&self, alloc: Global) -> Result<NumberText>
        ensures ok { IfOk result (λ n. n ≡ self.now) }
        ensures memory { OnErr result (IsErrOf result Error.Memory) }
    {
        let text = Box::new(alloc, String::from_str(alloc, self.text.as_str())?)?;
        Ok(NumberText { text })
    }
}
