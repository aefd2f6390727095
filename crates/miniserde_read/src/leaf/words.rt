//! Reads `()`, `bool` and `String` from single tokens.
ghost use Rattle.std.specs.Prelude.{◌≡◌, true, refl, string_bytes};
ghost use Rattle.miniserde_read.specs.Events.{IsStringEvent};
ghost use Rattle.miniserde_read.specs.Meanings.{unit_meaning, boolean_meaning, string_meaning};

use super::Leaf;
use crate::step::Step;
use miniserde_model::error::{Error, Result};
use std::alloc::Global;

impl Leaf for () {
    ghost means = { unit_meaning };

    ghost only_leaves = { (λ ts. refl, λ ms. refl) };

    ghost read_infallible = { true };

    #[inline(always)]
    fn from_step(_alloc: Global, event: Step<'_>) -> Result<()> {
        match event {
            Step::Null => Ok(()),
            _ => Err(Error::Invalid),
        }
    }
}

impl Leaf for bool {
    ghost means = { boolean_meaning };

    ghost only_leaves = { (λ ts. refl, λ ms. refl) };

    ghost read_infallible = { true };

    #[inline(always)]
    fn from_step(_alloc: Global, event: Step<'_>) -> Result<bool> {
        match event {
            Step::Bool(b) => Ok(b),
            _ => Err(Error::Invalid),
        }
    }
}

impl Leaf for String {
    ghost means = { string_meaning string_bytes };

    ghost only_leaves = { (λ ts. refl, λ ms. refl) };

    ghost lacking = { IsStringEvent };

    #[inline(always)]
    fn from_step(alloc: Global, event: Step<'_>) -> Result<String> {
        match event {
            Step::Str(text) => Ok(String::from_str(alloc, text)?),
            _ => Err(Error::Invalid),
        }
    }
}
