//! `Stable` for `Document`, and the promise that `Number` and `Value` are not stable.
ghost use Rattle.miniserde_stored.specs.Stable.{IsStable};

use crate::stable::Stable;
use miniserde_read::FromJson;
use miniserde_value::json::document::Document;
use miniserde_value::json::number::Number;
use miniserde_value::json::value::Value;

impl Stable for Document {
    fn stable() {}
}

/// Does nothing. It promises that neither `Number` nor `Value` is stable. The reason is `-0`, whose sign both of them
/// keep.
pub fn negated_zero_is_not_stable()
    ensures number { IsStable ⟦<Number as FromJson>⟧.means.from_tree → ⊥ }
    ensures value { IsStable ⟦<Value as FromJson>⟧.means.from_tree → ⊥ }
{}
