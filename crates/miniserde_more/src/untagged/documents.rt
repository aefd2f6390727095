//! The kinds of the documents that have one kind.
ghost use Rattle.std.specs.Prelude.{refl};
ghost use Rattle.miniserde_more.specs.laws.Kinds.{by_tree};

use crate::untagged::kinds::{ArrayKind, HasKinds, NumberKind, ObjectKind};
use miniserde_value::json::array::Array;
use miniserde_value::json::number::Number;
use miniserde_value::json::object::Object;

impl HasKinds for Number {
    type Kinds = NumberKind;

    ghost only = { by_tree _ _ refl (λ _. refl) (λ _. tt) (λ _. tt) (λ _. tt) (λ _. refl) (λ _. refl) (λ _. refl) };
}

impl HasKinds for Array {
    type Kinds = ArrayKind;

    ghost only = { by_tree _ _ refl (λ _. refl) (λ _. refl) (λ _. refl) (λ _. refl) (λ _. refl) (λ _. tt) (λ _. refl) };
}

impl HasKinds for Object {
    type Kinds = ObjectKind;

    ghost only = { by_tree _ _ refl (λ _. refl) (λ _. refl) (λ _. refl) (λ _. refl) (λ _. refl) (λ _. refl) (λ _. tt) };
}
