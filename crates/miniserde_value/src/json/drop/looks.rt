//! The counts of a drop, and the function that drops a leaf or an empty container. Outside of this file only a
//! call of `drop_bare` can raise the count of dropped values.
ghost use Rattle.std.specs.Prelude.{◌≡◌, ℕ, ◌+◌};
ghost use Rattle.std.specs.Borrow.{ftrue};
ghost use Rattle.miniserde_value.specs.Values.{IsBare};

use super::super::value::Value;
use std::marker::{Model, PhantomData};

/// How many looks a drop made, and how many values it dropped. A drop makes one look for the value that it drops, and
/// one for each time that it takes a value out of a container (`counted` in `drop.rt`).
/// The counts take no bytes, since only contracts see them.
#[derive(Drop)]
pub struct Looks {
    marker: PhantomData<u8>,
    // How many looks were counted.
    pub ghost visited: { ℕ },
    // How many values were dropped.
    pub ghost released: { ℕ },
}

impl Model for Looks {
    ghost also_owns = { λ _. ftrue };
}

impl Looks {
    /// Returns counts of 0.
    pub fn new() -> Looks
        ensures { (result.visited ≡ 0) × (result.released ≡ 0) }
    {
        Looks {
            marker: PhantomData,
        }
    }

    // Counts one look. The body is empty, since only contracts see the count.
    pub(crate) fn look(&mut self)
        ensures { (self.new.visited ≡ self.old.visited + 1) × (self.new.released ≡ self.old.released) }
    {}

    // Counts one dropped value.
    fn release(&mut self)
        ensures { (self.new.visited ≡ self.old.visited) × (self.new.released ≡ self.old.released + 1) }
    {}
}

/// Drops a leaf or an empty container, and counts it. No other function of this file drops a value.
#[inline(always)]
pub(crate) fn drop_bare(value: Value, looks: &mut Looks)
    requires { IsBare value }
    ensures visited { looks.new.visited ≡ looks.old.visited }
    ensures released { looks.new.released ≡ looks.old.released + 1 }
{
    looks.release();
    match value {
        Value::Null => {}
        Value::Bool(_) => {}
        Value::Number(_) => {}
        Value::String(_) => {}
        Value::Array(array) => array.into_inner().destroy_empty(),
        Value::Object(object) => object.into_inner().destroy_empty(),
    }
}
