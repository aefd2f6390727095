//! The type `Unique`, a JSON value that is read only from a text without duplicate names.
ghost use Rattle.std.specs.Prelude.{◌≡◌, true};

use super::value::Value;
use miniserde_model::error::Result;
use miniserde_ser::ser::{Serialize, Writer};

/// Any JSON value. A text in which an object has a duplicate name is not read as one. Names are compared after
/// decoding, so `"a"` and `"\u0061"` are duplicates.
#[derive(Drop)]
pub struct Unique {
    value: Value,
}

impl Unique {
    /// Returns the value as a `Unique`. It makes no check: the map of an object has each name once, by its type.
    pub fn new(value: Value) -> Unique
        ensures { result.value ≡ value }
    {
        Unique { value }
    }

    /// Returns the value.
    pub fn inner(&self) -> &Value
        ensures { result.now ≡ self.now.value }
    {
        &self.value
    }

    /// Returns the value. Allocates nothing.
    pub fn into_value(self) -> Value
        ensures { result ≡ self.value }
    {
        let Unique { value } = self;
        value
    }
}

impl Serialize for Unique {
    ghost use Rattle.miniserde_value.specs.Values.{tree_of};

    ghost tree = { λ u. tree_of u.value };

    fn begin(&self, w: &mut Writer) -> Result<()> {
        self.value.begin(w)
    }
}
