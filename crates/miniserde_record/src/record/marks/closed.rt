//! The end of the fields of a struct for which a member of an unknown name is an error.
ghost use Rattle.std.specs.Prelude.{true, [], ⊤};
ghost use Rattle.miniserde_record.specs.FieldsMeaning.{closed_end};

use crate::record::slots::{Layout, Slots};
use crate::record::written::WrittenFields;
use miniserde_model::error::{Error, Result};
use miniserde_read::Source;
use std::alloc::Global;

/// The end of the chain of fields of a struct that is marked `closed`. A member whose name no field
/// has fails with `Invalid` before its value is read.
#[derive(Drop)]
pub struct Closed {}

impl Slots for Closed {
    type Values = ();

    ghost meaning = { closed_end };

    ghost state = { λ _. tt };

    ghost end_infallible = { true };

    fn new() -> Closed {
        Closed {}
    }

    fn read_member<'a, L: Layout>(
        &mut self,
        _names: &[&str],
        _name: &str,
        _source: &mut Source<'a>,
    ) -> Result<()> {
        Err(Error::Invalid)
    }

    fn end(self, _alloc: Global) -> Result<()> {
        Ok(())
    }
}

impl WrittenFields for Closed {
    type Values = ();

    ghost valid = { λ _. ⊤ };

    ghost trees = { λ _. [] };
}
