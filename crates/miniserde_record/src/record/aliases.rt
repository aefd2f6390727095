//! Reads structs whose fields have aliases.
ghost use Rattle.std.specs.Prelude.{◌≡◌, true, List, map};
ghost use Rattle.miniserde_read.specs.types.Objects.{Name};
ghost use Rattle.miniserde_record.specs.Aliases.{field_name_of, are_unaliased};
ghost use Rattle.miniserde_record.specs.FieldsMeaning.{with_aliases};

use super::slots::{Layout, Slots};
use super::structs::Record;
use miniserde_model::error::Result;
use miniserde_read::Source;
use std::alloc::Global;
use std::marker::PhantomData;

/// A struct whose fields have aliases.
pub trait HasAliases: Record {
    // Each alias, with the name of its field.
    ghost aliases: { List (Name × Name) };

    /// Returns each alias, with the name of its field.
    fn aliases() -> &'static [(&'static str, &'static str)]
        ensures { map (λ p. (p.0.now, p.1.now)) result.now ≡ aliases };

    // By the first entry of each alias, no name of a field is an alias of another field.
    ghost apart: { are_unaliased aliases Self.names ≡ true };
}

// Returns the name of the field that has the alias `name`, or `name` itself if it is no alias.
// `aliases` lists each alias with the name of its field.
fn field_name<'a>(aliases: &[(&'static str, &'static str)], name: &'a str) -> &'a str
    ensures { result.now ≡ field_name_of (map (λ p. (p.0.now, p.1.now)) aliases.now) name.now }
{
    for (alias, field) in aliases {
        if name == *alias {
            return field;
        }
    }
    name
}

/// The fields `F` of the struct `S`, which are read by their aliases too: a member whose name is an alias counts as
/// one with the name of the field.
#[derive(Drop)]
pub struct Aliased<S, F> {
    fields: F,
    of: PhantomData<S>,
}

impl<S: HasAliases, F: Slots> Slots for Aliased<S, F> {
    type Values = F::Values;

    ghost meaning = { with_aliases S.aliases F.meaning };

    ghost state = { λ f. F.state f.fields };

    ghost end_infallible = { F.end_infallible };

    fn new() -> Aliased<S, F> {
        Aliased {
            fields: F::new(),
            of: PhantomData,
        }
    }

    #[inline(always)]
    fn read_member<'a, L: Layout>(
        &mut self,
        names: &[&str],
        name: &str,
        source: &mut Source<'a>,
    ) -> Result<()> {
        self.fields
            .read_member::<L>(names, field_name(S::aliases(), name), source)
    }

    fn end(self, alloc: Global) -> Result<F::Values> {
        let Aliased { fields, of: _ } = self;
        fields.end(alloc)
    }
}
