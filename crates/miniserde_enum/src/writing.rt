//! Writes enums, externally or internally tagged.
ghost use Rattle.std.specs.Prelude.{map};
ghost use Rattle.miniserde_ser.specs.Writer.{WritesTree};
ghost use Rattle.miniserde_record.specs.Structs.{record_tree};
ghost use Rattle.miniserde_enum.specs.Tagging.{external, internal};
ghost use Rattle.miniserde_enum.specs.Cases.{data_tree};

use crate::inside::Inside;
use miniserde_model::error::Result;
use miniserde_record::record::{Members, write_members};
use miniserde_ser::ser::{Fragment, Serialize, Writer};

/// Writes the variant `name` with the data `value` of an externally tagged enum: an object of one
/// member, which has the variant's name and the data. Returns `Memory` if the writer fails.
#[inline(always)]
pub fn write_data<T: Serialize>(w: &mut Writer, name: &str, value: &T) -> Result<()>
    ensures { WritesTree w.old (data_tree external T.tree name.now value.now) result w.new }
{
    w.map_in_order()?;
    w.key_inline(name)?;
    value.begin(w)?;
    w.map_finish()
}

/// Writes the variant `name` with named fields of an externally tagged enum: an object of one
/// member, which has the variant's name and an object of the fields. That object has a member for
/// each of the values, whose name is the one at the value's index in `names`. Values beyond the last
/// name have no member, and neither has an `Omitted` that is `None`. Returns `Memory` if the writer
/// fails.
#[inline(always)]
pub fn write_fields<M: Members>(
    w: &mut Writer,
    name: &str,
    names: &[&str],
    values: &M,
) -> Result<()>
    ensures { WritesTree w.old (data_tree external (record_tree (map (λ n. n.now) names.now) M.trees (λ v. v)) name.now values.now) result w.new }
{
    w.map_in_order()?;
    w.key_inline(name)?;
    // The object of the members, with its brackets.
    write_members(w, names, values)?;
    w.map_finish()
}

/// Writes the variant `name` with the data `value` of an internally tagged enum: an object of the
/// member `tag`, whose value is the variant's name, and the members of the data. It does not check
/// that no member of the data has the name `tag`. Returns `Memory` if the writer fails.
#[inline(always)]
pub fn write_tagged<T: Inside>(w: &mut Writer, tag: &str, name: &str, value: &T) -> Result<()>
    ensures { WritesTree w.old (data_tree (internal tag.now) T.tree name.now value.now) result w.new }
{
    w.map()?;
    w.key_inline(tag)?;
    w.fragment(Fragment::Str(name))?;
    value.write_inside(w)?;
    w.map_finish()
}

/// Writes the variant `name` with named fields of an internally tagged enum: an object of the
/// member `tag`, whose value is the variant's name, and a member for each of the values, whose name
/// is the one at the value's index in `names`. Values beyond the last name have no member, and
/// neither has an `Omitted` that is `None`. The call does not check that no name in `names` is
/// `tag`. Returns `Memory` if the writer fails.
#[inline(always)]
pub fn write_tagged_fields<M: Members>(
    w: &mut Writer,
    tag: &str,
    name: &str,
    names: &[&str],
    values: &M,
) -> Result<()>
    ensures { WritesTree w.old (data_tree (internal tag.now) (record_tree (map (λ n. n.now) names.now) M.trees (λ v. v)) name.now values.now) result w.new }
{
    w.map()?;
    w.key_inline(tag)?;
    w.fragment(Fragment::Str(name))?;
    values.write(w, names)?;
    w.map_finish()
}
