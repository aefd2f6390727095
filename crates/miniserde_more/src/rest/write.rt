//! Writes lent values as members, and behind them the members of a map whose names are none of theirs.
ghost use Rattle.std.specs.Prelude.{◌≡◌, ◌++◌, ◌&&◌, true, OnOk, OnErr, IsErrOf, map, string_bytes};
ghost use Rattle.miniserde_model.specs.Tree.{members};
ghost use Rattle.miniserde_model.specs.InRange.{MembersInRange};
ghost use Rattle.miniserde_read.specs.types.Objects.{Name};
ghost use Rattle.miniserde_model.specs.declared.error.Error.TheVariants.{Memory};
ghost use Rattle.miniserde_ser.specs.Writer.{WritesTree};
ghost use Rattle.miniserde_ser.specs.Trees.{members_of};
ghost use Rattle.miniserde_record.specs.Fields.{count_named};
ghost use Rattle.miniserde_record.specs.InOrder.{KeepsTreesNormal};
ghost use Rattle.miniserde_record.specs.Marks.{is_among};
ghost use Rattle.miniserde_record.specs.Structs.{is_new, with_names, members_text};
ghost use Rattle.miniserde_enum.specs.Cases.{data_tree};
ghost use Rattle.miniserde_enum.specs.Tagging.{external, internal};
ghost use Rattle.miniserde_more.specs.Rest.{kept, members_then, rest_members, rest_tree};

use crate::rest::taken::{TakenNames, is_taken};
use miniserde_model::error::Result;
use miniserde_record::record::{Members, Parts, Record, WrittenFields};
use miniserde_ser::ser::{Fragment, Serialize, Writer};
use std::collections::BTreeMap;

// Appends a member for each entry of a map whose name is neither one of the names nor one of the further names `A`, in the
// order of the map, with a comma before it unless it is the first of its object. Returns `Memory` if the writer fails.
fn write_rest<A: TakenNames, V: Serialize>(
    w: &mut Writer,
    names: &[&str],
    rest: &BTreeMap<String, V>,
) -> Result<()>
    ensures ok { OnOk result (w.new.text ≡ w.old.text ++ members_text w.old.first
        (members_of string_bytes V.tree (kept string_bytes (A.further ++ map (λ n. n.now) names.now) rest.now.entries))) }
    ensures all_in_range { OnOk result (MembersInRange
        (members_of string_bytes V.tree (kept string_bytes (A.further ++ map (λ n. n.now) names.now) rest.now.entries))) }
    ensures normal { OnOk result (KeepsTreesNormal w.old
        (members_of string_bytes V.tree (kept string_bytes (A.further ++ map (λ n. n.now) names.now) rest.now.entries)) w.new) }
    ensures unrefused { OnOk result (w.new.refused ≡ w.old.refused) }
    ensures memory { OnErr result (IsErrOf result Memory) }
    ensures err { OnErr result (w.new.refused ≡ true) }
{
    for (name, value) in rest {
        if !is_taken::<A>(names, name.as_str()) {
            w.key(name.as_str())?;
            value.begin(w)?;
        }
    }
    Ok(())
}

/// Appends a member for each of the values, as `Members::write` does, and behind them one for each entry of a map whose
/// name is neither one of `names` nor one of the further names `A`, in the order of the map. A comma stands before each
/// member that is not the first of its object. Returns `Memory` if the writer fails.
#[inline(always)]
pub fn write_inside_and_rest<A: TakenNames, M: Members, V: Serialize>(
    w: &mut Writer,
    names: &[&str],
    values: &M,
    rest: &BTreeMap<String, V>,
) -> Result<()>
    ensures ok { OnOk result (w.new.text ≡ w.old.text ++ members_text w.old.first
        (members_then (with_names (map (λ n. n.now) names.now) (M.trees values.now))
        (members_of string_bytes V.tree (kept string_bytes (A.further ++ map (λ n. n.now) names.now) rest.now.entries)))) }
    ensures all_in_range { OnOk result (MembersInRange
        (members_then (with_names (map (λ n. n.now) names.now) (M.trees values.now))
        (members_of string_bytes V.tree (kept string_bytes (A.further ++ map (λ n. n.now) names.now) rest.now.entries)))) }
    ensures normal { OnOk result (KeepsTreesNormal w.old
        (members_then (with_names (map (λ n. n.now) names.now) (M.trees values.now))
        (members_of string_bytes V.tree (kept string_bytes (A.further ++ map (λ n. n.now) names.now) rest.now.entries))) w.new) }
    ensures unrefused { OnOk result (w.new.refused ≡ w.old.refused) }
    ensures memory { OnErr result (IsErrOf result Memory) }
    ensures err { OnErr result (w.new.refused ≡ true) }
{
    values.write(w, names)?;
    write_rest::<A, V>(w, names, rest)?;
    Ok(())
}

/// Writes an object that has a member for each of the values, as `write_members` does, and behind them one for each
/// entry of a map whose name is neither one of `names` nor one of the further names `A`, in the order of the map. Returns `Memory` if the writer fails.
pub fn write_members_and_rest<A: TakenNames, M: Members, V: Serialize>(
    w: &mut Writer,
    names: &[&str],
    values: &M,
    rest: &BTreeMap<String, V>,
) -> Result<()>
    ensures { WritesTree w.old (members (members_then (with_names (map (λ n. n.now) names.now) (M.trees values.now))
        (members_of string_bytes V.tree (kept string_bytes (A.further ++ map (λ n. n.now) names.now) rest.now.entries)))) result w.new }
{
    w.map()?;
    write_inside_and_rest::<A, M, V>(w, names, values, rest)?;
    w.map_finish()?;
    Ok(())
}

/// Writes the variant `name` with named fields of an externally tagged enum: an object of one member, which has the
/// variant's name and the object that `write_members_and_rest` writes. Returns `Memory` if the writer fails.
#[inline(always)]
pub fn write_fields_and_rest<A: TakenNames, M: Members, V: Serialize>(
    w: &mut Writer,
    name: &str,
    names: &[&str],
    values: &M,
    rest: &BTreeMap<String, V>,
) -> Result<()>
    ensures { WritesTree w.old (data_tree external
        (rest_tree string_bytes (map (λ n. n.now) names.now) A.further V.tree (λ m. m.entries) M.trees (λ v. v)) name.now
        (rest.now, values.now)) result w.new }
{
    w.map_in_order()?;
    w.key_inline(name)?;
    write_members_and_rest::<A, M, V>(w, names, values, rest)?;
    w.map_finish()
}

/// Writes the variant `name` with named fields of an internally tagged enum: an object of the member `tag`, whose value is
/// the variant's name, and the members that `write_members_and_rest` writes. It does not check that none of them has the
/// name `tag`. Returns `Memory` if the writer fails.
#[inline(always)]
pub fn write_tagged_fields_and_rest<A: TakenNames, M: Members, V: Serialize>(
    w: &mut Writer,
    tag: &str,
    name: &str,
    names: &[&str],
    values: &M,
    rest: &BTreeMap<String, V>,
) -> Result<()>
    ensures { WritesTree w.old (data_tree (internal tag.now)
        (rest_tree string_bytes (map (λ n. n.now) names.now) A.further V.tree (λ m. m.entries) M.trees (λ v. v)) name.now
        (rest.now, values.now)) result w.new }
{
    w.map()?;
    w.key_inline(tag)?;
    w.fragment(Fragment::Str(name))?;
    write_inside_and_rest::<A, M, V>(w, names, values, rest)?;
    w.map_finish()
}

/// Does nothing. It promises that no written member of a struct with a rest has one of the further names, unless it is a
/// field's.
pub fn rest_named<
    S: Record<Values = Parts<BTreeMap<String, V>, F::Values>>,
    F: WrittenFields,
    V: Serialize,
    A: TakenNames,
>()
    ensures { (k : Name) (v : S) → (is_among A.further k && is_new k S.names) ≡ true
        → count_named k (rest_members string_bytes S.names A.further V.tree (λ m. m.entries) F.trees S.values v) ≡ 0 }
{}
