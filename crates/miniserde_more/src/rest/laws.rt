//! The laws of structs with a rest, from those of their fields and of the rest's values.
ghost use Rattle.std.specs.Prelude.{◌≡◌, ◌++◌, true, length, string_bytes};
ghost use Rattle.miniserde_model.specs.Tree.{Tree};
ghost use Rattle.miniserde_model.specs.Normal.{norm};
ghost use Rattle.miniserde_record.specs.FieldsMeaning.{struct_meaning, with_aliases};
ghost use Rattle.miniserde_laws.specs.RoundTrip.{RoundTrips};
ghost use Rattle.miniserde_stored.specs.Stable.{IsStable};
ghost use Rattle.miniserde_more.specs.Rest.{alias_names, are_of_names, rest_tree, KeepsOthers};
ghost use Rattle.miniserde_more.specs.RestMeaning.{IsOpen, with_rest};

use crate::rest::taken::{AliasesOf, TakenNames};
use miniserde_keys::Ranged;
use miniserde_laws::{Lossless, LosslessFields, RoundTrip, RoundTripFields};
use miniserde_read::FromJson;
use miniserde_record::record::{HasAliases, Parts, Record};
use miniserde_ser::ser::Serialize;
use miniserde_stored::{Stable, StableFields};
use std::collections::BTreeMap;

/// Does nothing. It promises that the tree of a valid struct means a valid struct, and that each valid struct that it
/// means has that tree.
pub fn rest_round_trips<
    S: Record<Values = Parts<BTreeMap<String, V>, F::Values>>,
    F: RoundTripFields,
    V: RoundTrip,
    A: TakenNames,
>()
    requires count { length S.names ≡ F.meaning.count }
    requires open { IsOpen F.meaning }
    ensures { (v : S) → ⟦<BTreeMap<String, V> as Ranged>⟧.valid (S.values v).0 × F.valid (S.values v).1
        → RoundTrips (λ v. ⟦<BTreeMap<String, V> as Ranged>⟧.valid (S.values v).0 × F.valid (S.values v).1)
        (rest_tree string_bytes S.names A.further V.tree (λ m. m.entries) F.trees S.values)
        (struct_meaning (with_rest string_bytes S.names A.further V.means (λ m. m.entries) F.meaning) S.names S.values).reads
        (rest_tree string_bytes S.names A.further V.tree (λ m. m.entries) F.trees S.values v) }
{
    F::round_trips();
    <BTreeMap<String, V> as RoundTrip>::round_trips()
}

/// Does nothing. It promises that two valid structs with the same tree have the same content.
pub fn rest_lossless<
    S: Record<Values = Parts<BTreeMap<String, V>, F::Values>>,
    F: LosslessFields,
    V: Lossless,
    A: TakenNames,
>()
    requires { length S.names ≡ F.meaning.count }
    ensures { (v w : S)
        → ⟦<BTreeMap<String, V> as Ranged>⟧.valid (S.values v).0 × F.valid (S.values v).1
        → ⟦<BTreeMap<String, V> as Ranged>⟧.valid (S.values w).0 × F.valid (S.values w).1
        → rest_tree string_bytes S.names A.further V.tree (λ m. m.entries) F.trees S.values v
        ≡ rest_tree string_bytes S.names A.further V.tree (λ m. m.entries) F.trees S.values w
        → (struct_meaning (with_rest string_bytes S.names A.further V.means (λ m. m.entries) F.meaning) S.names S.values).content v
        ≡ (struct_meaning (with_rest string_bytes S.names A.further V.means (λ m. m.entries) F.meaning) S.names S.values).content w }
{
    F::lossless();
    <BTreeMap<String, V> as Lossless>::lossless()
}

/// Does nothing. It promises that a struct that is read from an object is written with the object's other members,
/// whatever becomes of the fields: at each name that is neither a field's nor one of the further names, the written object
/// has the normal form of the last tree that the object has there, if there is one.
pub fn rest_is_kept<
    S: Record<Values = Parts<BTreeMap<String, V>, F::Values>>,
    F: RoundTripFields,
    V: RoundTrip,
    A: TakenNames,
>()
    // Each value is written as the normal form of its tree, as a `Value` and a `Document` are.
    requires { (t : Tree) (x : V) → V.means.reads t x → V.tree x ≡ norm t }
    ensures { (t : Tree) (v w : S)
        → (struct_meaning (with_rest string_bytes S.names A.further V.means (λ m. m.entries) F.meaning) S.names S.values).reads t v
        → ⟦<BTreeMap<String, V> as Ranged>⟧.valid (S.values v).0
        → (S.values w).0 ≡ (S.values v).0
        → KeepsOthers (A.further ++ S.names) t (rest_tree string_bytes S.names A.further V.tree (λ m. m.entries) F.trees S.values w) }
{
    F::round_trips()
}

/// Does nothing. It promises that if a tree means a struct, its normal form means a struct of the same content.
pub fn rest_stable<
    S: Record<Values = Parts<BTreeMap<String, V>, F::Values>>,
    F: StableFields,
    V: Stable,
    A: TakenNames,
>()
    ensures { IsStable
        (struct_meaning (with_rest string_bytes S.names A.further V.means (λ m. m.entries) F.meaning) S.names S.values).from_tree }
{
    F::stable();
    <BTreeMap<String, V> as Stable>::stable()
}

/// Does nothing. It promises of structs whose fields have aliases what `rest_round_trips` does: the tree of a valid struct
/// means a valid struct, and each valid struct that it means has that tree.
pub fn aliased_rest_round_trips<
    S: HasAliases<Values = Parts<BTreeMap<String, V>, F::Values>>,
    F: RoundTripFields,
    V: RoundTrip,
    A: TakenNames,
>()
    requires count { length S.names ≡ F.meaning.count }
    requires open { IsOpen F.meaning }
    ensures { (v : S) → ⟦<BTreeMap<String, V> as Ranged>⟧.valid (S.values v).0 × F.valid (S.values v).1
        → RoundTrips (λ v. ⟦<BTreeMap<String, V> as Ranged>⟧.valid (S.values v).0 × F.valid (S.values v).1)
        (rest_tree string_bytes S.names (alias_names S.aliases ++ A.further) V.tree (λ m. m.entries) F.trees S.values)
        (struct_meaning (with_aliases S.aliases
        (with_rest string_bytes S.names (alias_names S.aliases ++ A.further) V.means (λ m. m.entries) F.meaning)) S.names S.values).reads
        (rest_tree string_bytes S.names (alias_names S.aliases ++ A.further) V.tree (λ m. m.entries) F.trees S.values v) }
{
    rest_round_trips::<S, F, V, AliasesOf<S, A>>()
}

/// Does nothing. It promises of structs whose fields have aliases what `rest_is_kept` does: at each name that is neither a
/// field's nor an alias nor one of the further names, the written object has the normal form of the last tree that the object has there, if there is
/// one.
pub fn aliased_rest_is_kept<
    S: HasAliases<Values = Parts<BTreeMap<String, V>, F::Values>>,
    F: RoundTripFields,
    V: RoundTrip,
    A: TakenNames,
>()
    // Each alias is one of a field of the struct.
    requires of_names { are_of_names S.aliases S.names ≡ true }
    // Each value is written as the normal form of its tree, as a `Value` and a `Document` are.
    requires normal { (t : Tree) (x : V) → V.means.reads t x → V.tree x ≡ norm t }
    ensures { (t : Tree) (v w : S)
        → (struct_meaning (with_aliases S.aliases
        (with_rest string_bytes S.names (alias_names S.aliases ++ A.further) V.means (λ m. m.entries) F.meaning)) S.names S.values).reads t v
        → ⟦<BTreeMap<String, V> as Ranged>⟧.valid (S.values v).0
        → (S.values w).0 ≡ (S.values v).0
        → KeepsOthers ((alias_names S.aliases ++ A.further) ++ S.names) t
        (rest_tree string_bytes S.names (alias_names S.aliases ++ A.further) V.tree (λ m. m.entries) F.trees S.values w) }
{
    F::round_trips()
}
