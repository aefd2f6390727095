//! Writes `HashMap`, with the members in byte order of their names.
ghost use Rattle.std.specs.Prelude.{◌≡◌, ◌++◌, false, true, OnOk, OnErr, IfOk, IsErrOf, map, string_bytes};
ghost use Rattle.std.specs.Prelude.{IsPermutation, IsSortedByKey};
ghost use Rattle.std.specs.List.{IsDistinct};
ghost use Rattle.std.specs.Str.{bytes_eq};
ghost use Rattle.miniserde_model.specs.Tree.{members};
ghost use Rattle.miniserde_model.specs.Compact.{compact};
ghost use Rattle.miniserde_model.specs.InRange.{InRange};
ghost use Rattle.miniserde_model.specs.Normal.{text_cmp, Rise};
ghost use Rattle.miniserde_model.specs.declared.error.Error.TheVariants.{Memory};
ghost use Rattle.miniserde_ser.specs.Trees.{members_of, in_order};
ghost use Rattle.miniserde_ser.specs.Writer.{KeepsNormal};

use crate::ser::{Serialize, Writer};
use miniserde_keys::MapKey;
use miniserde_model::error::Result;
use std::alloc::{AllocError, Global};
use std::collections::HashMap;
use std::hash::{BuildHasher, Hash};
use std::result;

// Returns the text of a key, or `Memory` if it fails to allocate. The contract also promises that
// the key is valid.
fn name_of<K: MapKey>(alloc: Global, key: &K) -> Result<String>
    ensures text { IfOk result (λ name. string_bytes name ≡ K.text key.now) }
    ensures valid { K.valid key.now }
    ensures memory { OnErr result (IsErrOf result Memory) }
{
    key.ranged();
    let mut name = String::new(alloc);
    key.to_key(&mut name)?;
    Ok(name)
}

// Returns each entry of the map, with its key's text as its name, in the order of the map's
// iterator. The names are distinct. Returns `Memory` if an allocation fails.
fn entries_of<'a, K: MapKey + Hash, V: Serialize, H: BuildHasher>(
    alloc: Global,
    table: &'a HashMap<K, V, H>,
) -> Result<Vec<(String, &'a V)>>
    ensures ok { IfOk result (λ entries. members_of string_bytes (λ v. V.tree v.now) entries.items
        ≡ members_of K.text V.tree table.entry.now.entries) }
    ensures distinct { IfOk result (λ entries. IsDistinct bytes_eq (map (λ r. string_bytes r.0) entries.items)) }
    ensures memory { OnErr result (IsErrOf result Memory) }
{
    let mut entries: Vec<(String, &'a V)> = Vec::new(alloc);
    for (key, value) in table {
        let name = name_of(alloc, key)?;
        entries.push((name, value))?;
    }
    Ok(entries)
}

// Sorts the entries by the bytes of their names. Returns `AllocError` if the sort fails to
// allocate.
fn sort_entries<V>(entries: &mut Vec<(String, &V)>) -> result::Result<(), AllocError>
    ensures sorted { OnOk result (IsSortedByKey (λ r. string_bytes r.0) text_cmp entries.new.items) }
    ensures permutation { IsPermutation entries.old.items entries.new.items }
{
    Ok(entries.sort_by(|a, b| a.0.cmp(&b.0))?)
}

// Writes an object whose members are the entries, in their order, which is that of their names. Returns `Memory` if an allocation
// fails or an earlier call of the writer failed.
fn write_entries<V: Serialize>(entries: &[(String, &V)], w: &mut Writer) -> Result<()>
    ensures ok { OnOk result (w.new.text ≡ w.old.text
        ++ compact (members (members_of string_bytes (λ v. V.tree v.now) entries.entry.now))) }
    ensures in_range { OnOk result (InRange (members (members_of string_bytes (λ v. V.tree v.now) entries.entry.now))) }
    ensures normal { OnOk result (Rise (members_of string_bytes (λ v. V.tree v.now) entries.entry.now)
        → KeepsNormal w.old (members (members_of string_bytes (λ v. V.tree v.now) entries.entry.now)) w.new) }
    ensures first { OnOk result (w.new.first ≡ false) }
    ensures unrefused { OnOk result (w.new.refused ≡ false) }
    ensures was_running { OnOk result (w.old.refused ≡ false) }
    ensures memory { OnErr result (IsErrOf result Memory) }
    ensures err { OnErr result (w.new.refused ≡ true) }
{
    w.map_in_order()?;
    for entry in entries {
        w.key(entry.0.as_str())?;
        entry.1.begin(w)?;
    }
    w.map_finish()
}

impl<K: MapKey + Hash, V: Serialize, H: BuildHasher> Serialize for HashMap<K, V, H> {
    ghost tree = { λ m. members (in_order (members_of K.text V.tree m.entries)) };

    fn begin(&self, w: &mut Writer) -> Result<()> {
        let Ok(mut entries) = entries_of(w.alloc(), self) else {
            return Err(w.refuse());
        };
        if sort_entries(&mut entries).is_err() {
            return Err(w.refuse());
        }
        write_entries(entries.as_slice(), w)
    }
}
