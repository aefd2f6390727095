//! Rows of values of your own types: the key and the body of a row are the canonical texts of two values.
//! If no fault of the disk is known after a call (`HasCleanDisk`), none was known before it (`clean`).
ghost use Rattle.std.specs.Prelude.{◌≡◌, ◌⊎◌, ◌↔◌, ◌∷◌, [], ℕ, List, false, IfOk, IfSome, OnOk, OnErr, Ok, Err, None, IsTrue};
ghost use Rattle.std.specs.List.{AllZip};
ghost use Rattle.miniserde.specs.declared.Error.TheVariants as json;
ghost use Rattle.miniserde.specs.Value.{IsJson};
ghost use Rattle.miniserde.specs.Normal.{norm};
ghost use Rattle.sqlite.specs.Held.{state};
ghost use Rattle.sqlite.specs.State.{HasCleanDisk, IsUnchanged, FailsToQuery};
ghost use Rattle.sqlite.specs.declared.error.Error.TheVariants.{QueryReturnedNoRows};
ghost use Rattle.sqlite.specs.declared.types.Value.TheVariants.{Text};
ghost use Rattle.rows.specs.Entries.{get_text, entry_schema, IsStore, IsPut, IsRemoved, Holds, HasKey, AreEntries};
ghost use Rattle.rows.specs.Entries.{IsCommitted, IsUndone, IsServing, StaysInside, Keeps, Aborts};
ghost use Rattle.rows.specs.declared.error.Error.TheVariants.{Database, Invalid, Memory};
ghost use Rattle.rows.specs.Values.{canonical_text, IsReadFrom};

use crate::error::Error;
use crate::texts;
use miniserde::json::{canonical_of, from_str};
use miniserde::laws::norm_is_normal;
use miniserde::{
    Lossless, Serialize, Stable, canonical_text_determines_content, means_in_normal_form,
};
use sqlite::{Alter, Connection};
use std::alloc::Global;

/// Puts a value under a key. It replaces the value of the same key. Returns `Database` if the database fails, and `Memory`
/// if an allocation fails.
pub fn put<S: Alter, K: Serialize, V: Serialize>(
    alloc: Global,
    conn: &mut Connection<S>,
    key: &K,
    value: &V,
) -> Result<(), Error>
    // The canonical text of the key has that of the value as its body, and no other. Other keys keep their bodies.
    ensures put { HasCleanDisk (state S.Store conn.new) → IsStore (state S.Store conn.old).now
        → OnOk result (IsPut (state S.Store conn.old).now (state S.Store conn.new).now
        (canonical_text (K.tree key.now)) (canonical_text (V.tree value.now))) }

    // Outside of a transaction that is committed.
    ensures committed { HasCleanDisk (state S.Store conn.new) → IsStore (state S.Store conn.old).now
        → (state S.Store conn.old).in_transaction ≡ false → OnOk result (IsCommitted (state S.Store conn.new)) }

    // If it fails outside of a transaction, the rows are as they were, unless the connection is shut.
    ensures undone { HasCleanDisk (state S.Store conn.new) → IsCommitted (state S.Store conn.old)
        → OnErr result (IsUndone (state S.Store conn.old) (state S.Store conn.new)) }

    // Inside of a transaction nothing is committed, and the transaction goes on.
    ensures inside { HasCleanDisk (state S.Store conn.new) → (state S.Store conn.old).now.schema ≡ entry_schema
        → IsTrue (state S.Store conn.old).in_transaction
        → OnOk result (StaysInside (state S.Store conn.old) (state S.Store conn.new)) }

    // If it fails on an open connection, that is as it was, or its transaction is rolled back, or it is shut.
    ensures aborts { HasCleanDisk (state S.Store conn.new) → IsTrue (state S.Store conn.old).is_open
        → OnErr result (Aborts (state S.Store conn.old) (state S.Store conn.new)) }

    // A connection that serves a store goes on. If it succeeds, the connection was open and is.
    ensures serving { HasCleanDisk (state S.Store conn.new) → IsServing (state S.Store conn.old)
        → IsServing (state S.Store conn.new) }
    ensures live { HasCleanDisk (state S.Store conn.new) → IsServing (state S.Store conn.old)
        → OnOk result (IsTrue (state S.Store conn.old).is_open × IsTrue (state S.Store conn.new).is_open) }

    // If it fails outside of a transaction, the rows are as they were, unless the connection is shut.
    ensures kept { HasCleanDisk (state S.Store conn.new) → IsServing (state S.Store conn.old)
        → OnErr result (Keeps (state S.Store conn.old) (state S.Store conn.new)) }

    // No error is `Invalid`.
    ensures valid { result ≡ Err Invalid → ⊥ }

    // The two texts spell the normal forms of the two trees.
    ensures spells { OnOk result (IsJson (canonical_text (K.tree key.now)) (norm (K.tree key.now))
        × IsJson (canonical_text (V.tree value.now)) (norm (V.tree value.now))) }
    ensures clean { HasCleanDisk (state S.Store conn.new) → HasCleanDisk (state S.Store conn.old) }
{
    let key = canonical_of(alloc, key)?;
    let body = canonical_of(alloc, value)?;
    texts::put(conn, key.as_str(), body.as_str())?;
    Ok(())
}

/// Removes the row of a key, and returns whether there was one. Returns `Database` if the database fails, and `Memory` if an
/// allocation fails.
pub fn remove<S: Alter, K: Serialize>(
    alloc: Global,
    conn: &mut Connection<S>,
    key: &K,
) -> Result<bool, Error>
    // It returns true exactly if a row had the canonical text of the key.
    ensures found { HasCleanDisk (state S.Store conn.new) → IsStore (state S.Store conn.old).now
        → IfOk result (λ found. IsTrue found ↔ HasKey (state S.Store conn.old).now (canonical_text (K.tree key.now))) }

    // No row has it. Other keys keep their bodies.
    ensures removed { HasCleanDisk (state S.Store conn.new) → IsStore (state S.Store conn.old).now
        → OnOk result (IsRemoved (state S.Store conn.old).now (state S.Store conn.new).now (canonical_text (K.tree key.now))) }

    // Outside of a transaction that is committed.
    ensures committed { HasCleanDisk (state S.Store conn.new) → IsStore (state S.Store conn.old).now
        → (state S.Store conn.old).in_transaction ≡ false → OnOk result (IsCommitted (state S.Store conn.new)) }

    // If it fails outside of a transaction, the rows are as they were, unless the connection is shut.
    ensures undone { HasCleanDisk (state S.Store conn.new) → IsCommitted (state S.Store conn.old)
        → OnErr result (IsUndone (state S.Store conn.old) (state S.Store conn.new)) }

    // Inside of a transaction nothing is committed, and the transaction goes on.
    ensures inside { HasCleanDisk (state S.Store conn.new) → (state S.Store conn.old).now.schema ≡ entry_schema
        → IsTrue (state S.Store conn.old).in_transaction
        → OnOk result (StaysInside (state S.Store conn.old) (state S.Store conn.new)) }

    // If it fails on an open connection, that is as it was, or its transaction is rolled back, or it is shut.
    ensures aborts { HasCleanDisk (state S.Store conn.new) → IsTrue (state S.Store conn.old).is_open
        → OnErr result (Aborts (state S.Store conn.old) (state S.Store conn.new)) }

    // A connection that serves a store goes on. If it succeeds, the connection was open and is.
    ensures serving { HasCleanDisk (state S.Store conn.new) → IsServing (state S.Store conn.old)
        → IsServing (state S.Store conn.new) }
    ensures live { HasCleanDisk (state S.Store conn.new) → IsServing (state S.Store conn.old)
        → OnOk result (IsTrue (state S.Store conn.old).is_open × IsTrue (state S.Store conn.new).is_open) }

    // If it fails outside of a transaction, the rows are as they were, unless the connection is shut.
    ensures kept { HasCleanDisk (state S.Store conn.new) → IsServing (state S.Store conn.old)
        → OnErr result (Keeps (state S.Store conn.old) (state S.Store conn.new)) }

    // No error is `Invalid`.
    ensures valid { result ≡ Err Invalid → ⊥ }
    ensures clean { HasCleanDisk (state S.Store conn.new) → HasCleanDisk (state S.Store conn.old) }
{
    let key = canonical_of(alloc, key)?;
    let found = texts::remove(conn, key.as_str())?;
    Ok(found)
}

/// Returns the value that a stored text means. Returns `Invalid` if it means none, and `Memory` if an allocation fails.
pub fn value_of<V: Stable + Lossless>(alloc: Global, text: &str) -> miniserde::Result<V>
    // If the text is the canonical text of a value, the answer has the content of that value.
    ensures read { IfOk result (IsReadFrom V.means V.tree V.valid text.now) }

    // The text is the canonical text of no value.
    ensures invalid { result ≡ Err json.Invalid → (v : V) → V.valid v → IsJson text.now (norm (V.tree v)) → ⊥ }
{
    V::round_trips();
    means_in_normal_form::<V>();
    norm_is_normal();
    canonical_text_determines_content::<V>();
    let value: V = from_str(alloc, text)?;
    Ok(value)
}

/// Returns the value of a key, or `None` if no row has the key. Returns `Database` if the database fails, `Invalid` if the
/// body does not match the type, and `Memory` if an allocation fails.
pub fn get<S: Alter, K: Serialize, V: Stable + Lossless>(
    alloc: Global,
    conn: &mut Connection<S>,
    key: &K,
) -> Result<Option<V>, Error>
    // The canonical text of the key has a body, and the answer is read from it.
    ensures some { HasCleanDisk (state S.Store conn.new) → (state S.Store conn.old).now.schema ≡ entry_schema
        → IfOk result (λ answer. IfSome answer (λ read. (body : List ℕ)
        × Holds (state S.Store conn.old).now (canonical_text (K.tree key.now)) body
        × IsReadFrom V.means V.tree V.valid body read)) }
    ensures none { HasCleanDisk (state S.Store conn.new) → (state S.Store conn.old).now.schema ≡ entry_schema
        → result ≡ Ok None → HasKey (state S.Store conn.old).now (canonical_text (K.tree key.now)) → ⊥ }

    // The key has a body that is the canonical text of no value.
    ensures invalid { HasCleanDisk (state S.Store conn.new) → (state S.Store conn.old).now.schema ≡ entry_schema
        → result ≡ Err Invalid → (body : List ℕ)
        × Holds (state S.Store conn.old).now (canonical_text (K.tree key.now)) body
        × ((v : V) → V.valid v → IsJson body (norm (V.tree v)) → ⊥) }

    // If it succeeds, the database is as it was.
    ensures same { HasCleanDisk (state S.Store conn.new) → (state S.Store conn.old).now.schema ≡ entry_schema
        → OnOk result (IsUnchanged (state S.Store conn.old) (state S.Store conn.new)) }

    // If a text does not match the type, or an allocation fails outside of the database, the database is as it was too.
    ensures unread { HasCleanDisk (state S.Store conn.new) → (state S.Store conn.old).now.schema ≡ entry_schema
        → IsTrue (state S.Store conn.old).is_open → result ≡ Err Invalid
        → IsUnchanged (state S.Store conn.old) (state S.Store conn.new) }
    ensures lacking { HasCleanDisk (state S.Store conn.new) → (state S.Store conn.old).now.schema ≡ entry_schema
        → IsTrue (state S.Store conn.old).is_open → result ≡ Err Memory
        → IsUnchanged (state S.Store conn.old) (state S.Store conn.new) }

    // If the database fails, a row has the key, or the database fails to query.
    ensures cause { HasCleanDisk (state S.Store conn.new) → (state S.Store conn.old).now.schema ≡ entry_schema
        → (error : _) → result ≡ Err (Database error) → HasKey (state S.Store conn.old).now (canonical_text (K.tree key.now))
        ⊎ FailsToQuery get_text (Text (canonical_text (K.tree key.now)) ∷ []) (state S.Store conn.old) (state S.Store conn.new) error }

    // A missing key is no error.
    ensures missing { result ≡ Err (Database QueryReturnedNoRows) → ⊥ }

    // A connection that serves a store goes on, and one that was shut runs no query.
    ensures serving { HasCleanDisk (state S.Store conn.new) → IsServing (state S.Store conn.old)
        → IsServing (state S.Store conn.new) }
    ensures live { HasCleanDisk (state S.Store conn.new) → IsServing (state S.Store conn.old)
        → OnOk result (IsTrue (state S.Store conn.old).is_open) }

    // Outside of a transaction the rows are as they were, whatever it returns, unless the connection is shut.
    ensures kept { HasCleanDisk (state S.Store conn.new) → IsServing (state S.Store conn.old)
        → Keeps (state S.Store conn.old) (state S.Store conn.new) }
    ensures clean { HasCleanDisk (state S.Store conn.new) → HasCleanDisk (state S.Store conn.old) }
{
    let key = canonical_of(alloc, key)?;
    match texts::get(conn, key.as_str())? {
        Some(body) => {
            let value: V = value_of(alloc, body.as_str())?;
            Ok(Some(value))
        }
        None => Ok(None),
    }
}

/// Returns whether a row has the key, and reads no body. Returns `Database` if the database fails, and `Memory` if an
/// allocation fails.
pub fn has<S: Alter, K: Serialize>(
    alloc: Global,
    conn: &mut Connection<S>,
    key: &K,
) -> Result<bool, Error>
    // It returns true exactly if a row has the canonical text of the key.
    ensures found { HasCleanDisk (state S.Store conn.new) → (state S.Store conn.old).now.schema ≡ entry_schema
        → IfOk result (λ found. IsTrue found ↔ HasKey (state S.Store conn.old).now (canonical_text (K.tree key.now))) }
    ensures missing { result ≡ Err (Database QueryReturnedNoRows) → ⊥ }

    // If it succeeds, the database is as it was.
    ensures same { HasCleanDisk (state S.Store conn.new) → (state S.Store conn.old).now.schema ≡ entry_schema
        → OnOk result (IsUnchanged (state S.Store conn.old) (state S.Store conn.new)) }

    // A connection that serves a store goes on, and one that was shut runs no query.
    ensures serving { HasCleanDisk (state S.Store conn.new) → IsServing (state S.Store conn.old)
        → IsServing (state S.Store conn.new) }
    ensures live { HasCleanDisk (state S.Store conn.new) → IsServing (state S.Store conn.old)
        → OnOk result (IsTrue (state S.Store conn.old).is_open) }

    // Outside of a transaction the rows are as they were, whatever it returns, unless the connection is shut.
    ensures kept { HasCleanDisk (state S.Store conn.new) → IsServing (state S.Store conn.old)
        → Keeps (state S.Store conn.old) (state S.Store conn.new) }

    // No error is `Invalid`.
    ensures valid { result ≡ Err Invalid → ⊥ }
    ensures clean { HasCleanDisk (state S.Store conn.new) → HasCleanDisk (state S.Store conn.old) }
{
    let key = canonical_of(alloc, key)?;
    let found = texts::has(conn, key.as_str())?;
    Ok(found)
}

/// Puts a value under a key, and reads it back from the database. Returns `Database` if the database fails, and `Memory`
/// if an allocation fails.
pub fn put_and_get<S: Alter, K: Serialize, V: Stable + Lossless>(
    alloc: Global,
    conn: &mut Connection<S>,
    key: &K,
    value: &V,
) -> Result<Option<V>, Error>
    // The row is put, as `put` says it.
    ensures put { HasCleanDisk (state S.Store conn.new) → IsStore (state S.Store conn.old).now
        → OnOk result (IsPut (state S.Store conn.old).now (state S.Store conn.new).now
        (canonical_text (K.tree key.now)) (canonical_text (V.tree value.now))) }
    ensures committed { HasCleanDisk (state S.Store conn.new) → IsStore (state S.Store conn.old).now
        → (state S.Store conn.old).in_transaction ≡ false → OnOk result (IsCommitted (state S.Store conn.new)) }

    // Inside of a transaction nothing is committed, and the transaction goes on.
    ensures inside { HasCleanDisk (state S.Store conn.new) → IsStore (state S.Store conn.old).now
        → IsTrue (state S.Store conn.old).in_transaction
        → OnOk result (StaysInside (state S.Store conn.old) (state S.Store conn.new)) }

    // The answer is a value with the content of the one that was put.
    ensures same { HasCleanDisk (state S.Store conn.new) → IsStore (state S.Store conn.old).now
        → IfOk result (λ answer. IfSome answer (λ read. V.means.content read ≡ V.means.content value.now)) }
    ensures some { HasCleanDisk (state S.Store conn.new) → IsStore (state S.Store conn.old).now → result ≡ Ok None → ⊥ }

    // No error is `Invalid`.
    ensures valid { HasCleanDisk (state S.Store conn.new) → IsStore (state S.Store conn.old).now
        → result ≡ Err Invalid → ⊥ }

    // A connection that serves a store goes on.
    ensures serving { HasCleanDisk (state S.Store conn.new) → IsServing (state S.Store conn.old)
        → IsServing (state S.Store conn.new) }

    // If it fails outside of a transaction, the rows are as they were, or the row is put, unless the connection is shut.
    ensures kept { HasCleanDisk (state S.Store conn.new) → IsServing (state S.Store conn.old) → IsTrue (state S.Store conn.new).is_open
        → OnErr result (((state S.Store conn.new).now ≡ (state S.Store conn.old).now)
        ⊎ IsPut (state S.Store conn.old).now (state S.Store conn.new).now
        (canonical_text (K.tree key.now)) (canonical_text (V.tree value.now))) }
    ensures clean { HasCleanDisk (state S.Store conn.new) → HasCleanDisk (state S.Store conn.old) }
{
    value.ranged();
    put(alloc, conn, key, value)?;
    get(alloc, conn, key)
}

/// Returns all keys with their values, in the byte order of the keys' texts. Returns `Database` if the database fails,
/// `Invalid` if a text does not match its type, and `Memory` if an allocation fails.
pub fn all<S: Alter, K: Stable + Lossless, V: Stable + Lossless>(
    alloc: Global,
    conn: &mut Connection<S>,
) -> Result<Vec<(K, V)>, Error>
    // They are read from the rows of the table, none left out and none twice.
    ensures rows { HasCleanDisk (state S.Store conn.new) → (state S.Store conn.old).now.schema ≡ entry_schema
        → IfOk result (λ listed. (entries : List (List ℕ × List ℕ)) × AreEntries (state S.Store conn.old).now entries
        × AllZip (λ entry read. IsReadFrom K.means K.tree K.valid entry.0 read.0
        × IsReadFrom V.means V.tree V.valid entry.1 read.1) entries listed.items) }

    // A row has a key or a body that is the canonical text of no value.
    ensures invalid { HasCleanDisk (state S.Store conn.new) → (state S.Store conn.old).now.schema ≡ entry_schema
        → result ≡ Err Invalid → (key body : List ℕ) × Holds (state S.Store conn.old).now key body
        × (((k : K) → K.valid k → IsJson key (norm (K.tree k)) → ⊥)
        ⊎ ((v : V) → V.valid v → IsJson body (norm (V.tree v)) → ⊥)) }

    // If it succeeds, the database is as it was.
    ensures same { HasCleanDisk (state S.Store conn.new) → (state S.Store conn.old).now.schema ≡ entry_schema
        → OnOk result (IsUnchanged (state S.Store conn.old) (state S.Store conn.new)) }

    // If a text does not match the type, or an allocation fails outside of the database, the database is as it was too.
    ensures unread { HasCleanDisk (state S.Store conn.new) → (state S.Store conn.old).now.schema ≡ entry_schema
        → IsTrue (state S.Store conn.old).is_open → result ≡ Err Invalid
        → IsUnchanged (state S.Store conn.old) (state S.Store conn.new) }
    ensures lacking { HasCleanDisk (state S.Store conn.new) → (state S.Store conn.old).now.schema ≡ entry_schema
        → IsTrue (state S.Store conn.old).is_open → result ≡ Err Memory
        → IsUnchanged (state S.Store conn.old) (state S.Store conn.new) }

    // A connection that serves a store goes on, and one that was shut runs no query.
    ensures serving { HasCleanDisk (state S.Store conn.new) → IsServing (state S.Store conn.old)
        → IsServing (state S.Store conn.new) }
    ensures live { HasCleanDisk (state S.Store conn.new) → IsServing (state S.Store conn.old)
        → OnOk result (IsTrue (state S.Store conn.old).is_open) }

    // Outside of a transaction the rows are as they were, whatever it returns, unless the connection is shut.
    ensures kept { HasCleanDisk (state S.Store conn.new) → IsServing (state S.Store conn.old)
        → Keeps (state S.Store conn.old) (state S.Store conn.new) }
    ensures clean { HasCleanDisk (state S.Store conn.new) → HasCleanDisk (state S.Store conn.old) }
{
    let rows = texts::all(alloc, conn)?;
    let mut listed = Vec::new(alloc);
    for row in rows.iter() {
        let key: K = value_of(alloc, row.0.as_str())?;
        let value: V = value_of(alloc, row.1.as_str())?;
        listed.push((key, value))?;
    }
    Ok(listed)
}
