//! The text of settings at another port, or the field that is wrong.
ghost use Rattle.std.specs.Prelude.{◌≡◌, IfOk, Err, codes, string_bytes};
ghost use Rattle.miniserde.specs.Tree.{Tree, Members, members, nonneg};
ghost use Rattle.miniserde.specs.Value.{IsJson};
ghost use Rattle.miniserde.specs.Compact.{compact};
ghost use Rattle.miniserde.specs.Normal.{norm};
ghost use Rattle.settings_app.specs.Changes.{at_port, HasOnlyChange, IsWrong};
ghost use Rattle.settings_app.specs.declared.loading.Fault.{Fault};

use crate::member::with_number;
use miniserde::laws::{norm_is_normal, norm_of_members, text_has_one_tree};
use miniserde::{Error, FromJson, Result, means_in_normal_form};
use refused::{FieldPath, wrong_field};
use settings::loader::settings_meant;
use settings::{Settings, load};
use std::alloc::Global;
use std::fmt;

/// Why settings were not changed.
#[derive(Debug, Drop)]
pub enum Fault {
    /// The text is no JSON.
    NoJson,
    /// The text has no value for the field at the path. If the path is empty, the text is no object.
    Field(FieldPath),
    /// An allocation failed.
    Failed(Error),
}

impl fmt::Display for Fault {
    ghost use Rattle.settings_app.specs.Faults.{fault_text};

    ghost output = { fault_text ⟦<FieldPath as fmt::Display>⟧.output };

    fn fmt<W: fmt::Write>(&self, f: &mut fmt::Formatter<W>) -> fmt::Result {
        match self {
            Fault::NoJson => f.write_str("this is no JSON"),
            Fault::Field(path) if path.names.is_empty() => f.write_str("this is no object"),
            Fault::Field(path) => write!(f, "the field {path} is wrong"),
            Fault::Failed(error) => write!(f, "{error}"),
        }
    }
}

/// Returns why a text means no settings.
fn fault_of(alloc: Global, text: &str) -> Fault
    requires { (t : Tree) → IsJson text.now t → (s : Settings) → ⟦<Settings as FromJson>⟧.means.reads t s → ⊥ }
    ensures field { (path : _) → result ≡ Fault.Field path → (t : Tree) × IsJson text.now t × IsWrong path t }
    ensures no_json { result ≡ Fault.NoJson → (t : Tree) → IsJson text.now t → ⊥ }
    ensures failed { (e : _) → result ≡ Fault.Failed e → e ≡ Error.Memory }
{
    match wrong_field::<Settings>(alloc, text) {
        Ok(Some(path)) => Fault::Field(path),
        Ok(None) => Fault::NoJson,
        Err(error) => Fault::Failed(error),
    }
}

/// Returns the text of settings at another port. Returns `Invalid` if the text means no settings, and `Memory` if an
/// allocation fails.
fn at_another_port(alloc: Global, text: &str, port: u16) -> Result<String>
    ensures ok { IfOk result (λ j. (ms : Members) × (s : Settings) × (changed : Members)
        × IsJson text.now (members ms) × ⟦<Settings as FromJson>⟧.means.reads (members ms) s
        × IsJson (string_bytes j) (members changed) × ⟦<Settings as FromJson>⟧.means.reads (members changed) (at_port port s)
        × HasOnlyChange (codes "port") (nonneg port) ms changed × (string_bytes j ≡ compact (norm (members changed)))) }
    ensures invalid { result ≡ Err Error.Invalid
        → (t : Tree) → IsJson text.now t → (s : Settings) → ⟦<Settings as FromJson>⟧.means.reads t s → ⊥ }
{
    means_in_normal_form::<Settings>();
    norm_is_normal();
    norm_of_members();
    settings_meant();
    text_has_one_tree();
    load(alloc, text)?;
    let changed = with_number(alloc, text, "port", port)?;
    Ok(changed)
}

/// Returns the text of settings at another port, with all other members, in canonical text: members in byte order, of
/// duplicates the last. Returns `Field` or `NoJson` if the text means no settings, and `Failed` if an allocation fails.
pub fn set_port(alloc: Global, text: &str, port: u16) -> std::result::Result<String, Fault>
    // The text spells members that mean settings. The answer spells members that mean these settings at that port; at
    // each other name they have the normal form of the last tree that the text has there.
    ensures ok { IfOk result (λ j. (ms : Members) × (s : Settings) × (changed : Members)
        × IsJson text.now (members ms) × ⟦<Settings as FromJson>⟧.means.reads (members ms) s
        × IsJson (string_bytes j) (members changed) × ⟦<Settings as FromJson>⟧.means.reads (members changed) (at_port port s)
        × HasOnlyChange (codes "port") (nonneg port) ms changed × (string_bytes j ≡ compact (norm (members changed)))) }

    // The text spells a tree that has no value for the field at the path, or the path is empty and the tree no object.
    ensures field { (path : _) → result ≡ Err (Fault.Field path) → (t : Tree) × IsJson text.now t × IsWrong path t }

    // The text spells no tree.
    ensures no_json { result ≡ Err Fault.NoJson → (t : Tree) → IsJson text.now t → ⊥ }

    // An allocation failed.
    ensures failed { (e : _) → result ≡ Err (Fault.Failed e) → e ≡ Error.Memory }
{
    match at_another_port(alloc, text, port) {
        Ok(changed) => Ok(changed),
        Err(Error::Invalid) => Err(fault_of(alloc, text)),
        Err(error) => Err(Fault::Failed(error)),
    }
}
