//! Writes values of types whose values are written as JSON strings.
ghost use Rattle.std.specs.Prelude.{◌≡◌, ◌++◌, true, false, OnOk, OnErr, IsErrOf};
ghost use Rattle.miniserde_model.specs.Compact.{compact};
ghost use Rattle.miniserde_model.specs.InRange.{InRange};
ghost use Rattle.miniserde_model.specs.Tree.{str};
ghost use Rattle.miniserde_model.specs.declared.error.Error.TheVariants.{Memory};
ghost use Rattle.miniserde_ser.specs.Writer.{KeepsNormal};

use super::{Fragment, Writer};
use miniserde_keys::TextValue;
use miniserde_model::error::Result;

/// Appends the text of a value as a string. Returns `Memory` if an allocation fails or an earlier call of the writer
/// failed; the writer then returns no text.
pub fn write_text_value<T: TextValue>(value: &T, w: &mut Writer) -> Result<()>
    ensures ok { OnOk result (w.new.text ≡ w.old.text ++ compact (str (T.text (T.content value.now)))) }
    ensures in_range { OnOk result (InRange (str (T.text (T.content value.now)))) }
    ensures normal { OnOk result (KeepsNormal w.old (str (T.text (T.content value.now))) w.new) }
    ensures first { OnOk result (w.old.first ≡ false → w.new.first ≡ false) }
    ensures unrefused { OnOk result (w.new.refused ≡ false) }
    ensures was_running { OnOk result (w.old.refused ≡ false) }
    ensures memory { OnErr result (IsErrOf result Memory) }
    ensures err { OnErr result (w.new.refused ≡ true) }
{
    let mut text = String::new(w.alloc());
    if value.write(&mut text).is_err() {
        return Err(w.refuse());
    }
    w.fragment(Fragment::Str(text.as_str()))
}
