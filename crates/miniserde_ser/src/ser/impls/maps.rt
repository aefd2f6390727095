//! Writes `BTreeMap`, with the members in the order of the map's keys.
ghost use Rattle.std.specs.Prelude.{◌≡◌, true, IfSome};
ghost use Rattle.std.specs.declared.cmp.Ordering.TheVariants.{Less};
ghost use Rattle.miniserde_model.specs.Tree.{members};
ghost use Rattle.miniserde_model.specs.Normal.{text_cmp};
ghost use Rattle.miniserde_ser.specs.Trees.{members_of};
ghost use Rattle.miniserde_ser.specs.Writer.{with_normal};

use crate::ser::{Serialize, Writer};
use miniserde_keys::MapKey;
use miniserde_model::error::Result;
use std::collections::BTreeMap;

// Ends the writer's flag `normal` unless the name of the key is known to come after that of the key before it, if there
// is one. If the flag has ended, compares no names.
#[inline(always)]
fn watch_order<K: MapKey>(earlier: Option<&K>, key: &K, w: &mut Writer)
    ensures flag { w.new ≡ with_normal w.old w.new.normal }
    ensures was_normal { w.new.normal ≡ true → w.old.normal ≡ true }
    ensures rises { w.new.normal ≡ true
        → IfSome earlier.entry (λ before. text_cmp (K.text before.now) (K.text key.now) ≡ Less) }
{
    if !w.normal {
        return;
    }
    if let Some(before) = earlier {
        if !before.precedes(key) {
            w.normal = false;
        }
    }
}

impl<K: MapKey + Ord, V: Serialize> Serialize for BTreeMap<K, V> {
    ghost tree = { λ m. members (members_of K.text V.tree m.entries) };

    fn begin(&self, w: &mut Writer) -> Result<()> {
        let mut name = String::new(w.alloc());
        let mut earlier: Option<&K> = None;
        w.map_in_order()?;
        for (key, value) in self {
            watch_order(earlier, key, w);
            earlier = Some(key);
            name.clear();
            if key.to_key(&mut name).is_err() {
                return Err(w.refuse());
            }
            w.key_inline(name.as_str())?;
            value.begin(w)?;
        }
        w.map_finish()
    }
}
