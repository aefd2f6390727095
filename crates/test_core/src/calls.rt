//! A caller with a contract, over `miniserde_core`.
ghost use Rattle.std.specs.Prelude.{◌≡◌, IfOk, string_bytes};
ghost use Rattle.miniserde_core.specs.Tree.{Tree};
ghost use Rattle.miniserde_core.specs.Value.{IsJson};
ghost use Rattle.miniserde_core.specs.Compact.{compact};
ghost use Rattle.test_core.specs.Parcels.{sent_of};

use crate::parcel::{Parcel, State};
use miniserde_core::json::{from_str, to_string};
use miniserde_core::{FromJson, Result, Serialize};
use std::alloc::Global;

/// Reads a parcel, and writes it as one that was sent.
pub fn sent(alloc: Global, text: &str) -> Result<String>
    ensures { let tree = ⟦<Parcel as Serialize>⟧.tree in IfOk result (λ s. (t : Tree) × (v : Parcel) × IsJson text.now t
        × ⟦<Parcel as FromJson>⟧.means.reads t v × (string_bytes s ≡ compact (tree (sent_of v)))) }
{
    let mut parcel: Parcel = from_str(alloc, text)?;
    parcel.state = State::Sent;
    let written = to_string(alloc, &parcel)?;
    Ok(written)
}

#[cfg(test)]
mod tests {
    use super::sent;
    use crate::parcel::Parcel;
    use crate::stop::{End, Stop};
    use crate::task::Label;
    use miniserde_core::json::{Document, from_str};
    use miniserde_core::ser::Writer;
    use miniserde_core::{FromJson, Result, Serialize};
    use std::alloc::Global;
    use std::collections::{BTreeMap, HashMap};
    use std::hash::{BuildHasherDefault, DefaultHasher};

    // Returns whether a text of a parcel gives that text of one that was sent, or is invalid if there is none.
    fn gives(alloc: Global, text: &str, wanted: Option<&str>) -> bool {
        match (sent(alloc, text), wanted) {
            (Ok(written), Some(wanted)) => written.as_str() == wanted,
            (Err(_), None) => true,
            _ => false,
        }
    }

    #[test]
    fn parcels_are_read_and_written(rt: HostRuntime) {
        let cases = [
            (
                "{\"id\":7,\"state\":\"packed\",\"extra\":{\"b\":-0,\"a\":[1.50]}}",
                Some(
                    "{\"id\":7,\"state\":\"sent\",\"before\":\"packed\",\"weights\":[],\"tasks\":[],\"extra\":{\"a\":[1.50],\"b\":0}}",
                ),
            ),
            (
                "{\"extra\":null,\"note\":\"x\",\"weights\":[1,2],\"before\":\"sent\",\"state\":\"sent\",\"id\":0}",
                Some(
                    "{\"id\":0,\"state\":\"sent\",\"before\":\"sent\",\"weights\":[1,2],\"tasks\":[],\"note\":\"x\",\"extra\":null}",
                ),
            ),
            (
                "{\"id\":1,\"state\":\"sent\",\"tasks\":[{\"kind\":\"Done\"},{\"grams\":9,\"kind\":\"Weighed\"},{\"kind\":\"Labelled\"},{\"kind\":\"Sealed\",\"twice\":true}],\"extra\":1}",
                Some(
                    "{\"id\":1,\"state\":\"sent\",\"before\":\"packed\",\"weights\":[],\"tasks\":[{\"kind\":\"Done\"},{\"kind\":\"Weighed\",\"grams\":9},{\"kind\":\"Labelled\",\"text\":\"\"},{\"kind\":\"Sealed\",\"twice\":true}],\"extra\":1}",
                ),
            ),
            (
                "{\"id\":1,\"state\":\"sent\",\"tasks\":[{\"kind\":\"Labelled\",\"text\":null}],\"extra\":1}",
                None,
            ),
            ("{\"id\":7,\"id\":7,\"state\":\"packed\",\"extra\":1}", None),
            ("{\"id\":7,\"state\":\"Packed\",\"extra\":1}", None),
            (
                "{\"id\":7,\"state\":\"sent\",\"before\":null,\"extra\":1}",
                None,
            ),
            (
                "{\"id\":7,\"state\":\"packed\",\"extra\":1,\"more\":1}",
                None,
            ),
            ("{\"id\":7,\"state\":\"packed\"}", None),
        ];
        for (text, wanted) in cases {
            assert!(rt; gives(rt.alloc(), text, wanted));
        }
    }

    // Returns whether a value that a text means is written as that text, and whether the writer then knows as much of
    // its normal form as `known` says.
    fn is_written<T: FromJson + Serialize>(alloc: Global, text: &str, known: bool) -> Result<bool> {
        let value: T = from_str(alloc, text)?;
        let mut w = Writer::watching(alloc);
        value.begin(&mut w)?;
        Ok(w.is_normal() == known && w.into_string()?.as_str() == text)
    }

    type Hashed = HashMap<String, Label, BuildHasherDefault<DefaultHasher>>;

    // Structs and maps whose names rise leave the text known to be canonical, and others do not.
    #[test]
    fn names_that_rise_are_known_to(rt: HostRuntime) -> Result<()> {
        let labels = "{\"a\":{\"text\":\"\"},\"b\":{\"text\":\"c\"},\"c\":{\"text\":\"\"}}";
        let parcel =
            "{\"id\":7,\"state\":\"sent\",\"before\":\"sent\",\"weights\":[],\"tasks\":[],\"extra\":null}";
        assert!(rt;
            is_written::<Vec<Label>>(rt.alloc(), "[{\"text\":\"b\"},{\"text\":\"a\"}]", true)?
        );
        assert!(rt; is_written::<BTreeMap<String, Label>>(rt.alloc(), labels, true)?);
        assert!(rt; is_written::<Hashed>(rt.alloc(), labels, true)?);
        assert!(rt;
            is_written::<BTreeMap<u8, bool>>(rt.alloc(), "{\"9\":true,\"10\":false}", false)?
        );
        assert!(rt; is_written::<Parcel>(rt.alloc(), parcel, false)?);
        Ok(())
    }

    // The same of a struct of several fields, alone and as the data of an enum, and of documents.
    #[test]
    fn structs_and_documents_are_known_to(rt: HostRuntime) -> Result<()> {
        let document =
            "{\"a\":[{\"b\":1,\"c\":{}},[]],\"d\":{\"e\":null,\"f\":\"\",\"g\":{\"h\":-1}}}";
        let stop =
            "{\"at\":7,\"before\":\"sent\",\"cost\":0,\"days\":[1,2],\"extra\":[{\"a\":0,\"b\":1}]}";
        let noted =
            "{\"at\":7,\"before\":\"sent\",\"cost\":0,\"days\":[],\"extra\":null,\"note\":\"x\"}";
        let end =
            "{\"At\":{\"at\":7,\"before\":\"sent\",\"cost\":0,\"days\":[],\"extra\":{\"a\":0,\"b\":1}}}";
        assert!(rt; is_written::<Document>(rt.alloc(), document, true)?);
        assert!(rt; is_written::<Document>(rt.alloc(), "[{},[],{\"\":{}}]", true)?);
        assert!(rt; is_written::<Stop>(rt.alloc(), stop, true)?);
        assert!(rt; is_written::<Stop>(rt.alloc(), noted, true)?);
        assert!(rt; is_written::<End>(rt.alloc(), end, true)?);
        Ok(())
    }
}
