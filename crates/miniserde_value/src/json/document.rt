//! The type `Document`, a JSON value whose content is the tree that it is written as.
ghost use Rattle.std.specs.Prelude.{⊤};

use super::value::Value;
use miniserde_keys::Ranged;
use miniserde_model::error::Result;
use miniserde_read::{FromJson, Source};
use miniserde_ser::ser::{Serialize, Writer};
use miniserde_text::json::lex::Event;

/// A JSON value whose content is the tree that it is written as: `-0` counts as 0, and the order of
/// names does not count. So it is stable and lossless by definition; a `Value` is not stable, and
/// `I64(5)` and `U64(5)` in it are written alike. A `Document` of `I64(5)` has the content of one of
/// `U64(5)`, and no clause says which of the two is read back.
#[derive(Debug, Drop)]
pub struct Document {
    pub value: Value,
}

impl FromJson for Document {
    ghost use Rattle.miniserde_value.specs.Meanings.{document_meaning};

    ghost means = { document_meaning };

    fn missing() -> Option<Document> {
        None
    }

    fn read<'a>(token: Event<'a>, source: &mut Source<'a>) -> Result<Document> {
        Ok(Document {
            value: Value::read(token, source)?,
        })
    }
}

impl Serialize for Document {
    ghost use Rattle.miniserde_value.specs.Values.{tree_of};

    ghost tree = { λ d. tree_of d.value };

    fn begin(&self, w: &mut Writer) -> Result<()> {
        self.value.begin(w)
    }
}

impl Ranged for Document {
    // Every document is valid.
    ghost valid = { λ _. ⊤ };

    fn ranged(&self) {}
}
