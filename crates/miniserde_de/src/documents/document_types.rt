//! The places of `Array`, `Object` and `Document`, which are one generic place, `DocumentTypePlace`.
ghost use Rattle.std.specs.Prelude.{◌≡◌, true, Some, option_map};
ghost use Rattle.miniserde_read.specs.Events.{event_of};
ghost use Rattle.miniserde_value.specs.Values.{content_of};
ghost use Rattle.miniserde_de.specs.DocumentMeanings.{DocumentMeaning};
ghost use Rattle.miniserde_de.specs.laws.DocumentMeanings.{lists, objects, documents};

use super::value_place::ValuePlace;
use crate::de::{Deserialize, Step, Visitor};
use miniserde_model::error::{Error, Result};
use miniserde_value::json::array::Array;
use miniserde_value::json::document::Document;
use miniserde_value::json::object::Object;
use miniserde_value::json::value::Value;
use std::alloc::Global;
use std::marker::PhantomData;

/// The place of an `Array`. No value begins with an event that opens no list.
pub type ArrayPlace = DocumentTypePlace<ArrayMarker>;

/// The place of an `Object`. No value begins with an event that opens no object.
pub type ObjectPlace = DocumentTypePlace<ObjectMarker>;

/// The place of a `Document`.
pub type DocumentPlace = DocumentTypePlace<DocumentMarker>;

/// A marker that stands for a type of documents, which `DocumentTypePlace` collects.
pub trait DocumentType: Drop {
    /// The type of the documents.
    type Out: Drop;

    // Which trees mean which documents of the type, and which events begin them.
    ghost document_meaning: { DocumentMeaning Self.Out };

    /// Returns whether the type allows the event as the first. If not, no document of this type begins with it. If so,
    /// `ValuePlace`, which the event is then handed to, may still refuse it.
    fn begins(event: &Step<'_>) -> bool
        ensures { result ≡ document_meaning.begins (event_of event.now) };

    /// Returns the value as a document of this type, or `None` if it is none. Allocates nothing.
    fn from_value(value: Value) -> Option<Self::Out>
        ensures { option_map document_meaning.by_trees.content result ≡ document_meaning.only (Some (content_of value)) };
}

/// The place of an `Array`, an `Object` or a `Document`: the place of a `Value`, with a check of the first event.
#[derive(Drop)]
pub struct DocumentTypePlace<K> {
    place: ValuePlace,
    // The marker of the type of documents. It takes no memory.
    marker: PhantomData<K>,
}

impl<K: DocumentType> Visitor for DocumentTypePlace<K> {
    type Out = K::Out;

    ghost use Rattle.miniserde_de.specs.Places.{document_place_meaning, DocumentTakes};

    ghost meaning = { document_place_meaning K.document_meaning };

    ghost begin_infallible = { true };

    ghost take_infallible = { true };

    // An event for which `begins` holds does to the hole what it does in the place of a `Value`, wherever it comes. A
    // first event for which it does not hold, and any event that does not fit, is `Invalid`, unless the place keeps an
    // error already.
    ghost further = { λ old e answer new. DocumentTakes K.document_meaning old.place e answer new.place };

    fn begin(alloc: Global) -> Result<DocumentTypePlace<K>> {
        Ok(DocumentTypePlace {
            place: ValuePlace::new(alloc),
            marker: PhantomData,
        })
    }

    fn step(&mut self, event: Step<'_>) -> Result<()> {
        if self.place.is_fresh() && !K::begins(&event) {
            return Err(self.place.refuse(Error::Invalid));
        }
        self.place.step(event)
    }

    fn refuse(&mut self, error: Error) -> Error {
        self.place.refuse(error)
    }

    fn is_complete(&self) -> bool {
        self.place.is_complete()
    }

    fn take(self) -> Result<K::Out> {
        K::from_value(self.place.take()?).ok_or(Error::Invalid)
    }
}

/// Stands for `Array`, whose values begin with the event `seq`.
#[derive(Clone, Copy)]
pub struct ArrayMarker;

impl DocumentType for ArrayMarker {
    type Out = Array;

    ghost document_meaning = { lists };

    fn begins(event: &Step<'_>) -> bool {
        matches!(event, Step::Seq)
    }

    fn from_value(value: Value) -> Option<Array> {
        value.into_array()
    }
}

/// Stands for `Object`, whose values begin with the event `map`.
#[derive(Clone, Copy)]
pub struct ObjectMarker;

impl DocumentType for ObjectMarker {
    type Out = Object;

    ghost document_meaning = { objects };

    fn begins(event: &Step<'_>) -> bool {
        matches!(event, Step::Map)
    }

    fn from_value(value: Value) -> Option<Object> {
        value.into_object()
    }
}

/// Stands for `Document`, whose values begin as any value does.
#[derive(Clone, Copy)]
pub struct DocumentMarker;

impl DocumentType for DocumentMarker {
    type Out = Document;

    ghost document_meaning = { documents };

    fn begins(_event: &Step<'_>) -> bool {
        // An event that begins no value is refused by the place of the `Value`.
        true
    }

    fn from_value(value: Value) -> Option<Document> {
        Some(Document { value })
    }
}

impl Deserialize for Array {
    type Place = ArrayPlace;

    fn tied() {}
}

impl Deserialize for Object {
    type Place = ObjectPlace;

    fn tied() {}
}

impl Deserialize for Document {
    type Place = DocumentPlace;

    fn tied() {}
}
