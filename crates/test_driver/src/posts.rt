//! The types of `posts.rs`, with the impls that `./derive` writes.
ghost use Rattle.miniserde.specs.FieldsMeaning.{struct_meaning};
ghost use Rattle.miniserde.specs.Structs.{names_of, record_tree};
ghost use Rattle.std.specs.Prelude.{refl};

use crate::entities::{Entities, Media};
use crate::users::User;
use miniserde::derived::{
    Event, FourLent, FourParts, FourSlot, FromJson, NoSlot, Parts, Ranged, Record, Result,
    RoundTrip, Serialize, Slot, Slots, Source, Writer, WrittenFields, read_record,
    record_round_trips, take_four, write_members,
};
use std::collections::BTreeMap;

/// A message to many readers.
#[derive(Drop)]
pub struct Post {
    pub id: u64,
    pub created_at: String,
    pub text: String,
    pub truncated: bool,
    pub user: User,
    pub coordinates: Option<(i64, i64)>,
    pub entities: Entities,
    pub favorited: bool,
    pub lang: String,
    pub media: Vec<Media>,
    pub counts: BTreeMap<String, u32>,
}

// Its fields, and their names.
type PostFields = FourSlot<
    u64,
    String,
    String,
    bool,
    FourSlot<
        User,
        Option<(i64, i64)>,
        Entities,
        bool,
        Slot<String, Slot<Vec<Media>, Slot<BTreeMap<String, u32>, NoSlot>>>,
    >,
>;

const POST_NAMES: &[&str] = &[
    "id",
    "created_at",
    "text",
    "truncated",
    "user",
    "coordinates",
    "entities",
    "favorited",
    "lang",
    "media",
    "counts",
];

impl Record for Post {
    ghost use Rattle.test_driver.specs.declared.posts.TheConstants.{POST_NAMES};

    type Values = <PostFields as Slots>::Values;

    ghost names = { names_of POST_NAMES };

    ghost values = { λ v. (
      v.id,
      (
        v.created_at,
        (
          v.text,
          (
            v.truncated,
            (
              v.user,
              (
                v.coordinates,
                (v.entities, (v.favorited, (v.lang, (v.media, (v.counts, tt))))),
              ),
            ),
          ),
        ),
      ),
    ) };

    ghost made = { λ x. record {
      id = x.0;
      created_at = x.1.0;
      text = x.1.1.0;
      truncated = x.1.1.1.0;
      user = x.1.1.1.1.0;
      coordinates = x.1.1.1.1.1.0;
      entities = x.1.1.1.1.1.1.0;
      favorited = x.1.1.1.1.1.1.1.0;
      lang = x.1.1.1.1.1.1.1.1.0;
      media = x.1.1.1.1.1.1.1.1.1.0;
      counts = x.1.1.1.1.1.1.1.1.1.1.0;
    } };

    ghost bijective = { (λ v. refl, λ x. refl) };

    ghost distinct_names = { refl };

    fn names() -> &'static [&'static str] {
        POST_NAMES
    }

    fn build(parts: Self::Values) -> Post {
        let FourParts(id, created_at, text, truncated, parts) = take_four(parts);
        let FourParts(user, coordinates, entities, favorited, parts) = take_four(parts);
        let Parts(lang, Parts(media, Parts(counts, ()))) = parts;
        Post {
            id,
            created_at,
            text,
            truncated,
            user,
            coordinates,
            entities,
            favorited,
            lang,
            media,
            counts,
        }
    }
}

impl FromJson for Post {
    ghost means = { struct_meaning ⟦<PostFields as Slots>⟧.meaning ⟦<Post as Record>⟧.names ⟦<Post as Record>⟧.values };

    fn missing() -> Option<Post> {
        None
    }

    fn read<'a>(token: Event<'a>, source: &mut Source<'a>) -> Result<Post> {
        read_record::<Post, PostFields>(token, source)
    }
}

impl Serialize for Post {
    ghost tree = { record_tree ⟦<Post as Record>⟧.names ⟦<PostFields as WrittenFields>⟧.trees ⟦<Post as Record>⟧.values };

    fn begin(&self, w: &mut Writer) -> Result<()> {
        write_members(
            w,
            POST_NAMES,
            &FourLent(
                &self.id,
                &self.created_at,
                &self.text,
                &self.truncated,
                FourLent(
                    &self.user,
                    &self.coordinates,
                    &self.entities,
                    &self.favorited,
                    Parts(&self.lang, Parts(&self.media, Parts(&self.counts, ()))),
                ),
            ),
        )
    }
}

impl Ranged for Post {
    ghost valid = { λ v. ⟦<PostFields as WrittenFields>⟧.valid (⟦<Post as Record>⟧.values v) };

    fn ranged(&self) {
        self.id.ranged();
        self.created_at.ranged();
        self.text.ranged();
        self.truncated.ranged();
        self.user.ranged();
        self.coordinates.ranged();
        self.entities.ranged();
        self.favorited.ranged();
        self.lang.ranged();
        self.media.ranged();
        self.counts.ranged();
    }
}

impl RoundTrip for Post {
    fn round_trips() {
        record_round_trips::<Post, PostFields>()
    }
}
