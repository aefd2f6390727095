//! The types of `entities.rs`, with the impls that `./derive` writes.
ghost use Rattle.miniserde.specs.Cases.{each_case, enum_tree, first_case, later_case, any_of_never};
ghost use Rattle.miniserde.specs.CasesMeaning.{enum_meaning};
ghost use Rattle.miniserde.specs.FieldsMeaning.{struct_meaning};
ghost use Rattle.miniserde.specs.Structs.{names_of, record_tree};
ghost use Rattle.std.specs.Prelude.{refl};

use miniserde::derived::{
    Cases, DataCase, DataEnum, Event, FromJson, NoCase, NoSlot, OneOf, Parts, Ranged, Record,
    Result, RoundTrip, Serialize, Slot, Slots, Source, Writer, WrittenCases, WrittenFields,
    enum_round_trips, read_enum, read_record, record_round_trips, write_data, write_fields,
    write_members, write_members_in_order,
};

/// A word by which a post is found, and where it begins and ends in the text.
#[derive(Drop)]
pub struct Hashtag {
    pub text: String,
    pub indices: (u16, u16),
}

// Its fields, and their names.
type HashtagFields = Slot<String, Slot<(u16, u16), NoSlot>>;

const HASHTAG_NAMES: &[&str] = &["text", "indices"];

impl Record for Hashtag {
    ghost use Rattle.test_driver.specs.declared.entities.TheConstants.{HASHTAG_NAMES};

    type Values = <HashtagFields as Slots>::Values;

    ghost names = { names_of HASHTAG_NAMES };

    ghost values = { λ v. (v.text, (v.indices, tt)) };

    ghost made = { λ x. record { text = x.0; indices = x.1.0 } };

    ghost bijective = { (λ v. refl, λ x. refl) };

    ghost distinct_names = { refl };

    fn names() -> &'static [&'static str] {
        HASHTAG_NAMES
    }

    fn build(parts: Self::Values) -> Hashtag {
        let Parts(text, Parts(indices, ())) = parts;
        Hashtag { text, indices }
    }
}

impl FromJson for Hashtag {
    ghost means = { struct_meaning ⟦<HashtagFields as Slots>⟧.meaning ⟦<Hashtag as Record>⟧.names
        ⟦<Hashtag as Record>⟧.values };

    fn missing() -> Option<Hashtag> {
        None
    }

    fn read<'a>(token: Event<'a>, source: &mut Source<'a>) -> Result<Hashtag> {
        read_record::<Hashtag, HashtagFields>(token, source)
    }
}

impl Serialize for Hashtag {
    ghost tree = { record_tree ⟦<Hashtag as Record>⟧.names ⟦<HashtagFields as WrittenFields>⟧.trees
        ⟦<Hashtag as Record>⟧.values };

    fn begin(&self, w: &mut Writer) -> Result<()> {
        write_members(
            w,
            HASHTAG_NAMES,
            &Parts(&self.text, Parts(&self.indices, ())),
        )
    }
}

impl Ranged for Hashtag {
    ghost valid = { λ v. ⟦<HashtagFields as WrittenFields>⟧.valid (⟦<Hashtag as Record>⟧.values v) };

    fn ranged(&self) {
        self.text.ranged();
        self.indices.ranged();
    }
}

impl RoundTrip for Hashtag {
    fn round_trips() {
        record_round_trips::<Hashtag, HashtagFields>()
    }
}

/// What is found in the text of a post.
#[derive(Drop)]
pub struct Entities {
    pub hashtags: Vec<Hashtag>,
    pub urls: Vec<String>,
}

// Its fields, and their names.
type EntitiesFields = Slot<Vec<Hashtag>, Slot<Vec<String>, NoSlot>>;

const ENTITIES_NAMES: &[&str] = &["hashtags", "urls"];

impl Record for Entities {
    ghost use Rattle.test_driver.specs.declared.entities.TheConstants.{ENTITIES_NAMES};

    type Values = <EntitiesFields as Slots>::Values;

    ghost names = { names_of ENTITIES_NAMES };

    ghost values = { λ v. (v.hashtags, (v.urls, tt)) };

    ghost made = { λ x. record { hashtags = x.0; urls = x.1.0 } };

    ghost bijective = { (λ v. refl, λ x. refl) };

    ghost distinct_names = { refl };

    fn names() -> &'static [&'static str] {
        ENTITIES_NAMES
    }

    fn build(parts: Self::Values) -> Entities {
        let Parts(hashtags, Parts(urls, ())) = parts;
        Entities { hashtags, urls }
    }
}

impl FromJson for Entities {
    ghost means = { struct_meaning ⟦<EntitiesFields as Slots>⟧.meaning ⟦<Entities as Record>⟧.names
        ⟦<Entities as Record>⟧.values };

    fn missing() -> Option<Entities> {
        None
    }

    fn read<'a>(token: Event<'a>, source: &mut Source<'a>) -> Result<Entities> {
        read_record::<Entities, EntitiesFields>(token, source)
    }
}

impl Serialize for Entities {
    ghost tree = { record_tree ⟦<Entities as Record>⟧.names ⟦<EntitiesFields as WrittenFields>⟧.trees ⟦<Entities as Record>⟧.values };

    fn begin(&self, w: &mut Writer) -> Result<()> {
        write_members_in_order(
            w,
            ENTITIES_NAMES,
            &Parts(&self.hashtags, Parts(&self.urls, ())),
        )
    }
}

impl Ranged for Entities {
    ghost valid = { λ v. ⟦<EntitiesFields as WrittenFields>⟧.valid (⟦<Entities as Record>⟧.values v) };

    fn ranged(&self) {
        self.hashtags.ranged();
        self.urls.ranged();
    }
}

impl RoundTrip for Entities {
    fn round_trips() {
        record_round_trips::<Entities, EntitiesFields>()
    }
}

/// The fields of `Media::Photo`.
#[derive(Drop)]
pub struct MediaPhoto {
    pub url: String,
    pub width: u32,
    pub height: u32,
}

// Its fields, and their names.
type MediaPhotoFields = Slot<String, Slot<u32, Slot<u32, NoSlot>>>;

const MEDIA_PHOTO_NAMES: &[&str] = &["url", "width", "height"];

impl Record for MediaPhoto {
    ghost use Rattle.test_driver.specs.declared.entities.TheConstants.{MEDIA_PHOTO_NAMES};

    type Values = <MediaPhotoFields as Slots>::Values;

    ghost names = { names_of MEDIA_PHOTO_NAMES };

    ghost values = { λ v. (v.url, (v.width, (v.height, tt))) };

    ghost made = { λ x. record { url = x.0; width = x.1.0; height = x.1.1.0 } };

    ghost bijective = { (λ v. refl, λ x. refl) };

    ghost distinct_names = { refl };

    fn names() -> &'static [&'static str] {
        MEDIA_PHOTO_NAMES
    }

    fn build(parts: Self::Values) -> MediaPhoto {
        let Parts(url, Parts(width, Parts(height, ()))) = parts;
        MediaPhoto { url, width, height }
    }
}

impl FromJson for MediaPhoto {
    ghost means = { struct_meaning ⟦<MediaPhotoFields as Slots>⟧.meaning ⟦<MediaPhoto as Record>⟧.names ⟦<MediaPhoto as Record>⟧.values };

    fn missing() -> Option<MediaPhoto> {
        None
    }

    fn read<'a>(token: Event<'a>, source: &mut Source<'a>) -> Result<MediaPhoto> {
        read_record::<MediaPhoto, MediaPhotoFields>(token, source)
    }
}

impl Serialize for MediaPhoto {
    ghost tree = { record_tree ⟦<MediaPhoto as Record>⟧.names ⟦<MediaPhotoFields as WrittenFields>⟧.trees ⟦<MediaPhoto as Record>⟧.values };

    fn begin(&self, w: &mut Writer) -> Result<()> {
        write_members(
            w,
            MEDIA_PHOTO_NAMES,
            &Parts(&self.url, Parts(&self.width, Parts(&self.height, ()))),
        )
    }
}

impl Ranged for MediaPhoto {
    ghost valid = { λ v. ⟦<MediaPhotoFields as WrittenFields>⟧.valid (⟦<MediaPhoto as Record>⟧.values v) };

    fn ranged(&self) {
        self.url.ranged();
        self.width.ranged();
        self.height.ranged();
    }
}

impl RoundTrip for MediaPhoto {
    fn round_trips() {
        record_round_trips::<MediaPhoto, MediaPhotoFields>()
    }
}

/// The fields of `Media::Video`.
#[derive(Drop)]
pub struct MediaVideo {
    pub url: String,
    pub seconds: u32,
}

// Its fields, and their names.
type MediaVideoFields = Slot<String, Slot<u32, NoSlot>>;

const MEDIA_VIDEO_NAMES: &[&str] = &["url", "seconds"];

impl Record for MediaVideo {
    ghost use Rattle.test_driver.specs.declared.entities.TheConstants.{MEDIA_VIDEO_NAMES};

    type Values = <MediaVideoFields as Slots>::Values;

    ghost names = { names_of MEDIA_VIDEO_NAMES };

    ghost values = { λ v. (v.url, (v.seconds, tt)) };

    ghost made = { λ x. record { url = x.0; seconds = x.1.0 } };

    ghost bijective = { (λ v. refl, λ x. refl) };

    ghost distinct_names = { refl };

    fn names() -> &'static [&'static str] {
        MEDIA_VIDEO_NAMES
    }

    fn build(parts: Self::Values) -> MediaVideo {
        let Parts(url, Parts(seconds, ())) = parts;
        MediaVideo { url, seconds }
    }
}

impl FromJson for MediaVideo {
    ghost means = { struct_meaning ⟦<MediaVideoFields as Slots>⟧.meaning ⟦<MediaVideo as Record>⟧.names ⟦<MediaVideo as Record>⟧.values };

    fn missing() -> Option<MediaVideo> {
        None
    }

    fn read<'a>(token: Event<'a>, source: &mut Source<'a>) -> Result<MediaVideo> {
        read_record::<MediaVideo, MediaVideoFields>(token, source)
    }
}

impl Serialize for MediaVideo {
    ghost tree = { record_tree ⟦<MediaVideo as Record>⟧.names ⟦<MediaVideoFields as WrittenFields>⟧.trees ⟦<MediaVideo as Record>⟧.values };

    fn begin(&self, w: &mut Writer) -> Result<()> {
        write_members(
            w,
            MEDIA_VIDEO_NAMES,
            &Parts(&self.url, Parts(&self.seconds, ())),
        )
    }
}

impl Ranged for MediaVideo {
    ghost valid = { λ v. ⟦<MediaVideoFields as WrittenFields>⟧.valid (⟦<MediaVideo as Record>⟧.values v) };

    fn ranged(&self) {
        self.url.ranged();
        self.seconds.ranged();
    }
}

impl RoundTrip for MediaVideo {
    fn round_trips() {
        record_round_trips::<MediaVideo, MediaVideoFields>()
    }
}

/// What a post shows.
#[derive(Drop)]
pub enum Media {
    Photo {
        url: String,
        width: u32,
        height: u32,
    },
    Video {
        url: String,
        seconds: u32,
    },
    Link(String),
}

// Its variants, and their names.
type MediaCases = DataCase<MediaPhoto, DataCase<MediaVideo, DataCase<String, NoCase>>>;

const MEDIA_NAMES: &[&str] = &["Photo", "Video", "Link"];

impl DataEnum for Media {
    ghost use Rattle.test_driver.specs.declared.entities.TheConstants.{MEDIA_NAMES};
    ghost use Rattle.test_driver.specs.declared.entities.Media.TheVariants.{Photo, Video, Link};

    type Values = <MediaCases as Cases>::Values;

    ghost names = { names_of MEDIA_NAMES };

    ghost values = { elim [
      | Photo x0 x1 x2 ↦ first_case (record {
        url = x0;
        width = x1;
        height = x2;
      })
      | Video x0 x1 ↦ later_case (first_case (record { url = x0; seconds = x1 }))
      | Link x0 ↦
          later_case (later_case (first_case x0))
    ] };

    ghost made = { each_case _ (λ x. Photo x.url x.width x.height) (each_case _ (λ x. Video x.url
        x.seconds) (each_case _ (λ x. Link x) (any_of_never _))) };

    ghost bijective = { (
      elim [ Photo x0 x1 x2 ↦ refl | Video x0 x1 ↦ refl | Link x0 ↦ refl ],
      each_case _ (λ x. refl) (each_case _ (λ x. refl) (each_case _ (λ x. refl) (any_of_never
          _))),
    ) };

    ghost distinct_names = { refl };

    fn names() -> &'static [&'static str] {
        MEDIA_NAMES
    }

    fn build(value: Self::Values) -> Media {
        match value {
            OneOf::First(MediaPhoto { url, width, height }) => Media::Photo { url, width, height },
            OneOf::Later(value) => match value {
                OneOf::First(MediaVideo { url, seconds }) => Media::Video { url, seconds },
                OneOf::Later(value) => match value {
                    OneOf::First(a) => Media::Link(a),
                    OneOf::Later(value) => match value {},
                },
            },
        }
    }
}

impl FromJson for Media {
    ghost means = { enum_meaning ⟦<MediaCases as Cases>⟧.meaning ⟦<Media as DataEnum>⟧.names refl
        ⟦<Media as DataEnum>⟧.values };

    fn missing() -> Option<Media> {
        None
    }

    fn read<'a>(token: Event<'a>, source: &mut Source<'a>) -> Result<Media> {
        read_enum::<Media, MediaCases>(token, source)
    }
}

impl Serialize for Media {
    ghost tree = { enum_tree ⟦<Media as DataEnum>⟧.names ⟦<MediaCases as WrittenCases>⟧.tree ⟦<Media as DataEnum>⟧.values };

    fn begin(&self, w: &mut Writer) -> Result<()> {
        match self {
            Media::Photo { url, width, height } => {
                write_fields(
                    w,
                    "Photo",
                    MEDIA_PHOTO_NAMES,
                    &Parts(url, Parts(width, Parts(height, ()))),
                )
            },
            Media::Video { url, seconds } => {
                write_fields(
                    w,
                    "Video",
                    MEDIA_VIDEO_NAMES,
                    &Parts(url, Parts(seconds, ())),
                )
            },
            Media::Link(a) => write_data(w, "Link", a),
        }
    }
}

impl Ranged for Media {
    ghost valid = { λ v. ⟦<MediaCases as WrittenCases>⟧.valid (⟦<Media as DataEnum>⟧.values v) };

    fn ranged(&self) {
        match self {
            Media::Photo { url, width, height } => {
                url.ranged();
                width.ranged();
                height.ranged();
            },
            Media::Video { url, seconds } => {
                url.ranged();
                seconds.ranged();
            },
            Media::Link(a) => a.ranged(),
        }
    }
}

impl RoundTrip for Media {
    fn round_trips() {
        enum_round_trips::<Media, MediaCases>()
    }
}
