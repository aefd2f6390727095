//! The types of `forms.rs`, with the impls that `./derive` writes.
ghost use Rattle.miniserde.specs.ExactKeys.{text-exact, bool-exact, char-exact};
ghost use Rattle.miniserde.specs.KeyLaws.{i32_key_laws, bool_key_laws, char_key_laws};
ghost use Rattle.miniserde.specs.Meanings.{box_meaning};
ghost use Rattle.miniserde.specs.Newtypes.{checked_meaning, same_meaning};
ghost use Rattle.std.specs.Prelude.{◌≡◌, true, option_map, refl};
ghost use Rattle.test_newtypes.specs.Checks.{is_celsius};

use crate::checks::is_celsius;
use miniserde::derived::{
    Checked, Event, ExactKey, FromJson, Global, InjectiveKey, Lossless, MapKey, Ranged, Result,
    RoundTrip, Serialize, Source, Transparent, Writer, checked_round_trips, read_checked,
    transparent_round_trips,
};

/// A temperature.
#[derive(PartialEq, Clone, Copy, Drop)]
pub struct Celsius {
    value: i16,
    pub ghost checked: { is_celsius value ≡ true },
}

impl Checked for Celsius {
    type Inner = i16;

    ghost inner = { λ v. v.value };

    ghost means = { ⟦<i16 as FromJson>⟧.means };

    ghost accepts = { is_celsius };

    ghost same = { same_meaning ⟦<i16 as FromJson>⟧.means };

    fn new(value: i16) -> Option<Celsius> {
        if is_celsius(value) {
            Some(Celsius { value })
        } else {
            None
        }
    }

    fn get(&self) -> &i16 {
        &self.value
    }
}

impl FromJson for Celsius {
    ghost means = { checked_meaning ⟦<i16 as FromJson>⟧.means is_celsius (λ v. v.value) };

    ghost read_infallible = { ⟦<i16 as FromJson>⟧.read_infallible };

    ghost lacking = { ⟦<i16 as FromJson>⟧.lacking };

    fn missing() -> Option<Celsius> {
        None
    }

    fn read<'a>(token: Event<'a>, source: &mut Source<'a>) -> Result<Celsius> {
        read_checked(token, source)
    }
}

impl Serialize for Celsius {
    ghost tree = { λ v. ⟦<i16 as Serialize>⟧.tree v.value };

    fn begin(&self, w: &mut Writer) -> Result<()> {
        self.value.begin(w)
    }
}

impl Ranged for Celsius {
    ghost valid = { λ v. ⟦<i16 as Ranged>⟧.valid v.value × (is_celsius v.value ≡ true) };

    fn ranged(&self) {
        self.value.ranged()
    }
}

impl RoundTrip for Celsius {
    fn round_trips() {
        checked_round_trips::<i16, Celsius>()
    }
}

/// How far a thing lies from a point.
#[derive(PartialEq, Eq, PartialOrd, Ord, Drop)]
pub struct Offset(pub i32);

impl Transparent for Offset {
    type Inner = i32;

    ghost inner = { λ v. v.0 };

    ghost wrapped = { λ x. record { 0 = x } };

    ghost unwraps = { λ x. refl };
}

impl FromJson for Offset {
    ghost means = { box_meaning ⟦<i32 as FromJson>⟧.means (λ v. v.0) };

    ghost read_infallible = { ⟦<i32 as FromJson>⟧.read_infallible };

    ghost lacking = { ⟦<i32 as FromJson>⟧.lacking };

    fn missing() -> Option<Offset> {
        None
    }

    fn read<'a>(token: Event<'a>, source: &mut Source<'a>) -> Result<Offset> {
        Ok(Offset(<i32 as FromJson>::read(token, source)?))
    }
}

impl Serialize for Offset {
    ghost tree = { λ v. ⟦<i32 as Serialize>⟧.tree v.0 };

    fn begin(&self, w: &mut Writer) -> Result<()> {
        self.0.begin(w)
    }
}

impl Ranged for Offset {
    ghost valid = { λ v. ⟦<i32 as Ranged>⟧.valid v.0 };

    fn ranged(&self) {
        self.0.ranged()
    }
}

impl RoundTrip for Offset {
    fn round_trips() {
        transparent_round_trips::<i32, Offset>()
    }
}

impl MapKey for Offset {
    ghost content = { λ v. ⟦<i32 as MapKey>⟧.content v.0 };

    ghost read = { ⟦<i32 as MapKey>⟧.read };

    ghost text = { λ v. ⟦<i32 as MapKey>⟧.text v.0 };

    ghost from_key_infallible = { ⟦<i32 as MapKey>⟧.from_key_infallible };

    ghost alike = { λ a b. i32_key_laws.alike a.0 b.0 };

    ghost back = { λ v r. (v, r, (i32_key_laws.back v.0 r), refl) };

    ghost one_text = { λ a b. i32_key_laws.one_text a.0 b.0 };

    fn from_key(alloc: Global, k: &str) -> Result<Offset> {
        Ok(Offset(<i32 as MapKey>::from_key(alloc, k)?))
    }

    fn to_key(&self, out: &mut String) -> Result<()> {
        self.0.to_key(out)
    }
}

impl InjectiveKey for Offset {
    ghost injective = { λ a b e. e };
}

/// A name.
#[derive(Clone, Hash, Debug, PartialEq, Eq, PartialOrd, Ord, Drop)]
pub struct Name(pub String);

impl Transparent for Name {
    type Inner = String;

    ghost inner = { λ v. v.0 };

    ghost wrapped = { λ x. record { 0 = x } };

    ghost unwraps = { λ x. refl };
}

impl FromJson for Name {
    ghost means = { box_meaning ⟦<String as FromJson>⟧.means (λ v. v.0) };

    ghost read_infallible = { ⟦<String as FromJson>⟧.read_infallible };

    ghost lacking = { ⟦<String as FromJson>⟧.lacking };

    fn missing() -> Option<Name> {
        None
    }

    fn read<'a>(token: Event<'a>, source: &mut Source<'a>) -> Result<Name> {
        Ok(Name(<String as FromJson>::read(token, source)?))
    }
}

impl Serialize for Name {
    ghost tree = { λ v. ⟦<String as Serialize>⟧.tree v.0 };

    fn begin(&self, w: &mut Writer) -> Result<()> {
        self.0.begin(w)
    }
}

impl Ranged for Name {
    ghost valid = { λ v. ⟦<String as Ranged>⟧.valid v.0 };

    fn ranged(&self) {
        self.0.ranged()
    }
}

impl RoundTrip for Name {
    fn round_trips() {
        transparent_round_trips::<String, Name>()
    }
}

impl MapKey for Name {
    ghost content = { λ v. ⟦<String as MapKey>⟧.content v.0 };

    ghost read = { ⟦<String as MapKey>⟧.read };

    ghost text = { λ v. ⟦<String as MapKey>⟧.text v.0 };

    ghost from_key_infallible = { ⟦<String as MapKey>⟧.from_key_infallible };

    ghost alike = { λ a b. refl };

    ghost back = { λ v r. (v, r, refl, refl) };

    ghost one_text = { λ a b e. e };

    fn from_key(alloc: Global, k: &str) -> Result<Name> {
        Ok(Name(<String as MapKey>::from_key(alloc, k)?))
    }

    fn to_key(&self, out: &mut String) -> Result<()> {
        self.0.to_key(out)
    }
}

impl InjectiveKey for Name {
    ghost injective = { λ a b e. e };
}

impl ExactKey for Name {
    ghost one_name = { text-exact };
}

/// A yes or a no.
#[derive(PartialEq, Eq, PartialOrd, Ord, Drop)]
pub struct Flag(pub bool);

impl Transparent for Flag {
    type Inner = bool;

    ghost inner = { λ v. v.0 };

    ghost wrapped = { λ x. record { 0 = x } };

    ghost unwraps = { λ x. refl };
}

impl FromJson for Flag {
    ghost means = { box_meaning ⟦<bool as FromJson>⟧.means (λ v. v.0) };

    ghost read_infallible = { ⟦<bool as FromJson>⟧.read_infallible };

    ghost lacking = { ⟦<bool as FromJson>⟧.lacking };

    fn missing() -> Option<Flag> {
        None
    }

    fn read<'a>(token: Event<'a>, source: &mut Source<'a>) -> Result<Flag> {
        Ok(Flag(<bool as FromJson>::read(token, source)?))
    }
}

impl Serialize for Flag {
    ghost tree = { λ v. ⟦<bool as Serialize>⟧.tree v.0 };

    fn begin(&self, w: &mut Writer) -> Result<()> {
        self.0.begin(w)
    }
}

impl Ranged for Flag {
    ghost valid = { λ v. ⟦<bool as Ranged>⟧.valid v.0 };

    fn ranged(&self) {
        self.0.ranged()
    }
}

impl RoundTrip for Flag {
    fn round_trips() {
        transparent_round_trips::<bool, Flag>()
    }
}

impl MapKey for Flag {
    ghost content = { λ v. ⟦<bool as MapKey>⟧.content v.0 };

    ghost read = { ⟦<bool as MapKey>⟧.read };

    ghost text = { λ v. ⟦<bool as MapKey>⟧.text v.0 };

    ghost from_key_infallible = { ⟦<bool as MapKey>⟧.from_key_infallible };

    ghost alike = { λ a b. bool_key_laws.alike a.0 b.0 };

    ghost back = { λ v r. (v, r, (bool_key_laws.back v.0 r), refl) };

    ghost one_text = { λ a b. bool_key_laws.one_text a.0 b.0 };

    fn from_key(alloc: Global, k: &str) -> Result<Flag> {
        Ok(Flag(<bool as MapKey>::from_key(alloc, k)?))
    }

    fn to_key(&self, out: &mut String) -> Result<()> {
        self.0.to_key(out)
    }
}

impl InjectiveKey for Flag {
    ghost injective = { λ a b e. e };
}

impl ExactKey for Flag {
    ghost one_name = { bool-exact };
}

/// The first letter of a name.
#[derive(PartialEq, Eq, PartialOrd, Ord, Drop)]
pub struct Initial(pub char);

impl Ranged for Initial {
    ghost valid = { λ v. ⟦<char as Ranged>⟧.valid v.0 };

    fn ranged(&self) {
        self.0.ranged()
    }
}

impl MapKey for Initial {
    ghost content = { λ v. ⟦<char as MapKey>⟧.content v.0 };

    ghost read = { ⟦<char as MapKey>⟧.read };

    ghost text = { λ v. ⟦<char as MapKey>⟧.text v.0 };

    ghost from_key_infallible = { ⟦<char as MapKey>⟧.from_key_infallible };

    ghost alike = { λ a b. char_key_laws.alike a.0 b.0 };

    ghost back = { λ v r. (v, r, (char_key_laws.back v.0 r), refl) };

    ghost one_text = { λ a b. char_key_laws.one_text a.0 b.0 };

    fn from_key(alloc: Global, k: &str) -> Result<Initial> {
        Ok(Initial(<char as MapKey>::from_key(alloc, k)?))
    }

    fn to_key(&self, out: &mut String) -> Result<()> {
        self.0.to_key(out)
    }
}

impl InjectiveKey for Initial {
    ghost injective = { λ a b e. e };
}

impl ExactKey for Initial {
    ghost one_name = { char-exact };
}

/// A number, or none. As a field it may be missing.
#[derive(Drop)]
pub struct Maybe(pub Option<u8>);

impl Transparent for Maybe {
    type Inner = Option<u8>;

    ghost inner = { λ v. v.0 };

    ghost wrapped = { λ x. record { 0 = x } };

    ghost unwraps = { λ x. refl };
}

impl FromJson for Maybe {
    ghost means = { box_meaning ⟦<Option<u8> as FromJson>⟧.means (λ v. v.0) };

    ghost absent = { option_map (λ v. record { 0 = v }) ⟦<Option<u8> as FromJson>⟧.absent };

    ghost read_infallible = { ⟦<Option<u8> as FromJson>⟧.read_infallible };

    ghost lacking = { ⟦<Option<u8> as FromJson>⟧.lacking };

    fn missing() -> Option<Maybe> {
        Some(Maybe(<Option<u8> as FromJson>::missing()?))
    }

    fn read<'a>(token: Event<'a>, source: &mut Source<'a>) -> Result<Maybe> {
        Ok(Maybe(<Option<u8> as FromJson>::read(token, source)?))
    }
}

impl Serialize for Maybe {
    ghost tree = { λ v. ⟦<Option<u8> as Serialize>⟧.tree v.0 };

    fn begin(&self, w: &mut Writer) -> Result<()> {
        self.0.begin(w)
    }
}

impl Ranged for Maybe {
    ghost valid = { λ v. ⟦<Option<u8> as Ranged>⟧.valid v.0 };

    fn ranged(&self) {
        self.0.ranged()
    }
}

impl RoundTrip for Maybe {
    fn round_trips() {
        transparent_round_trips::<Option<u8>, Maybe>()
    }
}

impl Lossless for Maybe {
    fn lossless() {
        <Option<u8> as Lossless>::lossless()
    }
}
