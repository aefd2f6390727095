//! The types of `accounts.rs`, with the impls that `./derive` writes.
ghost use Rattle.miniserde.specs.Checks.{checked_key};
ghost use Rattle.miniserde.specs.FieldsMeaning.{struct_meaning};
ghost use Rattle.miniserde.specs.KeyLaws.{u64_key_laws, checked-back, checked-exact};
ghost use Rattle.miniserde.specs.Meanings.{box_meaning};
ghost use Rattle.miniserde.specs.Newtypes.{checked_meaning, same_meaning};
ghost use Rattle.miniserde.specs.PlaceMeanings.{box_place_meaning};
ghost use Rattle.miniserde.specs.Structs.{names_of, record_tree};
ghost use Rattle.std.specs.Prelude.{◌≡◌, true, option_map, string_bytes, refl};
ghost use Rattle.test_newtypes.specs.Checks.{is_slug};

use crate::checks::is_slug;
use crate::percents::Percent;
use miniserde::derived::{
    Checked, Deserialize, Error, Event, ExactKey, FourParts, FromJson, Global, InjectiveKey,
    Lossless, MapKey, NeverNull, NoSlot, OmitSlot, Omitted, Parts, Plain, Ranged, Record, Result,
    RoundTrip, Serialize, Slot, Slots, Source, Stable, Step, Transparent, Visitor, Writer,
    WrittenFields, checked_lossless, checked_round_trips, checked_stable, read_checked,
    read_record, record_lossless, record_round_trips, take_four, transparent_round_trips,
    write_members,
};
use std::alloc::AllocError;
use std::collections::BTreeMap;

/// The number of a user.
#[derive(Clone, Copy, Debug, PartialEq, Eq, PartialOrd, Ord, Drop)]
pub struct UserId(pub u64);

impl Transparent for UserId {
    type Inner = u64;

    ghost inner = { λ v. v.0 };

    ghost wrapped = { λ x. record { 0 = x } };

    ghost unwraps = { λ x. refl };
}

impl FromJson for UserId {
    ghost means = { box_meaning ⟦<u64 as FromJson>⟧.means (λ v. v.0) };

    ghost read_infallible = { ⟦<u64 as FromJson>⟧.read_infallible };

    ghost lacking = { ⟦<u64 as FromJson>⟧.lacking };

    fn missing() -> Option<UserId> {
        None
    }

    fn read<'a>(token: Event<'a>, source: &mut Source<'a>) -> Result<UserId> {
        Ok(UserId(<u64 as FromJson>::read(token, source)?))
    }
}

impl Serialize for UserId {
    ghost tree = { λ v. ⟦<u64 as Serialize>⟧.tree v.0 };

    fn begin(&self, w: &mut Writer) -> Result<()> {
        self.0.begin(w)
    }
}

impl Ranged for UserId {
    ghost valid = { λ v. ⟦<u64 as Ranged>⟧.valid v.0 };

    fn ranged(&self) {
        self.0.ranged()
    }
}

impl RoundTrip for UserId {
    fn round_trips() {
        transparent_round_trips::<u64, UserId>()
    }
}

impl Lossless for UserId {
    fn lossless() {
        <u64 as Lossless>::lossless()
    }
}

impl NeverNull for UserId {
    fn never_null() {
        <u64 as NeverNull>::never_null()
    }
}

impl Stable for UserId {
    fn stable() {
        <u64 as Stable>::stable()
    }
}

impl MapKey for UserId {
    ghost content = { λ v. ⟦<u64 as MapKey>⟧.content v.0 };

    ghost read = { ⟦<u64 as MapKey>⟧.read };

    ghost text = { λ v. ⟦<u64 as MapKey>⟧.text v.0 };

    ghost from_key_infallible = { ⟦<u64 as MapKey>⟧.from_key_infallible };

    ghost alike = { λ a b. u64_key_laws.alike a.0 b.0 };

    ghost back = { λ v r. (v, r, (u64_key_laws.back v.0 r), refl) };

    ghost one_text = { λ a b. u64_key_laws.one_text a.0 b.0 };

    fn from_key(alloc: Global, k: &str) -> Result<UserId> {
        Ok(UserId(<u64 as MapKey>::from_key(alloc, k)?))
    }

    fn to_key(&self, out: &mut String) -> Result<()> {
        self.0.to_key(out)
    }
}

impl InjectiveKey for UserId {
    ghost injective = { λ a b e. e };
}

/// The place of a `UserId`.
#[derive(Drop)]
pub struct UserIdPlace {
    place: <u64 as Deserialize>::Place,
}

impl Visitor for UserIdPlace {
    type Out = UserId;

    ghost meaning = { box_place_meaning (λ p. p.place) (λ v. v.0) ⟦<<u64 as Deserialize>::Place as Visitor>⟧.meaning };

    ghost further = { λ old e answer new. ⟦<<u64 as Deserialize>::Place as Visitor>⟧.further
        old.place e answer new.place };

    fn begin(alloc: Global) -> Result<UserIdPlace> {
        Ok(UserIdPlace {
            place: <<u64 as Deserialize>::Place as Visitor>::begin(alloc)?,
        })
    }

    fn step(&mut self, event: Step<'_>) -> Result<()> {
        self.place.step(event)
    }

    fn refuse(&mut self, error: Error) -> Error {
        self.place.refuse(error)
    }

    fn is_complete(&self) -> bool {
        self.place.is_complete()
    }

    fn take(self) -> Result<UserId> {
        let UserIdPlace { place } = self;
        Ok(UserId(place.take()?))
    }
}

impl Deserialize for UserId {
    type Place = UserIdPlace;

    fn tied() {
        <u64 as Deserialize>::tied()
    }
}

/// A name in an address.
#[derive(Debug, PartialEq, Eq, PartialOrd, Ord, Drop)]
pub struct Slug {
    value: String,
    pub ghost checked: { is_slug (string_bytes value) ≡ true },
}

impl Checked for Slug {
    type Inner = String;

    ghost inner = { λ v. v.value };

    ghost means = { ⟦<String as FromJson>⟧.means };

    ghost accepts = { is_slug };

    ghost same = { same_meaning ⟦<String as FromJson>⟧.means };

    fn new(value: String) -> Option<Slug> {
        if is_slug(value.as_str()) {
            Some(Slug { value })
        } else {
            None
        }
    }

    fn get(&self) -> &String {
        &self.value
    }
}

impl Clone for Slug {
    ghost is_clone = { λ s t. string_bytes t.value ≡ string_bytes s.value };

    fn clone(&self) -> std::result::Result<Slug, AllocError> {
        Ok(Slug {
            value: self.value.clone()?,
        })
    }
}

impl FromJson for Slug {
    ghost means = { checked_meaning ⟦<String as FromJson>⟧.means is_slug (λ v. v.value) };

    ghost read_infallible = { ⟦<String as FromJson>⟧.read_infallible };

    ghost lacking = { ⟦<String as FromJson>⟧.lacking };

    fn missing() -> Option<Slug> {
        None
    }

    fn read<'a>(token: Event<'a>, source: &mut Source<'a>) -> Result<Slug> {
        read_checked(token, source)
    }
}

impl Serialize for Slug {
    ghost tree = { λ v. ⟦<String as Serialize>⟧.tree v.value };

    fn begin(&self, w: &mut Writer) -> Result<()> {
        self.value.begin(w)
    }
}

impl Ranged for Slug {
    ghost valid = { λ v. ⟦<String as Ranged>⟧.valid v.value × (is_slug (string_bytes v.value) ≡
        true) };

    fn ranged(&self) {
        self.value.ranged()
    }
}

impl RoundTrip for Slug {
    fn round_trips() {
        checked_round_trips::<String, Slug>()
    }
}

impl Lossless for Slug {
    fn lossless() {
        checked_lossless::<String, Slug>()
    }
}

impl NeverNull for Slug {
    fn never_null() {
        <String as NeverNull>::never_null()
    }
}

impl Stable for Slug {
    fn stable() {
        checked_stable::<String, Slug>()
    }
}

impl MapKey for Slug {
    ghost content = { λ v. ⟦<String as MapKey>⟧.content v.value };

    ghost read = { checked_key is_slug ⟦<String as MapKey>⟧.read };

    ghost text = { λ v. ⟦<String as MapKey>⟧.text v.value };

    ghost from_key_infallible = { ⟦<String as MapKey>⟧.from_key_infallible };

    ghost alike = { λ a b. refl };

    ghost back = { λ v r. (v, r, (checked-back is_slug _ _ refl r.1), refl) };

    ghost one_text = { λ a b e. e };

    fn from_key(alloc: Global, k: &str) -> Result<Slug> {
        match Slug::new(<String as MapKey>::from_key(alloc, k)?) {
            Some(key) => Ok(key),
            None => Err(Error::Invalid),
        }
    }

    fn to_key(&self, out: &mut String) -> Result<()> {
        self.value.to_key(out)
    }
}

impl InjectiveKey for Slug {
    ghost injective = { λ a b e. e };
}

impl ExactKey for Slug {
    ghost one_name = { checked-exact is_slug };
}

/// A value of a type of its own.
#[derive(PartialEq, Eq, PartialOrd, Ord, Drop)]
pub struct Tagged<T>(pub T);

impl<T> Transparent for Tagged<T> {
    type Inner = T;

    ghost inner = { λ v. v.0 };

    ghost wrapped = { λ x. record { 0 = x } };

    ghost unwraps = { λ x. refl };
}

impl<T: FromJson> FromJson for Tagged<T> {
    ghost means = { box_meaning T.means (λ v. v.0) };

    ghost absent = { option_map (λ v. record { 0 = v }) T.absent };

    ghost read_infallible = { T.read_infallible };

    ghost lacking = { T.lacking };

    fn missing() -> Option<Tagged<T>> {
        Some(Tagged(<T as FromJson>::missing()?))
    }

    fn read<'a>(token: Event<'a>, source: &mut Source<'a>) -> Result<Tagged<T>> {
        Ok(Tagged(<T as FromJson>::read(token, source)?))
    }
}

impl<T: Serialize> Serialize for Tagged<T> {
    ghost tree = { λ v. T.tree v.0 };

    fn begin(&self, w: &mut Writer) -> Result<()> {
        self.0.begin(w)
    }
}

impl<T: Ranged> Ranged for Tagged<T> {
    ghost valid = { λ v. T.valid v.0 };

    fn ranged(&self) {
        self.0.ranged()
    }
}

impl<T: RoundTrip> RoundTrip for Tagged<T> {
    fn round_trips() {
        transparent_round_trips::<T, Tagged<T>>()
    }
}

impl<T: Lossless> Lossless for Tagged<T> {
    fn lossless() {
        <T as Lossless>::lossless()
    }
}

impl<T: NeverNull> NeverNull for Tagged<T> {
    fn never_null() {
        <T as NeverNull>::never_null()
    }
}

impl<T: Stable> Stable for Tagged<T> {
    fn stable() {
        <T as Stable>::stable()
    }
}

impl<T: MapKey> MapKey for Tagged<T> {
    ghost content = { λ v. T.content v.0 };

    ghost code = { T.code };

    ghost read = { T.read };

    ghost text = { λ v. T.text v.0 };

    ghost from_key_infallible = { T.from_key_infallible };

    ghost alike = { λ a b. T.alike a.0 b.0 };

    ghost back = { λ v r. let h = T.back v.0 r in (record { 0 = h.0 }, h.1, h.2, h.3) };

    ghost one_text = { λ a b. T.one_text a.0 b.0 };

    fn from_key(alloc: Global, k: &str) -> Result<Tagged<T>> {
        Ok(Tagged(<T as MapKey>::from_key(alloc, k)?))
    }

    fn to_key(&self, out: &mut String) -> Result<()> {
        self.0.to_key(out)
    }
}

impl<T: InjectiveKey> InjectiveKey for Tagged<T> {
    ghost injective = { λ a b. T.injective a.0 b.0 };
}

impl<T: ExactKey> ExactKey for Tagged<T> {
    ghost one_name = { T.one_name };
}

/// An account, with the shares of its users.
#[derive(Drop)]
pub struct Account {
    pub owner: UserId,
    pub slug: Slug,
    pub fee: Option<Percent>,
    pub shares: BTreeMap<UserId, Percent>,
}

// Its fields, and their names.
type AccountFields = Slot<
    UserId,
    Slot<Slug, OmitSlot<Percent, Plain, Slot<BTreeMap<UserId, Percent>, NoSlot>>>,
>;

const ACCOUNT_NAMES: &[&str] = &["owner", "slug", "fee", "shares"];

impl Record for Account {
    ghost use Rattle.test_newtypes.specs.declared.accounts.TheConstants.{ACCOUNT_NAMES};

    type Values = <AccountFields as Slots>::Values;

    ghost names = { names_of ACCOUNT_NAMES };

    ghost values = { λ v. (v.owner, (v.slug, (v.fee, (v.shares, tt)))) };

    ghost made = { λ x. record { owner = x.0; slug = x.1.0; fee = x.1.1.0; shares = x.1.1.1.0 } };

    ghost bijective = { (λ v. refl, λ x. refl) };

    ghost distinct_names = { refl };

    fn names() -> &'static [&'static str] {
        ACCOUNT_NAMES
    }

    fn build(parts: Self::Values) -> Account {
        let FourParts(owner, slug, fee, shares, ()) = take_four(parts);
        Account {
            owner,
            slug,
            fee,
            shares,
        }
    }
}

impl FromJson for Account {
    ghost means = { struct_meaning ⟦<AccountFields as Slots>⟧.meaning ⟦<Account as Record>⟧.names
        ⟦<Account as Record>⟧.values };

    fn missing() -> Option<Account> {
        None
    }

    fn read<'a>(token: Event<'a>, source: &mut Source<'a>) -> Result<Account> {
        read_record::<Account, AccountFields>(token, source)
    }
}

impl Serialize for Account {
    ghost tree = { record_tree ⟦<Account as Record>⟧.names ⟦<AccountFields as WrittenFields>⟧.trees
        ⟦<Account as Record>⟧.values };

    fn begin(&self, w: &mut Writer) -> Result<()> {
        write_members(
            w,
            ACCOUNT_NAMES,
            &Parts(
                &self.owner,
                Parts(
                    &self.slug,
                    Parts(Omitted(&self.fee), Parts(&self.shares, ())),
                ),
            ),
        )
    }
}

impl Ranged for Account {
    ghost valid = { λ v. ⟦<AccountFields as WrittenFields>⟧.valid (⟦<Account as Record>⟧.values v) };

    fn ranged(&self) {
        self.owner.ranged();
        self.slug.ranged();
        self.fee.ranged();
        self.shares.ranged();
    }
}

impl RoundTrip for Account {
    fn round_trips() {
        record_round_trips::<Account, AccountFields>()
    }
}

impl Lossless for Account {
    fn lossless() {
        record_lossless::<Account, AccountFields>()
    }
}

impl NeverNull for Account {
    fn never_null() {}
}
