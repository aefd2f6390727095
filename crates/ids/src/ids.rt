//! The types of `ids.rs`, with the impls that `./derive` writes.
ghost use Rattle.miniserde.specs.Events.{IsStringEvent};
ghost use Rattle.miniserde.specs.FieldsMeaning.{struct_meaning};
ghost use Rattle.miniserde.specs.Newtypes.{text_value_meaning};
ghost use Rattle.miniserde.specs.Place.{wrapper_meaning};
ghost use Rattle.miniserde.specs.Structs.{names_of, record_tree};
ghost use Rattle.miniserde.specs.Tree.{str};
ghost use Rattle.std.specs.Prelude.{◌≡◌, Some, refl};

use miniserde::derived::{
    Deserialize, Error, Event, FromJson, Global, Leaf, LeafPlace, Lossless, NeverNull, NoSlot,
    Parts, Ranged, Record, Result, RoundTrip, Serialize, Slot, Slots, Source, Stable, Step,
    TextValue, Visitor, Writer, WrittenFields, read_leaf, read_record, record_lossless,
    record_round_trips, record_stable, text_value_from_step, text_value_round_trips,
    write_members_in_order, write_text_value,
};
use uuid::Uuid;

/// The identifier of an account: a UUID, read in each of its four text forms, and written in hyphenated lower case.
#[derive(Clone, Copy, Drop)]
pub struct AccountId(pub Uuid);

impl Leaf for AccountId {
    ghost means = { text_value_meaning ⟦<AccountId as TextValue>⟧.parsed ⟦<AccountId as TextValue>⟧.content };

    ghost only_leaves = { (λ ts. refl, λ ms. refl) };

    ghost read_infallible = { ⟦<AccountId as TextValue>⟧.parse_infallible };

    ghost lacking = { IsStringEvent };

    fn from_step(alloc: Global, event: Step<'_>) -> Result<AccountId> {
        text_value_from_step(alloc, event)
    }
}

impl FromJson for AccountId {
    ghost means = { ⟦<AccountId as Leaf>⟧.means };

    ghost read_infallible = { ⟦<AccountId as TextValue>⟧.parse_infallible };

    ghost lacking = { λ event _ _. IsStringEvent event };

    fn missing() -> Option<AccountId> {
        None
    }

    fn read<'a>(token: Event<'a>, source: &mut Source<'a>) -> Result<AccountId> {
        read_leaf(token, source)
    }
}

impl Serialize for AccountId {
    ghost tree = { λ v. str (⟦<AccountId as TextValue>⟧.text (⟦<AccountId as TextValue>⟧.content v)) };

    fn begin(&self, w: &mut Writer) -> Result<()> {
        write_text_value(self, w)
    }
}

impl Ranged for AccountId {
    ghost valid = { λ v. ⟦<AccountId as TextValue>⟧.parsed (⟦<AccountId as TextValue>⟧.text
        (⟦<AccountId as TextValue>⟧.content v)) ≡ Some (⟦<AccountId as TextValue>⟧.content v) };

    fn ranged(&self) {
        self.is_read_back()
    }
}

impl RoundTrip for AccountId {
    fn round_trips() {
        text_value_round_trips::<AccountId>()
    }
}

impl Lossless for AccountId {
    fn lossless() {}
}

impl NeverNull for AccountId {
    fn never_null() {}
}

impl Stable for AccountId {
    fn stable() {}
}

/// The place of a `AccountId`.
#[derive(Drop)]
pub struct AccountIdPlace {
    place: LeafPlace<AccountId>,
}

impl Visitor for AccountIdPlace {
    type Out = AccountId;

    ghost meaning = { wrapper_meaning (λ p. p.place) ⟦<LeafPlace<AccountId> as Visitor>⟧.meaning };

    fn begin(alloc: Global) -> Result<AccountIdPlace> {
        Ok(AccountIdPlace {
            place: <LeafPlace<AccountId> as Visitor>::begin(alloc)?,
        })
    }

    fn step(&mut self, event: Step<'_>) -> Result<()> {
        self.place.step(event)
    }

    fn refuse(&mut self, error: Error) -> Error {
        self.place.refuse(error)
    }

    fn is_complete(&self) -> bool {
        self.place.is_complete()
    }

    fn take(self) -> Result<AccountId> {
        let AccountIdPlace { place } = self;
        place.take()
    }
}

impl Deserialize for AccountId {
    type Place = AccountIdPlace;

    fn tied() {}
}

/// An account.
#[derive(Drop)]
pub struct Account {
    pub id: AccountId,
    pub name: String,
    pub parent: Option<AccountId>,
}

// Its fields, and their names.
type AccountFields = Slot<AccountId, Slot<String, Slot<Option<AccountId>, NoSlot>>>;

const ACCOUNT_NAMES: &[&str] = &["id", "name", "parent"];

impl Record for Account {
    ghost use Rattle.ids.specs.declared.ids.TheConstants.{ACCOUNT_NAMES};

    type Values = <AccountFields as Slots>::Values;

    ghost names = { names_of ACCOUNT_NAMES };

    ghost values = { λ v. (v.id, (v.name, (v.parent, tt))) };

    ghost made = { λ x. record { id = x.0; name = x.1.0; parent = x.1.1.0 } };

    ghost bijective = { (λ v. refl, λ x. refl) };

    ghost distinct_names = { refl };

    fn names() -> &'static [&'static str] {
        ACCOUNT_NAMES
    }

    fn build(parts: Self::Values) -> Account {
        let Parts(id, Parts(name, Parts(parent, ()))) = parts;
        Account { id, name, parent }
    }
}

impl FromJson for Account {
    ghost means = { struct_meaning ⟦<AccountFields as Slots>⟧.meaning ⟦<Account as Record>⟧.names
        ⟦<Account as Record>⟧.values };

    fn missing() -> Option<Account> {
        None
    }

    fn read<'a>(token: Event<'a>, source: &mut Source<'a>) -> Result<Account> {
        read_record::<Account, AccountFields>(token, source)
    }
}

impl Serialize for Account {
    ghost tree = { record_tree ⟦<Account as Record>⟧.names ⟦<AccountFields as WrittenFields>⟧.trees
        ⟦<Account as Record>⟧.values };

    fn begin(&self, w: &mut Writer) -> Result<()> {
        write_members_in_order(
            w,
            ACCOUNT_NAMES,
            &Parts(&self.id, Parts(&self.name, Parts(&self.parent, ()))),
        )
    }
}

impl Ranged for Account {
    ghost valid = { λ v. ⟦<AccountFields as WrittenFields>⟧.valid (⟦<Account as Record>⟧.values v) };

    fn ranged(&self) {
        self.id.ranged();
        self.name.ranged();
        self.parent.ranged();
    }
}

impl RoundTrip for Account {
    fn round_trips() {
        record_round_trips::<Account, AccountFields>()
    }
}

impl Lossless for Account {
    fn lossless() {
        record_lossless::<Account, AccountFields>()
    }
}

impl NeverNull for Account {
    fn never_null() {}
}

impl Stable for Account {
    fn stable() {
        record_stable::<Account, AccountFields>()
    }
}
