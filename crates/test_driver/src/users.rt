//! The types of `users.rs`, with the impls that `./derive` writes.
ghost use Rattle.miniserde.specs.FieldsMeaning.{struct_meaning};
ghost use Rattle.miniserde.specs.Structs.{names_of, record_tree};
ghost use Rattle.std.specs.Prelude.{refl};

use miniserde::derived::{
    Event, FourLent, FourParts, FourSlot, FromJson, NoSlot, Parts, Ranged, Record, Result,
    RoundTrip, Serialize, Slot, Slots, Source, Writer, WrittenFields, read_record,
    record_round_trips, take_four, write_members,
};

/// Who writes posts.
#[derive(Drop)]
pub struct User {
    pub id: u64,
    pub name: String,
    pub screen_name: String,
    pub followers_count: u32,
    pub verified: bool,
    pub description: String,
    pub url: Option<String>,
}

// Its fields, and their names.
type UserFields = FourSlot<
    u64,
    String,
    String,
    u32,
    Slot<bool, Slot<String, Slot<Option<String>, NoSlot>>>,
>;

const USER_NAMES: &[&str] = &[
    "id",
    "name",
    "screen_name",
    "followers_count",
    "verified",
    "description",
    "url",
];

impl Record for User {
    ghost use Rattle.test_driver.specs.declared.users.TheConstants.{USER_NAMES};

    type Values = <UserFields as Slots>::Values;

    ghost names = { names_of USER_NAMES };

    ghost values = { λ v. (
      v.id,
      (
        v.name,
        (
          v.screen_name,
          (
            v.followers_count,
            (
              v.verified,
              (v.description, (v.url, tt)),
            ),
          ),
        ),
      ),
    ) };

    ghost made = { λ x. record {
      id = x.0;
      name = x.1.0;
      screen_name = x.1.1.0;
      followers_count = x.1.1.1.0;
      verified = x.1.1.1.1.0;
      description = x.1.1.1.1.1.0;
      url = x.1.1.1.1.1.1.0;
    } };

    ghost bijective = { (λ v. refl, λ x. refl) };

    ghost distinct_names = { refl };

    fn names() -> &'static [&'static str] {
        USER_NAMES
    }

    fn build(parts: Self::Values) -> User {
        let FourParts(id, name, screen_name, followers_count, parts) = take_four(parts);
        let Parts(verified, Parts(description, Parts(url, ()))) = parts;
        User {
            id,
            name,
            screen_name,
            followers_count,
            verified,
            description,
            url,
        }
    }
}

impl FromJson for User {
    ghost means = { struct_meaning ⟦<UserFields as Slots>⟧.meaning ⟦<User as Record>⟧.names ⟦<User as Record>⟧.values };

    fn missing() -> Option<User> {
        None
    }

    fn read<'a>(token: Event<'a>, source: &mut Source<'a>) -> Result<User> {
        read_record::<User, UserFields>(token, source)
    }
}

impl Serialize for User {
    ghost tree = { record_tree ⟦<User as Record>⟧.names ⟦<UserFields as WrittenFields>⟧.trees ⟦<User as Record>⟧.values };

    fn begin(&self, w: &mut Writer) -> Result<()> {
        write_members(
            w,
            USER_NAMES,
            &FourLent(
                &self.id,
                &self.name,
                &self.screen_name,
                &self.followers_count,
                Parts(
                    &self.verified,
                    Parts(&self.description, Parts(&self.url, ())),
                ),
            ),
        )
    }
}

impl Ranged for User {
    ghost valid = { λ v. ⟦<UserFields as WrittenFields>⟧.valid (⟦<User as Record>⟧.values v) };

    fn ranged(&self) {
        self.id.ranged();
        self.name.ranged();
        self.screen_name.ranged();
        self.followers_count.ranged();
        self.verified.ranged();
        self.description.ranged();
        self.url.ranged();
    }
}

impl RoundTrip for User {
    fn round_trips() {
        record_round_trips::<User, UserFields>()
    }
}
