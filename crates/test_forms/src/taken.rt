//! The types of `taken.rs`, with the impls that `./derive` writes.
ghost use Rattle.miniserde.specs.Cases.{each_case, enum_tree, first_case as json_first_case, later_case, any_of_never, tagged_tree};
ghost use Rattle.miniserde.specs.CasesMeaning.{enum_meaning, tagged_meaning};
ghost use Rattle.miniserde.specs.FieldsMeaning.{struct_meaning};
ghost use Rattle.miniserde.specs.KeyLaws.{u8_key_laws};
ghost use Rattle.miniserde.specs.Meanings.{box_meaning};
ghost use Rattle.miniserde.specs.Place.{wrapper_meaning};
ghost use Rattle.miniserde.specs.Structs.{names_of, record_tree};
ghost use Rattle.miniserde.specs.Tree.{nonneg, str};
ghost use Rattle.std.specs.Prelude.{true, codes, [], ◌∷◌, ⊤, option_map, refl as json_refl};

use miniserde::derived::{
    BesideTag, Cases, DataCase, DataEnum, Deserialize, Error as JsonError, Event as JsonEvent,
    ExactKey, Field, FourLent, FourParts, FourSlot, Fragment, FromJson, Given, Global, HasTag,
    InjectiveKey, Inside, InsideCases, Lossless, MapKey, MarkedSlot, Members, NamePlace, NeverNull,
    NoCase, NoField, NoFields, NoSlot, OmitSlot, Omitted, OneOf, Parts, PlacedRecord, Plain,
    Ranged, Record as JsonRecord, RecordPlace, Result as JsonResult, RoundTrip, Serialize,
    Slot as JsonSlot, Slots, Source as JsonSource, Stable, Step as JsonStep, Transparent, UnitCase,
    UnitEnum, Variants, Visitor, WithDefault, Writer as JsonWriter, WrittenCases, WrittenFields,
    enum_lossless, enum_round_trips, enum_stable, fields_named, read_enum, read_record,
    read_tagged, read_variant, record_lossless, record_round_trips, record_stable, tag_fits,
    tagged_lossless, tagged_round_trips, take_four as json_take_four, transparent_round_trips,
    variant_lossless, variant_round_trips, variant_stable, write_data,
    write_fields as json_write_fields, write_members, write_members_in_order, write_tagged_fields,
};

/// Something that happened. Its fields have names that derived functions bind.
#[derive(Drop)]
pub struct Event {
    pub source: u64,
    pub w: String,
}

// Its fields, and their names.
type JsonEventFields = JsonSlot<u64, JsonSlot<String, NoSlot>>;

const EVENT_NAMES: &[&str] = &["source", "w"];

impl JsonRecord for Event {
    ghost use Rattle.test_forms.specs.declared.taken.TheConstants.{EVENT_NAMES};

    type Values = <JsonEventFields as Slots>::Values;

    ghost names = { names_of EVENT_NAMES };

    ghost values = { λ json_v. (json_v.source, (json_v.w, tt)) };

    ghost made = { λ json_x. record { source = json_x.0; w = json_x.1.0 } };

    ghost bijective = { (λ json_v. json_refl, λ json_x. json_refl) };

    ghost distinct_names = { json_refl };

    fn names() -> &'static [&'static str] {
        EVENT_NAMES
    }

    fn build(parts: Self::Values) -> Event {
        let Parts(source, Parts(w, ())) = parts;
        Event { source, w }
    }
}

impl FromJson for Event {
    ghost means = { struct_meaning ⟦<JsonEventFields as Slots>⟧.meaning ⟦<Event as JsonRecord>⟧.names
        ⟦<Event as JsonRecord>⟧.values };

    fn missing() -> Option<Event> {
        None
    }

    fn read<'a>(token: JsonEvent<'a>, source: &mut JsonSource<'a>) -> JsonResult<Event> {
        read_record::<Event, JsonEventFields>(token, source)
    }
}

impl Serialize for Event {
    ghost tree = { record_tree ⟦<Event as JsonRecord>⟧.names ⟦<JsonEventFields as WrittenFields>⟧.trees
        ⟦<Event as JsonRecord>⟧.values };

    fn begin(&self, w: &mut JsonWriter) -> JsonResult<()> {
        write_members_in_order(w, EVENT_NAMES, &Parts(&self.source, Parts(&self.w, ())))
    }
}

impl Ranged for Event {
    ghost valid = { λ json_v. ⟦<JsonEventFields as WrittenFields>⟧.valid (⟦<Event as JsonRecord>⟧.values json_v) };

    fn ranged(&self) {
        self.source.ranged();
        self.w.ranged();
    }
}

impl RoundTrip for Event {
    fn round_trips() {
        record_round_trips::<Event, JsonEventFields>()
    }
}

impl Lossless for Event {
    fn lossless() {
        record_lossless::<Event, JsonEventFields>()
    }
}

impl NeverNull for Event {
    fn never_null() {}
}

impl Stable for Event {
    fn stable() {
        record_stable::<Event, JsonEventFields>()
    }
}

/// The place of a `Event`.
#[derive(Drop)]
pub struct EventPlace {
    place: RecordPlace<Event>,
}

impl PlacedRecord for Event {
    type Fields = Field<u64, Field<String, NoField>>;
}

impl Visitor for EventPlace {
    type Out = Event;

    ghost meaning = { wrapper_meaning (λ p. p.place) ⟦<RecordPlace<Event> as Visitor>⟧.meaning };

    fn begin(alloc: Global) -> JsonResult<EventPlace> {
        Ok(EventPlace {
            place: <RecordPlace<Event> as Visitor>::begin(alloc)?,
        })
    }

    fn step(&mut self, event: JsonStep<'_>) -> JsonResult<()> {
        self.place.step(event)
    }

    fn refuse(&mut self, error: JsonError) -> JsonError {
        self.place.refuse(error)
    }

    fn is_complete(&self) -> bool {
        self.place.is_complete()
    }

    fn take(self) -> JsonResult<Event> {
        let EventPlace { place } = self;
        place.take()
    }
}

impl Deserialize for Event {
    type Place = EventPlace;

    fn tied() {}
}

/// What went wrong.
#[derive(Clone, Copy, PartialEq, Eq, Debug, Drop)]
pub enum Error {
    List,
    Record,
    Step,
}

impl UnitEnum for Error {
    ghost use Rattle.test_forms.specs.declared.taken.Error.TheVariants.{List, Record, Step};

    ghost all = { List ∷ Record ∷ Step ∷ [] };

    ghost name_of = { elim [ List ↦ codes "List" | Record ↦ codes "Record" | Step ↦ codes "step" ] };

    ghost found = { elim [ List ↦ json_refl | Record ↦ json_refl | Step ↦ json_refl ] };

    fn values() -> &'static [Error] {
        &[Error::List, Error::Record, Error::Step]
    }

    fn name(&self) -> &'static str {
        match self {
            Error::List => "List",
            Error::Record => "Record",
            Error::Step => "step",
        }
    }
}

impl FromJson for Error {
    ghost means = { ⟦<Error as Variants>⟧.meaning };

    ghost read_infallible = { true };

    fn missing() -> Option<Error> {
        None
    }

    fn read<'a>(token: JsonEvent<'a>, source: &mut JsonSource<'a>) -> JsonResult<Error> {
        read_variant(token, source)
    }
}

impl Serialize for Error {
    ghost tree = { λ json_v. str (⟦<Error as UnitEnum>⟧.name_of json_v) };

    fn begin(&self, w: &mut JsonWriter) -> JsonResult<()> {
        w.fragment(Fragment::Str(self.name()))
    }
}

impl Ranged for Error {
    ghost valid = { λ _. ⊤ };

    fn ranged(&self) {}
}

impl RoundTrip for Error {
    fn round_trips() {
        variant_round_trips::<Error>()
    }
}

impl Lossless for Error {
    fn lossless() {
        variant_lossless::<Error>()
    }
}

impl NeverNull for Error {
    fn never_null() {}
}

impl Stable for Error {
    fn stable() {
        variant_stable::<Error>()
    }
}

impl Deserialize for Error {
    type Place = NamePlace<Error>;

    fn tied() {}
}

/// What is kept of an event.
#[derive(Drop)]
pub struct Record {
    pub parts: u8,
    pub alloc: Error,
    pub token: Event,
    pub take_four: bool,
    pub value: Option<u8>,
    pub names: u16,
}

/// The value of a missing `names`.
#[derive(Drop)]
pub struct RecordNamesDefault {}

impl Given<u16> for RecordNamesDefault {
    ghost given = { nonneg 3 };

    fn make(_alloc: Global) -> JsonResult<u16> {
        Ok(3)
    }
}

// Its fields, and their names.
type RecordFields = FourSlot<
    u8,
    Error,
    Event,
    bool,
    OmitSlot<u8, Plain, MarkedSlot<u16, WithDefault<RecordNamesDefault>, NoSlot>>,
>;

const RECORD_NAMES: &[&str] = &["parts", "alloc", "token", "take_four", "value", "names"];

impl JsonRecord for Record {
    ghost use Rattle.test_forms.specs.declared.taken.TheConstants.{RECORD_NAMES};

    type Values = <RecordFields as Slots>::Values;

    ghost names = { names_of RECORD_NAMES };

    ghost values = { λ json_v. (json_v.parts, (json_v.alloc, (json_v.token, (json_v.take_four, (json_v.value, (json_v.names, tt)))))) };

    ghost made = { λ json_x. record {
      parts = json_x.0;
      alloc = json_x.1.0;
      token = json_x.1.1.0;
      take_four = json_x.1.1.1.0;
      value = json_x.1.1.1.1.0;
      names = json_x.1.1.1.1.1.0;
    } };

    ghost bijective = { (λ json_v. json_refl, λ json_x. json_refl) };

    ghost distinct_names = { json_refl };

    fn names() -> &'static [&'static str] {
        RECORD_NAMES
    }

    fn build(chain: Self::Values) -> Record {
        let FourParts(parts, alloc, token, take_four, chain) = json_take_four(chain);
        let Parts(value, Parts(names, ())) = chain;
        Record {
            parts,
            alloc,
            token,
            take_four,
            value,
            names,
        }
    }
}

impl FromJson for Record {
    ghost means = { struct_meaning ⟦<RecordFields as Slots>⟧.meaning ⟦<Record as JsonRecord>⟧.names
        ⟦<Record as JsonRecord>⟧.values };

    fn missing() -> Option<Record> {
        None
    }

    fn read<'a>(token: JsonEvent<'a>, source: &mut JsonSource<'a>) -> JsonResult<Record> {
        read_record::<Record, RecordFields>(token, source)
    }
}

impl Serialize for Record {
    ghost tree = { record_tree ⟦<Record as JsonRecord>⟧.names ⟦<RecordFields as WrittenFields>⟧.trees
        ⟦<Record as JsonRecord>⟧.values };

    fn begin(&self, w: &mut JsonWriter) -> JsonResult<()> {
        write_members(
            w,
            RECORD_NAMES,
            &FourLent(
                &self.parts,
                &self.alloc,
                &self.token,
                &self.take_four,
                Parts(Omitted(&self.value), Parts(&self.names, ())),
            ),
        )
    }
}

impl Ranged for Record {
    ghost valid = { λ json_v. ⟦<RecordFields as WrittenFields>⟧.valid (⟦<Record as JsonRecord>⟧.values json_v) };

    fn ranged(&self) {
        self.parts.ranged();
        self.alloc.ranged();
        self.token.ranged();
        self.take_four.ranged();
        self.value.ranged();
        self.names.ranged();
    }
}

impl RoundTrip for Record {
    fn round_trips() {
        record_round_trips::<Record, RecordFields>()
    }
}

impl Lossless for Record {
    fn lossless() {
        record_lossless::<Record, RecordFields>()
    }
}

impl NeverNull for Record {
    fn never_null() {}
}

/// The fields of `Step::Parts`.
#[derive(Drop)]
pub struct JsonStepParts {
    pub w: u8,
    pub write_fields: bool,
}

// Its fields, and their names.
type StepPartsFields = JsonSlot<u8, JsonSlot<bool, NoSlot>>;

const STEP_PARTS_NAMES: &[&str] = &["w", "write_fields"];

impl JsonRecord for JsonStepParts {
    ghost use Rattle.test_forms.specs.declared.taken.TheConstants.{STEP_PARTS_NAMES};

    type Values = <StepPartsFields as Slots>::Values;

    ghost names = { names_of STEP_PARTS_NAMES };

    ghost values = { λ json_v. (json_v.w, (json_v.write_fields, tt)) };

    ghost made = { λ json_x. record { w = json_x.0; write_fields = json_x.1.0 } };

    ghost bijective = { (λ json_v. json_refl, λ json_x. json_refl) };

    ghost distinct_names = { json_refl };

    fn names() -> &'static [&'static str] {
        STEP_PARTS_NAMES
    }

    fn build(parts: Self::Values) -> JsonStepParts {
        let Parts(w, Parts(write_fields, ())) = parts;
        JsonStepParts { w, write_fields }
    }
}

impl FromJson for JsonStepParts {
    ghost means = { struct_meaning ⟦<StepPartsFields as Slots>⟧.meaning ⟦<JsonStepParts as JsonRecord>⟧.names ⟦<JsonStepParts as JsonRecord>⟧.values };

    fn missing() -> Option<JsonStepParts> {
        None
    }

    fn read<'a>(token: JsonEvent<'a>, source: &mut JsonSource<'a>) -> JsonResult<JsonStepParts> {
        read_record::<JsonStepParts, StepPartsFields>(token, source)
    }
}

impl Serialize for JsonStepParts {
    ghost tree = { record_tree ⟦<JsonStepParts as JsonRecord>⟧.names ⟦<StepPartsFields as WrittenFields>⟧.trees ⟦<JsonStepParts as JsonRecord>⟧.values };

    fn begin(&self, w: &mut JsonWriter) -> JsonResult<()> {
        write_members_in_order(
            w,
            STEP_PARTS_NAMES,
            &Parts(&self.w, Parts(&self.write_fields, ())),
        )
    }
}

impl Ranged for JsonStepParts {
    ghost valid = { λ json_v. ⟦<StepPartsFields as WrittenFields>⟧.valid (⟦<JsonStepParts as JsonRecord>⟧.values
        json_v) };

    fn ranged(&self) {
        self.w.ranged();
        self.write_fields.ranged();
    }
}

impl RoundTrip for JsonStepParts {
    fn round_trips() {
        record_round_trips::<JsonStepParts, StepPartsFields>()
    }
}

impl Lossless for JsonStepParts {
    fn lossless() {
        record_lossless::<JsonStepParts, StepPartsFields>()
    }
}

impl NeverNull for JsonStepParts {
    fn never_null() {}
}

impl Stable for JsonStepParts {
    fn stable() {
        record_stable::<JsonStepParts, StepPartsFields>()
    }
}

/// What is done next.
#[derive(Drop)]
pub enum Step {
    List(Vec<u8>),
    line(u8, Slot),
    Parts { w: u8, write_fields: bool },
    first_case,
    x(Event),
}

// Its variants, and their names.
type StepCases = DataCase<
    Vec<u8>,
    DataCase<(u8, Slot), DataCase<JsonStepParts, UnitCase<DataCase<Event, NoCase>>>>,
>;

const STEP_NAMES: &[&str] = &["List", "line", "Parts", "first_case", "x"];

impl DataEnum for Step {
    ghost use Rattle.test_forms.specs.declared.taken.TheConstants.{STEP_NAMES};
    ghost use Rattle.test_forms.specs.declared.taken.Step.TheVariants.{List, line, Parts, first_case, x};

    type Values = <StepCases as Cases>::Values;

    ghost names = { names_of STEP_NAMES };

    ghost values = { elim [
      | List x0 ↦ json_first_case x0
      | line x0 x1 ↦ later_case (json_first_case (x0, x1))
      | Parts x0 x1 ↦ later_case (later_case (json_first_case (record { w = x0; write_fields = x1 })))
      | first_case ↦ later_case (later_case (later_case (json_first_case tt)))
      | x x0 ↦ later_case
          (later_case (later_case (later_case (json_first_case x0))))
    ] };

    ghost made = { each_case _ (λ json_x. List json_x) (each_case _ (λ json_x. line json_x.0 json_x.1) (each_case _ (λ json_x.
        Parts json_x.w json_x.write_fields) (each_case _ (λ json_x. first_case) (each_case _ (λ json_x. x json_x)
        (any_of_never _))))) };

    ghost bijective = { (
      elim [
        | List x0 ↦ json_refl
        | line x0 x1 ↦ json_refl
        | Parts x0 x1 ↦ json_refl
        | first_case
            ↦ json_refl
        | x x0 ↦ json_refl
      ],
      each_case _ (λ json_x. json_refl) (each_case _ (λ json_x. json_refl) (each_case _ (λ json_x.
          json_refl) (each_case _ (λ json_x. json_refl) (each_case _ (λ json_x. json_refl) (any_of_never _))))),
    ) };

    ghost distinct_names = { json_refl };

    fn names() -> &'static [&'static str] {
        STEP_NAMES
    }

    fn build(value: Self::Values) -> Step {
        match value {
            OneOf::First(a) => Step::List(a),
            OneOf::Later(value) => match value {
                OneOf::First((a, b)) => Step::line(a, b),
                OneOf::Later(value) => match value {
                    OneOf::First(JsonStepParts { w, write_fields }) => Step::Parts {
                        w,
                        write_fields,
                    },
                    OneOf::Later(value) => match value {
                        OneOf::First(()) => Step::first_case,
                        OneOf::Later(value) => match value {
                            OneOf::First(a) => Step::x(a),
                            OneOf::Later(value) => match value {},
                        },
                    },
                },
            },
        }
    }
}

impl FromJson for Step {
    ghost means = { enum_meaning ⟦<StepCases as Cases>⟧.meaning ⟦<Step as DataEnum>⟧.names json_refl
        ⟦<Step as DataEnum>⟧.values };

    fn missing() -> Option<Step> {
        None
    }

    fn read<'a>(token: JsonEvent<'a>, source: &mut JsonSource<'a>) -> JsonResult<Step> {
        read_enum::<Step, StepCases>(token, source)
    }
}

impl Serialize for Step {
    ghost tree = { enum_tree ⟦<Step as DataEnum>⟧.names ⟦<StepCases as WrittenCases>⟧.tree ⟦<Step as DataEnum>⟧.values };

    fn begin(&self, writer: &mut JsonWriter) -> JsonResult<()> {
        match self {
            Step::List(a) => write_data(writer, "List", a),
            Step::line(a, b) => write_data(writer, "line", &(a, b)),
            Step::Parts { w, write_fields } => {
                json_write_fields(
                    writer,
                    "Parts",
                    STEP_PARTS_NAMES,
                    &Parts(w, Parts(write_fields, ())),
                )
            },
            Step::first_case => writer.fragment(Fragment::Str("first_case")),
            Step::x(a) => write_data(writer, "x", a),
        }
    }
}

impl Ranged for Step {
    ghost valid = { λ json_v. ⟦<StepCases as WrittenCases>⟧.valid (⟦<Step as DataEnum>⟧.values json_v) };

    fn ranged(&self) {
        match self {
            Step::List(a) => a.ranged(),
            Step::line(a, b) => {
                a.ranged();
                b.ranged();
            },
            Step::Parts { w, write_fields } => {
                w.ranged();
                write_fields.ranged();
            },
            Step::first_case => {}
            Step::x(a) => a.ranged(),
        }
    }
}

impl RoundTrip for Step {
    fn round_trips() {
        enum_round_trips::<Step, StepCases>()
    }
}

impl Lossless for Step {
    fn lossless() {
        enum_lossless::<Step, StepCases>()
    }
}

impl NeverNull for Step {
    fn never_null() {}
}

impl Stable for Step {
    fn stable() {
        enum_stable::<Step, StepCases>()
    }
}

/// A type that has the name of the struct of `Step::Parts`.
#[derive(Drop)]
pub struct StepParts {
    pub of: u8,
}

// Its fields, and their names.
type JsonStepPartsFields = JsonSlot<u8, NoSlot>;

const JSON_STEP_PARTS_NAMES: &[&str] = &["of"];

impl JsonRecord for StepParts {
    ghost use Rattle.test_forms.specs.declared.taken.TheConstants.{JSON_STEP_PARTS_NAMES};

    type Values = <JsonStepPartsFields as Slots>::Values;

    ghost names = { names_of JSON_STEP_PARTS_NAMES };

    ghost values = { λ json_v. (json_v.of, tt) };

    ghost made = { λ json_x. record { of = json_x.0 } };

    ghost bijective = { (λ json_v. json_refl, λ json_x. json_refl) };

    ghost distinct_names = { json_refl };

    fn names() -> &'static [&'static str] {
        JSON_STEP_PARTS_NAMES
    }

    fn build(parts: Self::Values) -> StepParts {
        let Parts(of, ()) = parts;
        StepParts { of }
    }
}

impl FromJson for StepParts {
    ghost means = { struct_meaning ⟦<JsonStepPartsFields as Slots>⟧.meaning ⟦<StepParts as JsonRecord>⟧.names ⟦<StepParts as JsonRecord>⟧.values };

    fn missing() -> Option<StepParts> {
        None
    }

    fn read<'a>(token: JsonEvent<'a>, source: &mut JsonSource<'a>) -> JsonResult<StepParts> {
        read_record::<StepParts, JsonStepPartsFields>(token, source)
    }
}

impl Serialize for StepParts {
    ghost tree = { record_tree ⟦<StepParts as JsonRecord>⟧.names ⟦<JsonStepPartsFields as WrittenFields>⟧.trees ⟦<StepParts as JsonRecord>⟧.values };

    fn begin(&self, w: &mut JsonWriter) -> JsonResult<()> {
        write_members_in_order(w, JSON_STEP_PARTS_NAMES, &Parts(&self.of, ()))
    }
}

impl Ranged for StepParts {
    ghost valid = { λ json_v. ⟦<JsonStepPartsFields as WrittenFields>⟧.valid (⟦<StepParts as JsonRecord>⟧.values
        json_v) };

    fn ranged(&self) {
        self.of.ranged();
    }
}

impl RoundTrip for StepParts {
    fn round_trips() {
        record_round_trips::<StepParts, JsonStepPartsFields>()
    }
}

impl Lossless for StepParts {
    fn lossless() {
        record_lossless::<StepParts, JsonStepPartsFields>()
    }
}

impl NeverNull for StepParts {
    fn never_null() {}
}

/// A type that has the name of what is written for `Event`.
#[derive(Drop)]
pub struct EventFields {
    pub of: u8,
}

// Its fields, and their names.
type EventFieldsFields = JsonSlot<u8, NoSlot>;

const EVENT_FIELDS_NAMES: &[&str] = &["of"];

impl JsonRecord for EventFields {
    ghost use Rattle.test_forms.specs.declared.taken.TheConstants.{EVENT_FIELDS_NAMES};

    type Values = <EventFieldsFields as Slots>::Values;

    ghost names = { names_of EVENT_FIELDS_NAMES };

    ghost values = { λ json_v. (json_v.of, tt) };

    ghost made = { λ json_x. record { of = json_x.0 } };

    ghost bijective = { (λ json_v. json_refl, λ json_x. json_refl) };

    ghost distinct_names = { json_refl };

    fn names() -> &'static [&'static str] {
        EVENT_FIELDS_NAMES
    }

    fn build(parts: Self::Values) -> EventFields {
        let Parts(of, ()) = parts;
        EventFields { of }
    }
}

impl FromJson for EventFields {
    ghost means = { struct_meaning ⟦<EventFieldsFields as Slots>⟧.meaning ⟦<EventFields as JsonRecord>⟧.names ⟦<EventFields as JsonRecord>⟧.values };

    fn missing() -> Option<EventFields> {
        None
    }

    fn read<'a>(token: JsonEvent<'a>, source: &mut JsonSource<'a>) -> JsonResult<EventFields> {
        read_record::<EventFields, EventFieldsFields>(token, source)
    }
}

impl Serialize for EventFields {
    ghost tree = { record_tree ⟦<EventFields as JsonRecord>⟧.names ⟦<EventFieldsFields as WrittenFields>⟧.trees ⟦<EventFields as JsonRecord>⟧.values };

    fn begin(&self, w: &mut JsonWriter) -> JsonResult<()> {
        write_members_in_order(w, EVENT_FIELDS_NAMES, &Parts(&self.of, ()))
    }
}

impl Ranged for EventFields {
    ghost valid = { λ json_v. ⟦<EventFieldsFields as WrittenFields>⟧.valid (⟦<EventFields as JsonRecord>⟧.values json_v) };

    fn ranged(&self) {
        self.of.ranged();
    }
}

impl RoundTrip for EventFields {
    fn round_trips() {
        record_round_trips::<EventFields, EventFieldsFields>()
    }
}

impl Lossless for EventFields {
    fn lossless() {
        record_lossless::<EventFields, EventFieldsFields>()
    }
}

impl NeverNull for EventFields {
    fn never_null() {}
}

/// A page, whose parameter has a name in lower case.
#[derive(Drop)]
pub struct Result<item> {
    pub items: Vec<item>,
    pub error: Option<item>,
}

// Its fields, and their names.
type ResultFields<item> = JsonSlot<Vec<item>, JsonSlot<Option<item>, NoSlot>>;

const RESULT_NAMES: &[&str] = &["items", "error"];

impl<item: FromJson> JsonRecord for Result<item> {
    ghost use Rattle.test_forms.specs.declared.taken.TheConstants.{RESULT_NAMES};

    type Values = <ResultFields<item> as Slots>::Values;

    ghost names = { names_of RESULT_NAMES };

    ghost values = { λ json_v. (json_v.items, (json_v.error, tt)) };

    ghost made = { λ json_x. record { items = json_x.0; error = json_x.1.0 } };

    ghost bijective = { (λ json_v. json_refl, λ json_x. json_refl) };

    ghost distinct_names = { json_refl };

    fn names() -> &'static [&'static str] {
        RESULT_NAMES
    }

    fn build(parts: Self::Values) -> Result<item> {
        let Parts(items, Parts(error, ())) = parts;
        Result { items, error }
    }
}

impl<item: FromJson> FromJson for Result<item> {
    ghost means = { struct_meaning ⟦<ResultFields<item> as Slots>⟧.meaning ⟦<Result<item> as JsonRecord>⟧.names ⟦<Result<item> as JsonRecord>⟧.values };

    fn missing() -> Option<Result<item>> {
        None
    }

    fn read<'a>(token: JsonEvent<'a>, source: &mut JsonSource<'a>) -> JsonResult<Result<item>> {
        read_record::<Result<item>, ResultFields<item>>(token, source)
    }
}

impl<item: FromJson + Ranged + Serialize> Serialize for Result<item> {
    ghost tree = { record_tree ⟦<Result<item> as JsonRecord>⟧.names ⟦<ResultFields<item> as WrittenFields>⟧.trees ⟦<Result<item> as JsonRecord>⟧.values };

    fn begin(&self, w: &mut JsonWriter) -> JsonResult<()> {
        write_members(w, RESULT_NAMES, &Parts(&self.items, Parts(&self.error, ())))
    }
}

impl<item: FromJson + Ranged + Serialize> Ranged for Result<item> {
    ghost valid = { λ json_v. ⟦<ResultFields<item> as WrittenFields>⟧.valid (⟦<Result<item> as JsonRecord>⟧.values json_v) };

    fn ranged(&self) {
        self.items.ranged();
        self.error.ranged();
    }
}

impl<item: RoundTrip> RoundTrip for Result<item> {
    fn round_trips() {
        record_round_trips::<Result<item>, ResultFields<item>>()
    }
}

impl<item: Lossless + NeverNull> Lossless for Result<item> {
    fn lossless() {
        record_lossless::<Result<item>, ResultFields<item>>()
    }
}

impl<item: RoundTrip> NeverNull for Result<item> {
    fn never_null() {}
}

impl<item: Stable> Stable for Result<item> {
    fn stable() {
        record_stable::<Result<item>, ResultFields<item>>()
    }
}

/// A page, whose parameters have the names of types.
#[derive(Drop)]
pub struct Source<Value, Event> {
    pub value: Value,
    pub event: Event,
}

// Its fields, and their names.
type SourceFields<Value, Event> = JsonSlot<Value, JsonSlot<Event, NoSlot>>;

const SOURCE_NAMES: &[&str] = &["value", "event"];

impl<Value: FromJson, Event: FromJson> JsonRecord for Source<Value, Event> {
    ghost use Rattle.test_forms.specs.declared.taken.TheConstants.{SOURCE_NAMES};

    type Values = <SourceFields<Value, Event> as Slots>::Values;

    ghost names = { names_of SOURCE_NAMES };

    ghost values = { λ json_v. (json_v.value, (json_v.event, tt)) };

    ghost made = { λ json_x. record { value = json_x.0; event = json_x.1.0 } };

    ghost bijective = { (λ json_v. json_refl, λ json_x. json_refl) };

    ghost distinct_names = { json_refl };

    fn names() -> &'static [&'static str] {
        SOURCE_NAMES
    }

    fn build(parts: Self::Values) -> Source<Value, Event> {
        let Parts(value, Parts(event, ())) = parts;
        Source { value, event }
    }
}

impl<Value: FromJson, Event: FromJson> FromJson for Source<Value, Event> {
    ghost means = { struct_meaning ⟦<SourceFields<Value, Event> as Slots>⟧.meaning ⟦<Source<Value, Event> as JsonRecord>⟧.names ⟦<Source<Value, Event> as JsonRecord>⟧.values };

    fn missing() -> Option<Source<Value, Event>> {
        None
    }

    fn read<'a>(
        token: JsonEvent<'a>,
        source: &mut JsonSource<'a>,
    ) -> JsonResult<Source<Value, Event>> {
        read_record::<Source<Value, Event>, SourceFields<Value, Event>>(token, source)
    }
}

impl<Value: FromJson + Ranged + Serialize, Event: FromJson + Ranged + Serialize> Serialize
    for Source<Value, Event> {
    ghost tree = { record_tree ⟦<Source<Value, Event> as JsonRecord>⟧.names ⟦<SourceFields<Value, Event> as WrittenFields>⟧.trees ⟦<Source<Value, Event> as JsonRecord>⟧.values };

    fn begin(&self, w: &mut JsonWriter) -> JsonResult<()> {
        write_members(w, SOURCE_NAMES, &Parts(&self.value, Parts(&self.event, ())))
    }
}

impl<Value: FromJson + Ranged + Serialize, Event: FromJson + Ranged + Serialize> Ranged
    for Source<Value, Event> {
    ghost valid = { λ json_v. ⟦<SourceFields<Value, Event> as WrittenFields>⟧.valid (⟦<Source<Value, Event> as JsonRecord>⟧.values json_v) };

    fn ranged(&self) {
        self.value.ranged();
        self.event.ranged();
    }
}

impl<Value: RoundTrip, Event: RoundTrip> RoundTrip for Source<Value, Event> {
    fn round_trips() {
        record_round_trips::<Source<Value, Event>, SourceFields<Value, Event>>()
    }
}

/// A key.
#[derive(PartialEq, Eq, PartialOrd, Ord, Drop)]
pub struct Slot(pub u8);

impl Transparent for Slot {
    type Inner = u8;

    ghost inner = { λ json_v. json_v.0 };

    ghost wrapped = { λ json_x. record { 0 = json_x } };

    ghost unwraps = { λ json_x. json_refl };
}

impl FromJson for Slot {
    ghost means = { box_meaning ⟦<u8 as FromJson>⟧.means (λ json_v. json_v.0) };

    ghost read_infallible = { ⟦<u8 as FromJson>⟧.read_infallible };

    ghost lacking = { ⟦<u8 as FromJson>⟧.lacking };

    fn missing() -> Option<Slot> {
        None
    }

    fn read<'a>(token: JsonEvent<'a>, source: &mut JsonSource<'a>) -> JsonResult<Slot> {
        Ok(Slot(<u8 as FromJson>::read(token, source)?))
    }
}

impl Serialize for Slot {
    ghost tree = { λ json_v. ⟦<u8 as Serialize>⟧.tree json_v.0 };

    fn begin(&self, w: &mut JsonWriter) -> JsonResult<()> {
        self.0.begin(w)
    }
}

impl Ranged for Slot {
    ghost valid = { λ json_v. ⟦<u8 as Ranged>⟧.valid json_v.0 };

    fn ranged(&self) {
        self.0.ranged()
    }
}

impl RoundTrip for Slot {
    fn round_trips() {
        transparent_round_trips::<u8, Slot>()
    }
}

impl Lossless for Slot {
    fn lossless() {
        <u8 as Lossless>::lossless()
    }
}

impl NeverNull for Slot {
    fn never_null() {
        <u8 as NeverNull>::never_null()
    }
}

impl Stable for Slot {
    fn stable() {
        <u8 as Stable>::stable()
    }
}

impl MapKey for Slot {
    ghost content = { λ json_v. ⟦<u8 as MapKey>⟧.content json_v.0 };

    ghost read = { ⟦<u8 as MapKey>⟧.read };

    ghost text = { λ json_v. ⟦<u8 as MapKey>⟧.text json_v.0 };

    ghost from_key_infallible = { ⟦<u8 as MapKey>⟧.from_key_infallible };

    ghost alike = { λ a b. u8_key_laws.alike a.0 b.0 };

    ghost back = { λ json_v r. (json_v, r, (u8_key_laws.back json_v.0 r), json_refl) };

    ghost one_text = { λ a b. u8_key_laws.one_text a.0 b.0 };

    fn from_key(alloc: Global, k: &str) -> JsonResult<Slot> {
        Ok(Slot(<u8 as MapKey>::from_key(alloc, k)?))
    }

    fn to_key(&self, out: &mut String) -> JsonResult<()> {
        self.0.to_key(out)
    }
}

impl InjectiveKey for Slot {
    ghost injective = { λ a b e. e };
}

/// A value around another.
#[derive(PartialEq, Eq, PartialOrd, Ord, Drop)]
pub struct Writer<v>(pub v);

impl<v> Transparent for Writer<v> {
    type Inner = v;

    ghost inner = { λ json_v. json_v.0 };

    ghost wrapped = { λ json_x. record { 0 = json_x } };

    ghost unwraps = { λ json_x. json_refl };
}

impl<v: FromJson> FromJson for Writer<v> {
    ghost means = { box_meaning v.means (λ json_v. json_v.0) };

    ghost absent = { option_map (λ json_v. record { 0 = json_v }) v.absent };

    ghost read_infallible = { v.read_infallible };

    ghost lacking = { v.lacking };

    fn missing() -> Option<Writer<v>> {
        Some(Writer(<v as FromJson>::missing()?))
    }

    fn read<'a>(token: JsonEvent<'a>, source: &mut JsonSource<'a>) -> JsonResult<Writer<v>> {
        Ok(Writer(<v as FromJson>::read(token, source)?))
    }
}

impl<v: Serialize> Serialize for Writer<v> {
    ghost tree = { λ json_v. v.tree json_v.0 };

    fn begin(&self, w: &mut JsonWriter) -> JsonResult<()> {
        self.0.begin(w)
    }
}

impl<v: Ranged> Ranged for Writer<v> {
    ghost valid = { λ json_v. v.valid json_v.0 };

    fn ranged(&self) {
        self.0.ranged()
    }
}

impl<v: RoundTrip> RoundTrip for Writer<v> {
    fn round_trips() {
        transparent_round_trips::<v, Writer<v>>()
    }
}

impl<v: Lossless> Lossless for Writer<v> {
    fn lossless() {
        <v as Lossless>::lossless()
    }
}

impl<v: NeverNull> NeverNull for Writer<v> {
    fn never_null() {
        <v as NeverNull>::never_null()
    }
}

impl<v: MapKey> MapKey for Writer<v> {
    ghost content = { λ json_v. v.content json_v.0 };

    ghost code = { v.code };

    ghost read = { v.read };

    ghost text = { λ json_v. v.text json_v.0 };

    ghost from_key_infallible = { v.from_key_infallible };

    ghost alike = { λ a b. v.alike a.0 b.0 };

    ghost back = { λ json_v r. let h = v.back json_v.0 r in (record { 0 = h.0 }, h.1, h.2, h.3) };

    ghost one_text = { λ a b. v.one_text a.0 b.0 };

    fn from_key(alloc: Global, k: &str) -> JsonResult<Writer<v>> {
        Ok(Writer(<v as MapKey>::from_key(alloc, k)?))
    }

    fn to_key(&self, out: &mut String) -> JsonResult<()> {
        self.0.to_key(out)
    }
}

impl<v: InjectiveKey> InjectiveKey for Writer<v> {
    ghost injective = { λ a b. v.injective a.0 b.0 };
}

impl<v: ExactKey> ExactKey for Writer<v> {
    ghost one_name = { v.one_name };
}

/// The fields of `Value::data`.
#[derive(Drop)]
pub struct Valuedata {
    pub open: u8,
}

// Its fields, and their names.
type ValuedataFields = JsonSlot<u8, NoSlot>;

const VALUEDATA_NAMES: &[&str] = &["open"];

impl JsonRecord for Valuedata {
    ghost use Rattle.test_forms.specs.declared.taken.TheConstants.{VALUEDATA_NAMES};

    type Values = <ValuedataFields as Slots>::Values;

    ghost names = { names_of VALUEDATA_NAMES };

    ghost values = { λ json_v. (json_v.open, tt) };

    ghost made = { λ json_x. record { «open» = json_x.0 } };

    ghost bijective = { (λ json_v. json_refl, λ json_x. json_refl) };

    ghost distinct_names = { json_refl };

    fn names() -> &'static [&'static str] {
        VALUEDATA_NAMES
    }

    fn build(parts: Self::Values) -> Valuedata {
        let Parts(open, ()) = parts;
        Valuedata { open }
    }
}

impl FromJson for Valuedata {
    ghost means = { struct_meaning ⟦<ValuedataFields as Slots>⟧.meaning ⟦<Valuedata as JsonRecord>⟧.names ⟦<Valuedata as JsonRecord>⟧.values };

    fn missing() -> Option<Valuedata> {
        None
    }

    fn read<'a>(token: JsonEvent<'a>, source: &mut JsonSource<'a>) -> JsonResult<Valuedata> {
        read_record::<Valuedata, ValuedataFields>(token, source)
    }
}

impl Serialize for Valuedata {
    ghost tree = { record_tree ⟦<Valuedata as JsonRecord>⟧.names ⟦<ValuedataFields as WrittenFields>⟧.trees ⟦<Valuedata as JsonRecord>⟧.values };

    fn begin(&self, w: &mut JsonWriter) -> JsonResult<()> {
        write_members_in_order(w, VALUEDATA_NAMES, &Parts(&self.open, ()))
    }
}

impl Ranged for Valuedata {
    ghost valid = { λ json_v. ⟦<ValuedataFields as WrittenFields>⟧.valid (⟦<Valuedata as JsonRecord>⟧.values
        json_v) };

    fn ranged(&self) {
        self.open.ranged();
    }
}

impl RoundTrip for Valuedata {
    fn round_trips() {
        record_round_trips::<Valuedata, ValuedataFields>()
    }
}

impl Lossless for Valuedata {
    fn lossless() {
        record_lossless::<Valuedata, ValuedataFields>()
    }
}

impl NeverNull for Valuedata {
    fn never_null() {}
}

impl Inside for Valuedata {
    ghost fields = { ⟦<Valuedata as JsonRecord>⟧.names };

    fn read_inside<'a, E: HasTag>(
        token: JsonEvent<'a>,
        source: &mut JsonSource<'a>,
    ) -> JsonResult<Valuedata> {
        read_record::<Valuedata, BesideTag<E, ValuedataFields>>(token, source)
    }

    fn write_inside(&self, w: &mut JsonWriter) -> JsonResult<()> {
        Members::write(&Parts(&self.open, ()), w, VALUEDATA_NAMES)
    }

    fn is_object() {
        fields_named()
    }
}

/// Two words that clauses reserve.
#[derive(Drop)]
pub enum Value {
    data { open: u8 },
    refl,
}

// Its variants, and their names.
type ValueCases = DataCase<Valuedata, DataCase<NoFields, NoCase>>;

const VALUE_NAMES: &[&str] = &["data", "refl"];

impl DataEnum for Value {
    ghost use Rattle.test_forms.specs.declared.taken.TheConstants.{VALUE_NAMES};
    ghost use Rattle.test_forms.specs.declared.taken.Value.TheVariants.{«data», «refl»};

    type Values = <ValueCases as InsideCases>::Values;

    ghost names = { names_of VALUE_NAMES };

    ghost values = { elim [
      | «data» x0 ↦ json_first_case (record { «open» = x0 })
      | «refl» ↦ later_case
          (json_first_case (record {}))
    ] };

    ghost made = { each_case _ (λ json_x. «data» json_x.open) (each_case _ (λ json_x. «refl») (any_of_never _)) };

    ghost bijective = { (
      elim [ «data» x0 ↦ json_refl | «refl» ↦ json_refl ],
      each_case _ (λ json_x. json_refl)
          (each_case _ (λ json_x. json_refl) (any_of_never _)),
    ) };

    ghost distinct_names = { json_refl };

    fn names() -> &'static [&'static str] {
        VALUE_NAMES
    }

    fn build(value: Self::Values) -> Value {
        match value {
            OneOf::First(Valuedata { open }) => Value::data { open },
            OneOf::Later(value) => match value {
                OneOf::First(NoFields {}) => Value::refl,
                OneOf::Later(value) => match value {},
            },
        }
    }
}

const VALUE_TAG: &[&str] = &["kind"];

impl HasTag for Value {
    ghost use Rattle.test_forms.specs.declared.taken.TheConstants.{VALUE_TAG};

    ghost tag = { codes "kind" };

    fn tag() -> &'static [&'static str] {
        VALUE_TAG
    }
}

impl FromJson for Value {
    ghost means = { tagged_meaning ⟦<ValueCases as InsideCases>⟧.meaning ⟦<Value as HasTag>⟧.tag
        ⟦<Value as DataEnum>⟧.names json_refl ⟦<Value as DataEnum>⟧.values };

    fn missing() -> Option<Value> {
        None
    }

    fn read<'a>(token: JsonEvent<'a>, source: &mut JsonSource<'a>) -> JsonResult<Value> {
        read_tagged::<Value, ValueCases>(token, source)
    }
}

impl Serialize for Value {
    ghost tree = { tagged_tree ⟦<Value as HasTag>⟧.tag ⟦<Value as DataEnum>⟧.names ⟦<ValueCases as WrittenCases>⟧.tree ⟦<Value as DataEnum>⟧.values };

    fn begin(&self, w: &mut JsonWriter) -> JsonResult<()> {
        match self {
            Value::data { open } => {
                write_tagged_fields(w, "kind", "data", VALUEDATA_NAMES, &Parts(open, ()))
            },
            Value::refl => { write_tagged_fields(w, "kind", "refl", &[], &()) },
        }
    }
}

impl Ranged for Value {
    ghost valid = { λ json_v. ⟦<ValueCases as WrittenCases>⟧.valid (⟦<Value as DataEnum>⟧.values json_v) };

    fn ranged(&self) {
        match self {
            Value::data { open } => {
                open.ranged();
            },
            Value::refl => {},
        }
    }
}

impl RoundTrip for Value {
    fn round_trips() {
        tag_fits::<Value, ValueCases>();
        tagged_round_trips::<Value, ValueCases>()
    }
}

impl Lossless for Value {
    fn lossless() {
        tag_fits::<Value, ValueCases>();
        tagged_lossless::<Value, ValueCases>()
    }
}

impl NeverNull for Value {
    fn never_null() {}
}
