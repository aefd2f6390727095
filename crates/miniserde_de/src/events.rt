//! Promises about `feed`, which hands a fresh place the events of a text (`miniserde_place`), followed by `take`. No
//! function here does anything when it runs.
ghost use Rattle.std.specs.Prelude.{◌≡◌, Some, None, []};
ghost use Rattle.miniserde_model.specs.Tree.{Tree};
ghost use Rattle.miniserde_model.specs.Step.{events};
ghost use Rattle.miniserde_model.specs.Position.{complete};
ghost use Rattle.miniserde_place.specs.Place.{PlaceView, IsFresh};
ghost use Rattle.miniserde_de.specs.Fed.{IsFed};

use crate::de::Deserialize;
use miniserde_model::events_complete;
use miniserde_place::de::Visitor;

/// Does nothing. It promises what a place gives for the events of a tree. The outcome of these events in a fresh place
/// is the content that the tree gives, or `None` if the tree gives none. After them the place is complete, and its
/// outcome without further events is the same.
pub fn events_give<V: Visitor>()
    // This is about the place before `feed`: with it the clause `invalid` of `feed` speaks of the tree.
    ensures fresh { (p : PlaceView V.meaning.Content) → IsFresh V.meaning.from_events p → (t : Tree)
        → p.outcome (events t) ≡ V.meaning.from_tree t }

    // These are about the place after `feed`: with them the clauses of `take` speak of the tree.
    ensures complete { (t : Tree) (p : PlaceView V.meaning.Content) → IsFed V.meaning t p → p.at ≡ complete }
    ensures outcome { (t : Tree) (p : PlaceView V.meaning.Content) → IsFed V.meaning t p
        → p.outcome [] ≡ V.meaning.from_tree t }
{
    events_complete();
}

/// Does nothing. It promises what the place of a type gives for the events of a tree. After them a place that was fresh
/// is complete, and a value that it gives is one that the tree means. If it gives none, the tree means none. If these
/// events have no outcome in a fresh place, the tree means none either.
pub fn events_mean<T: Deserialize>()
    // The place is complete, and `take` returns a value that the tree means.
    ensures complete { (t : Tree) (p : PlaceView T.Place.meaning.Content) → IsFed T.Place.meaning t p → p.at ≡ complete }
    ensures value { (t : Tree) (p : PlaceView T.Place.meaning.Content) → IsFed T.Place.meaning t p
        → (v : T) → p.outcome [] ≡ Some (T.Place.meaning.content v) → T.means.reads t v }

    // If `take` has no value to return, the tree means none.
    ensures none { (t : Tree) (p : PlaceView T.Place.meaning.Content) → IsFed T.Place.meaning t p
        → p.outcome [] ≡ None → (v : T) → T.means.reads t v → ⊥ }

    // If the events of the tree give a fresh place no value, the tree means none.
    ensures refused { (p : PlaceView T.Place.meaning.Content) → IsFresh T.Place.meaning.from_events p → (t : Tree)
        → p.outcome (events t) ≡ None → (v : T) → T.means.reads t v → ⊥ }
{
    events_give::<T::Place>();
    T::tied();
}
