//! Promises about the definitions, about places and about types, for users' proofs. Each call does nothing, and its
//! contract is the promise.
ghost use Rattle.std.specs.Prelude.{◌≡◌};
ghost use Rattle.miniserde_model.specs.Normal.{norm};
ghost use Rattle.miniserde_model.specs.Tree.{Tree};

pub use miniserde_de::events::{events_give, events_mean};
use miniserde_laws::{Lossless, RoundTrip};
pub use miniserde_model::{
    canonical_is_shortest, canonical_texts_equal, compact_spells, events_complete, json_in_range,
    json_is_utf8, norm_is_normal, norm_of_distinct, norm_of_members, text_has_one_tree,
    worked_examples,
};
use miniserde_stored::{Stable, means_in_normal_form};

/// Does nothing. It promises that each value that is meant by a tree with the normal form of a valid value's tree has
/// the content of that value, and that two valid values whose trees have one normal form have the same content. Trees
/// in range whose canonical texts are equal have one normal form (`compact_spells`, `canonical_texts_equal`).
pub fn canonical_text_determines_content<T: Stable + Lossless>()
    ensures itself { (v w : T) (u : Tree) → T.valid v → norm u ≡ norm (T.tree v) → T.means.reads u w
        → T.means.content w ≡ T.means.content v }
    ensures one { (v w : T) → T.valid v → T.valid w → norm (T.tree v) ≡ norm (T.tree w)
        → T.means.content v ≡ T.means.content w }
{
    means_in_normal_form::<T>();
    T::round_trips();
    T::lossless();
}
