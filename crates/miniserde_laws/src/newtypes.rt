//! The laws of newtypes: with a check, without one, and those that are strings.
ghost use Rattle.std.specs.Prelude.{◌≡◌, true, Some};
ghost use Rattle.miniserde_model.specs.Tree.{str};
ghost use Rattle.miniserde_read.specs.Newtypes.{checked_meaning, parsed_of};
ghost use Rattle.miniserde_laws.specs.RoundTrip.{RoundTrips};

use crate::lossless::Lossless;
use crate::round_trip::RoundTrip;
use miniserde_keys::TextValue;
use miniserde_read::Checked;

/// A type with a value of another type inside, in which each value of that type may stand.
pub trait Transparent: Sized {
    /// The type of the value inside.
    type Inner;

    // The value inside.
    ghost inner: { Self → Self.Inner };

    // The newtype of a value.
    ghost wrapped: { Self.Inner → Self };

    // The value inside the newtype of a value is that value.
    ghost unwraps: { (x : Self.Inner) → inner (wrapped x) ≡ x };
}

/// Does nothing. It promises that the tree of a valid newtype without a check means a valid one, and that each valid
/// one that it means has that tree.
pub fn transparent_round_trips<T: RoundTrip, N: Transparent<Inner = T>>()
    ensures { (v : N) → T.valid (N.inner v) → RoundTrips (λ w. T.valid (N.inner w)) (λ w. T.tree (N.inner w))
        (λ t w. T.means.reads t (N.inner w)) (T.tree (N.inner v)) }
{
    T::round_trips()
}

/// Does nothing. It promises that the tree of a valid newtype with a check means a valid one, and that each valid one
/// that it means has that tree.
pub fn checked_round_trips<T: Lossless, N: Checked<Inner = T>>()
    ensures { (v : N) → T.valid (N.inner v) × (N.accepts (N.means.content (N.inner v)) ≡ true)
        → RoundTrips (λ w. T.valid (N.inner w) × (N.accepts (N.means.content (N.inner w)) ≡ true))
        (λ w. T.tree (N.inner w)) (checked_meaning N.means N.accepts N.inner).reads (T.tree (N.inner v)) }
{
    T::round_trips();
    T::lossless()
}

/// Does nothing. It promises that two valid newtypes with a check that have the same tree have the same content.
pub fn checked_lossless<T: Lossless, N: Checked<Inner = T>>()
    ensures { (v w : N) → T.valid (N.inner v) × (N.accepts (N.means.content (N.inner v)) ≡ true)
        → T.valid (N.inner w) × (N.accepts (N.means.content (N.inner w)) ≡ true) → T.tree (N.inner v) ≡ T.tree (N.inner w)
        → (checked_meaning N.means N.accepts N.inner).content v
        ≡ (checked_meaning N.means N.accepts N.inner).content w }
{
    T::lossless()
}

/// Does nothing. It promises that the string of a value whose text is parsed as its content means such a value, and
/// that each such value that it means has that string.
pub fn text_value_round_trips<T: TextValue>()
    ensures { (v : T) → T.parsed (T.text (T.content v)) ≡ Some (T.content v)
        → RoundTrips (λ w. T.parsed (T.text (T.content w)) ≡ Some (T.content w)) (λ w. str (T.text (T.content w)))
        (λ t w. parsed_of T.parsed t ≡ Some (T.content w)) (str (T.text (T.content v))) }
{}
