//! Sets of kinds of JSON values, as types, and the trait of types whose trees are of some kinds alone.
ghost use Rattle.std.specs.Prelude.{◌≡◌};
ghost use Rattle.miniserde_more.specs.Kinds.{Kinds, OfKinds, token_kind, either_kinds, null_kind, boolean_kind, number_kind};
ghost use Rattle.miniserde_more.specs.Kinds.{string_kind, array_kind, object_kind};

use miniserde_read::FromJson;
use miniserde_text::json::lex::Event;
use std::marker::PhantomData;

/// A set of kinds of JSON values: `null`, boolean, number, string, array, object.
pub trait KindSet {
    // The kinds in the set.
    ghost kinds: { Kinds };

    /// Returns whether the value that begins with the token is of one of the kinds.
    fn has(token: Event<'_>) -> bool
        ensures { result ≡ kinds (token_kind token.entry) };
}

/// A type that is read from JSON values of some kinds alone, so that the first token of a value tells that it is not
/// of the type.
pub trait HasKinds: FromJson {
    /// The kinds.
    type Kinds: KindSet;

    // A tree of another kind means no value.
    ghost only: { OfKinds Self.Kinds.kinds Self.means.from_tree };
}

/// The kind of `null`.
pub struct NullKind {}

impl KindSet for NullKind {
    ghost kinds = { null_kind };

    #[inline(always)]
    fn has(token: Event<'_>) -> bool {
        match token {
            Event::Null => true,
            _ => false,
        }
    }
}

/// The kind of `true` and `false`.
pub struct BooleanKind {}

impl KindSet for BooleanKind {
    ghost kinds = { boolean_kind };

    #[inline(always)]
    fn has(token: Event<'_>) -> bool {
        match token {
            Event::Bool(_) => true,
            _ => false,
        }
    }
}

/// The kind of numbers.
pub struct NumberKind {}

impl KindSet for NumberKind {
    ghost kinds = { number_kind };

    #[inline(always)]
    fn has(token: Event<'_>) -> bool {
        match token {
            Event::Negative(_) => true,
            Event::Nonnegative(_) => true,
            Event::Number(_) => true,
            _ => false,
        }
    }
}

/// The kind of strings.
pub struct StringKind {}

impl KindSet for StringKind {
    ghost kinds = { string_kind };

    #[inline(always)]
    fn has(token: Event<'_>) -> bool {
        match token {
            Event::Str(_) => true,
            _ => false,
        }
    }
}

/// The kind of arrays.
pub struct ArrayKind {}

impl KindSet for ArrayKind {
    ghost kinds = { array_kind };

    #[inline(always)]
    fn has(token: Event<'_>) -> bool {
        match token {
            Event::SeqStart => true,
            _ => false,
        }
    }
}

/// The kind of objects.
pub struct ObjectKind {}

impl KindSet for ObjectKind {
    ghost kinds = { object_kind };

    #[inline(always)]
    fn has(token: Event<'_>) -> bool {
        match token {
            Event::MapStart => true,
            _ => false,
        }
    }
}

/// The kinds of two sets.
pub struct EitherKind<A, B> {
    one: PhantomData<A>,
    other: PhantomData<B>,
}

impl<A: KindSet, B: KindSet> KindSet for EitherKind<A, B> {
    ghost kinds = { either_kinds A.kinds B.kinds };

    #[inline(always)]
    fn has(token: Event<'_>) -> bool {
        A::has(token) || B::has(token)
    }
}
