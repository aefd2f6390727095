//! The names that a struct's rest leaves out, besides those of the struct's fields.
ghost use Rattle.std.specs.Prelude.{◌≡◌, ◌++◌, List, [], ◌∷◌, map};
ghost use Rattle.miniserde_read.specs.types.Objects.{Name};
ghost use Rattle.miniserde_record.specs.Marks.{is_among};
ghost use Rattle.miniserde_more.specs.Rest.{alias_names};

use miniserde_enum::HasTag;
use miniserde_record::record::HasAliases;
use std::marker::PhantomData;

/// Names that a struct's rest leaves out, besides those of the struct's fields: no member of such a name is read into the
/// rest, and no entry of such a name is written.
pub trait TakenNames {
    // The names.
    ghost further: { List Name };

    /// Returns whether a name is one of them.
    fn takes(name: &str) -> bool
        ensures { result ≡ is_among further name.now };
}

/// No further names.
pub struct NoNames {}

impl TakenNames for NoNames {
    ghost further = { [] };

    #[inline(always)]
    fn takes(_name: &str) -> bool {
        false
    }
}

/// The aliases of the fields of the struct `S`, and the further names `A`.
pub struct AliasesOf<S, A = NoNames> {
    of: PhantomData<S>,
    others: PhantomData<A>,
}

impl<S: HasAliases, A: TakenNames> TakenNames for AliasesOf<S, A> {
    ghost further = { alias_names S.aliases ++ A.further };

    fn takes(name: &str) -> bool {
        if is_alias(S::aliases(), name) {
            return true;
        }
        A::takes(name)
    }
}

/// The tag of the enum `E`, and the further names `A`.
pub struct TagOf<E, A = NoNames> {
    of: PhantomData<E>,
    others: PhantomData<A>,
}

impl<E: HasTag, A: TakenNames> TakenNames for TagOf<E, A> {
    ghost further = { E.tag ∷ A.further };

    fn takes(name: &str) -> bool {
        if is_one_of(E::tag(), name) {
            return true;
        }
        A::takes(name)
    }
}

// Returns whether a name is an alias. `aliases` lists each alias with the name of its field.
fn is_alias(aliases: &[(&'static str, &'static str)], name: &str) -> bool
    ensures { result ≡ is_among (alias_names (map (λ p. (p.0.now, p.1.now)) aliases.now)) name.now }
{
    for (alias, _field) in aliases {
        if name == *alias {
            return true;
        }
    }
    false
}

// Returns whether a member's name is one of the names. It compares the lengths first, in line: most names differ in
// them.
#[inline(always)]
fn is_one_of(names: &[&str], name: &str) -> bool
    ensures { result ≡ is_among (map (λ n. n.now) names.now) name.now }
{
    for field in names {
        if name.len() == field.len() {
            if name == *field {
                return true;
            }
        }
    }
    false
}

// Returns whether a name is that of a field, by the names of the fields, or one of the further names `A`.
#[inline(always)]
pub(super) fn is_taken<A: TakenNames>(names: &[&str], name: &str) -> bool
    ensures { result ≡ is_among (A.further ++ map (λ n. n.now) names.now) name.now }
{
    if is_one_of(names, name) {
        return true;
    }
    A::takes(name)
}
