//! Reads integers from single tokens. An unsigned type takes no number with a minus, not even `-0`.
//! `usize` and `isize` have 64 bits.
ghost use Rattle.std.specs.Prelude.{◌≡◌, ℕ, ℤ, true, false, Some, None, Result, MatchResult, IfOk, IfErr, refl};
ghost use Rattle.miniserde_model.specs.Tree.{nonneg, neg};
ghost use Rattle.miniserde_model.specs.declared.error.Error.{Error};
ghost use Rattle.miniserde_keys.specs.laws.Bits.{i8_bits, i16_bits, i32_bits, i64_bits};
ghost use Rattle.miniserde_read.specs.Meaning.{Meaning};
ghost use Rattle.miniserde_read.specs.Events.{OnlyIntegers};
ghost use Rattle.miniserde_read.specs.Meanings.{unsigned_meaning, signed_meaning};
ghost use Rattle.miniserde_read.specs.laws.Integers.{unsigned-gives, signed-gives, signed-minus_gives};

use super::Leaf;
use crate::step::Step;
use miniserde_keys::{StdInteger, WideInteger};
use miniserde_model::error::{Error, Result};
use std::alloc::Global;

/// An integer type of std, which reads itself from one token.
pub trait IntegerLeaf: StdInteger + TryFrom<u64, Error: Drop> + TryFrom<i64, Error: Drop> {
    // Which trees mean which values.
    ghost integer_meaning: { Meaning Self };

    // No other tree than an integer means a value.
    ghost only_integers: { OnlyIntegers integer_meaning.from_tree };

    // A number without a minus means what `try_from` returns for it.
    ghost nonnegative: { (n : ℕ) (r : _)
        → ⟦<Self as TryFrom<u64>>⟧.try_from_gives n r
        → MatchResult r (λ v. integer_meaning.from_tree (nonneg n) ≡ Some (integer_meaning.content v))
        (λ _. integer_meaning.from_tree (nonneg n) ≡ None) };

    // A number with a minus means what `try_from` returns for it, if the type is signed.
    ghost negative: { (z : ℤ) (r : _)
        → ⟦<Self as TryFrom<i64>>⟧.try_from_gives z r → Self.is_signed ≡ true
        → MatchResult r (λ v. integer_meaning.from_tree (neg z) ≡ Some (integer_meaning.content v))
        (λ _. integer_meaning.from_tree (neg z) ≡ None) };

    // No number with a minus means a value of an unsigned type.
    ghost never_negative: { (z : ℤ) → Self.is_signed ≡ false → integer_meaning.from_tree (neg z) ≡ None };
}

impl<T: IntegerLeaf> Leaf for T {
    ghost means = { T.integer_meaning };

    ghost only_leaves = { T.only_integers.4 };

    ghost read_infallible = { true };

    #[inline(always)]
    fn from_step(_alloc: Global, event: Step<'_>) -> Result<T> {
        match event {
            Step::Nonnegative(n) => T::try_from(n).map_err(|_| Error::Invalid),
            Step::Negative(n) => signed_only(T::try_from(n).map_err(|_| Error::Invalid)?),
            _ => Err(Error::Invalid),
        }
    }
}

// Returns the number if its type is signed, and else `Invalid`.
#[inline(always)]
fn signed_only<T: StdInteger>(n: T) -> Result<T>
    ensures ok { IfOk result (λ v. (v ≡ n) × (T.is_signed ≡ true)) }
    ensures err { IfErr result (λ e. (e ≡ Error.Invalid) × (T.is_signed ≡ false)) }
{
    match n.widen() {
        WideInteger::Signed(_) => Ok(n),
        WideInteger::Unsigned(_) => Err(Error::Invalid),
    }
}

impl IntegerLeaf for u8 {
    ghost integer_meaning = { unsigned_meaning 8 };

    ghost only_integers = { (refl, λ b. refl, λ x. refl, λ s. refl, (λ ts. refl, λ ms. refl)) };

    ghost nonnegative = { unsigned-gives 8 };

    ghost negative = { λ z r gives signed. Prim.absurd (cc) };

    ghost never_negative = { λ z unsigned. refl };
}

impl IntegerLeaf for u16 {
    ghost integer_meaning = { unsigned_meaning 16 };

    ghost only_integers = { (refl, λ b. refl, λ x. refl, λ s. refl, (λ ts. refl, λ ms. refl)) };

    ghost nonnegative = { unsigned-gives 16 };

    ghost negative = { λ z r gives signed. Prim.absurd (cc) };

    ghost never_negative = { λ z unsigned. refl };
}

impl IntegerLeaf for u32 {
    ghost integer_meaning = { unsigned_meaning 32 };

    ghost only_integers = { (refl, λ b. refl, λ x. refl, λ s. refl, (λ ts. refl, λ ms. refl)) };

    ghost nonnegative = { unsigned-gives 32 };

    ghost negative = { λ z r gives signed. Prim.absurd (cc) };

    ghost never_negative = { λ z unsigned. refl };
}

impl IntegerLeaf for u64 {
    ghost integer_meaning = { unsigned_meaning 64 };

    ghost only_integers = { (refl, λ b. refl, λ x. refl, λ s. refl, (λ ts. refl, λ ms. refl)) };

    ghost nonnegative = { unsigned-gives 64 };

    ghost negative = { λ z r gives signed. Prim.absurd (cc) };

    ghost never_negative = { λ z unsigned. refl };
}

impl IntegerLeaf for usize {
    ghost integer_meaning = { unsigned_meaning 64 };

    ghost only_integers = { (refl, λ b. refl, λ x. refl, λ s. refl, (λ ts. refl, λ ms. refl)) };

    ghost nonnegative = { unsigned-gives 64 };

    ghost negative = { λ z r gives signed. Prim.absurd (cc) };

    ghost never_negative = { λ z unsigned. refl };
}

impl IntegerLeaf for i8 {
    ghost integer_meaning = { signed_meaning 8 };

    ghost only_integers = { (refl, λ b. refl, λ x. refl, λ s. refl, (λ ts. refl, λ ms. refl)) };

    ghost nonnegative = { signed-gives i8_bits };

    ghost negative = { λ z r gives signed. signed-minus_gives i8_bits z r gives };

    ghost never_negative = { λ z unsigned. Prim.absurd (cc) };
}

impl IntegerLeaf for i16 {
    ghost integer_meaning = { signed_meaning 16 };

    ghost only_integers = { (refl, λ b. refl, λ x. refl, λ s. refl, (λ ts. refl, λ ms. refl)) };

    ghost nonnegative = { signed-gives i16_bits };

    ghost negative = { λ z r gives signed. signed-minus_gives i16_bits z r gives };

    ghost never_negative = { λ z unsigned. Prim.absurd (cc) };
}

impl IntegerLeaf for i32 {
    ghost integer_meaning = { signed_meaning 32 };

    ghost only_integers = { (refl, λ b. refl, λ x. refl, λ s. refl, (λ ts. refl, λ ms. refl)) };

    ghost nonnegative = { signed-gives i32_bits };

    ghost negative = { λ z r gives signed. signed-minus_gives i32_bits z r gives };

    ghost never_negative = { λ z unsigned. Prim.absurd (cc) };
}

impl IntegerLeaf for i64 {
    ghost integer_meaning = { signed_meaning 64 };

    ghost only_integers = { (refl, λ b. refl, λ x. refl, λ s. refl, (λ ts. refl, λ ms. refl)) };

    ghost nonnegative = { signed-gives i64_bits };

    ghost negative = { λ z r gives signed. signed-minus_gives i64_bits z r gives };

    ghost never_negative = { λ z unsigned. Prim.absurd (cc) };
}

impl IntegerLeaf for isize {
    ghost integer_meaning = { signed_meaning 64 };

    ghost only_integers = { (refl, λ b. refl, λ x. refl, λ s. refl, (λ ts. refl, λ ms. refl)) };

    ghost nonnegative = { signed-gives i64_bits };

    ghost negative = { λ z r gives signed. signed-minus_gives i64_bits z r gives };

    ghost never_negative = { λ z unsigned. Prim.absurd (cc) };
}
