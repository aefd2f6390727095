//! std's integers: what their types differ in. What holds of all of them is written once, over `StdInteger`: keys,
//! valid values, and how they are read and written. `usize` and `isize` have 64 bits.
ghost use Rattle.std.specs.Prelude.{◌≡◌, ◌<◌, ◌^◌, ℕ, ℤ, pos, Bool, true, false, List, Option, Some, None, Result, MatchResult, FitsSigned};
ghost use Rattle.std.proofs.Common.{arith};
ghost use Rattle.std.specs.Int.{w8, w16, w32, w64};
ghost use Rattle.std.specs.Str.{bytes_eq};
ghost use Rattle.miniserde_keys.specs.Integers.{number_of, is_of_signed};
ghost use Rattle.miniserde_keys.specs.Keys.{Key, of_nat, of_int, read_unsigned, read_signed};
ghost use Rattle.miniserde_keys.specs.laws.Bits.{i8_bits, i16_bits, i32_bits, i64_bits};
ghost use Rattle.miniserde_keys.specs.laws.Keys.{unsigned-parses, nat-alike, nat-same, unsigned-back};
ghost use Rattle.miniserde_keys.specs.laws.Keys.{signed-parses, int-alike, int-same, signed-back};

use itoa::Integer;
use std::str::FromStr;

/// An integer in the widest type of its kind.
#[derive(Clone, Copy, Drop)]
pub enum WideInteger {
    /// A number of an unsigned type.
    Unsigned(u64),
    /// A number of a signed type.
    Signed(i64),
}

/// An integer type of std of at most 64 bits.
pub trait StdInteger: Eq + Drop + Integer + FromStr<Err: Drop> {
    // The number that a value is.
    ghost number: { Self → ℤ };

    // Whether the type has numbers below 0.
    ghost is_signed: { Bool };

    // The value is in the range of the type.
    ghost in_range: { Self → Type 0 };

    // The content of a key.
    ghost key: { Self → Key };

    // The content of the key that a text is read as, if any.
    ghost read_key: { List ℕ → Option Key };

    /// Returns the same number in the widest type of its kind. It promises that the value is in range.
    fn widen(self) -> WideInteger
        ensures number { number_of result ≡ number self }
        ensures kind { is_of_signed result ≡ is_signed }
        ensures in_range { in_range self };

    // `from_str` returns the key that the text is read as, or an error if there is none.
    ghost parses: { (k : List ℕ) (r : Result Self Self.Err) → Self.from_str_gives k r
        → MatchResult r (λ n. read_key k ≡ Some (key n)) (λ _. read_key k ≡ None) };

    // Keys are equal exactly if their contents are.
    ghost alike: { (a b : Self) → Self.eq a b ≡ bytes_eq (key a) (key b) };

    // Keys of one content are the same number.
    ghost same: { (a b : Self) → key a ≡ key b → a ≡ b };

    // The text of a valid key is read as that key.
    ghost back: { (k : Self) → in_range k → read_key (Self.text k) ≡ Some (key k) };
}

impl StdInteger for u8 {
    ghost number = { λ n. pos n };

    ghost is_signed = { false };

    ghost in_range = { λ n. n < 2 ^ 8 };

    ghost key = { of_nat };

    ghost read_key = { read_unsigned 8 };

    #[inline(always)]
    fn widen(self) -> WideInteger {
        WideInteger::Unsigned(self as u64)
    }

    ghost parses = { λ k r gives. unsigned-parses 8 k r gives.0 };

    ghost alike = { nat-alike };

    ghost same = { nat-same };

    ghost back = { unsigned-back 8 (Prim.omega arith) };
}

impl StdInteger for u16 {
    ghost number = { λ n. pos n };

    ghost is_signed = { false };

    ghost in_range = { λ n. n < 2 ^ 16 };

    ghost key = { of_nat };

    ghost read_key = { read_unsigned 16 };

    #[inline(always)]
    fn widen(self) -> WideInteger {
        WideInteger::Unsigned(self as u64)
    }

    ghost parses = { λ k r gives. unsigned-parses 16 k r gives.0 };

    ghost alike = { nat-alike };

    ghost same = { nat-same };

    ghost back = { unsigned-back 16 (Prim.omega arith) };
}

impl StdInteger for u32 {
    ghost number = { λ n. pos n };

    ghost is_signed = { false };

    ghost in_range = { λ n. n < 2 ^ 32 };

    ghost key = { of_nat };

    ghost read_key = { read_unsigned 32 };

    #[inline(always)]
    fn widen(self) -> WideInteger {
        WideInteger::Unsigned(self as u64)
    }

    ghost parses = { λ k r gives. unsigned-parses 32 k r gives.0 };

    ghost alike = { nat-alike };

    ghost same = { nat-same };

    ghost back = { unsigned-back 32 (Prim.omega arith) };
}

impl StdInteger for u64 {
    ghost number = { λ n. pos n };

    ghost is_signed = { false };

    ghost in_range = { λ n. n < 2 ^ 64 };

    ghost key = { of_nat };

    ghost read_key = { read_unsigned 64 };

    #[inline(always)]
    fn widen(self) -> WideInteger {
        WideInteger::Unsigned(self)
    }

    ghost parses = { λ k r gives. unsigned-parses 64 k r gives.0 };

    ghost alike = { nat-alike };

    ghost same = { nat-same };

    ghost back = { unsigned-back 64 (Prim.omega arith) };
}

impl StdInteger for usize {
    ghost number = { λ n. pos n };

    ghost is_signed = { false };

    ghost in_range = { λ n. n < 2 ^ 64 };

    ghost key = { of_nat };

    ghost read_key = { read_unsigned 64 };

    #[inline(always)]
    fn widen(self) -> WideInteger {
        WideInteger::Unsigned(self as u64)
    }

    ghost parses = { λ k r gives. unsigned-parses 64 k r gives.0 };

    ghost alike = { nat-alike };

    ghost same = { nat-same };

    ghost back = { unsigned-back 64 (Prim.omega arith) };
}

impl StdInteger for i8 {
    ghost number = { λ z. z };

    ghost is_signed = { true };

    ghost in_range = { FitsSigned w8 };

    ghost key = { of_int };

    ghost read_key = { read_signed 8 };

    #[inline(always)]
    fn widen(self) -> WideInteger {
        WideInteger::Signed(self as i64)
    }

    ghost parses = { λ k r gives. signed-parses i8_bits k r gives.0 };

    ghost alike = { int-alike };

    ghost same = { int-same };

    ghost back = { signed-back i8_bits };
}

impl StdInteger for i16 {
    ghost number = { λ z. z };

    ghost is_signed = { true };

    ghost in_range = { FitsSigned w16 };

    ghost key = { of_int };

    ghost read_key = { read_signed 16 };

    #[inline(always)]
    fn widen(self) -> WideInteger {
        WideInteger::Signed(self as i64)
    }

    ghost parses = { λ k r gives. signed-parses i16_bits k r gives.0 };

    ghost alike = { int-alike };

    ghost same = { int-same };

    ghost back = { signed-back i16_bits };
}

impl StdInteger for i32 {
    ghost number = { λ z. z };

    ghost is_signed = { true };

    ghost in_range = { FitsSigned w32 };

    ghost key = { of_int };

    ghost read_key = { read_signed 32 };

    #[inline(always)]
    fn widen(self) -> WideInteger {
        WideInteger::Signed(self as i64)
    }

    ghost parses = { λ k r gives. signed-parses i32_bits k r gives.0 };

    ghost alike = { int-alike };

    ghost same = { int-same };

    ghost back = { signed-back i32_bits };
}

impl StdInteger for i64 {
    ghost number = { λ z. z };

    ghost is_signed = { true };

    ghost in_range = { FitsSigned w64 };

    ghost key = { of_int };

    ghost read_key = { read_signed 64 };

    #[inline(always)]
    fn widen(self) -> WideInteger {
        WideInteger::Signed(self)
    }

    ghost parses = { λ k r gives. signed-parses i64_bits k r gives.0 };

    ghost alike = { int-alike };

    ghost same = { int-same };

    ghost back = { signed-back i64_bits };
}

impl StdInteger for isize {
    ghost number = { λ z. z };

    ghost is_signed = { true };

    ghost in_range = { FitsSigned w64 };

    ghost key = { of_int };

    ghost read_key = { read_signed 64 };

    #[inline(always)]
    fn widen(self) -> WideInteger {
        WideInteger::Signed(self as i64)
    }

    ghost parses = { λ k r gives. signed-parses i64_bits k r gives.0 };

    ghost alike = { int-alike };

    ghost same = { int-same };

    ghost back = { signed-back i64_bits };
}
