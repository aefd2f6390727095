//! Writes integers.
ghost use Rattle.miniserde_model.specs.Tree.{nonneg};
ghost use Rattle.miniserde_keys.specs.Integers.{integer};

use crate::ser::{Fragment, Serialize, Writer};
use miniserde_model::error::Result;

impl Serialize for u8 {
    ghost tree = { nonneg };

    #[inline(always)]
    fn begin(&self, w: &mut Writer) -> Result<()> {
        w.fragment(Fragment::U64(*self as u64))
    }
}

impl Serialize for u16 {
    ghost tree = { nonneg };

    #[inline(always)]
    fn begin(&self, w: &mut Writer) -> Result<()> {
        w.fragment(Fragment::U64(*self as u64))
    }
}

impl Serialize for u32 {
    ghost tree = { nonneg };

    #[inline(always)]
    fn begin(&self, w: &mut Writer) -> Result<()> {
        w.fragment(Fragment::U64(*self as u64))
    }
}

impl Serialize for u64 {
    ghost tree = { nonneg };

    #[inline(always)]
    fn begin(&self, w: &mut Writer) -> Result<()> {
        w.fragment(Fragment::U64(*self))
    }
}

impl Serialize for usize {
    ghost tree = { nonneg };

    #[inline(always)]
    fn begin(&self, w: &mut Writer) -> Result<()> {
        w.fragment(Fragment::U64(*self as u64))
    }
}

impl Serialize for i8 {
    ghost tree = { integer };

    #[inline(always)]
    fn begin(&self, w: &mut Writer) -> Result<()> {
        w.fragment(Fragment::I64(*self as i64))
    }
}

impl Serialize for i16 {
    ghost tree = { integer };

    #[inline(always)]
    fn begin(&self, w: &mut Writer) -> Result<()> {
        w.fragment(Fragment::I64(*self as i64))
    }
}

impl Serialize for i32 {
    ghost tree = { integer };

    #[inline(always)]
    fn begin(&self, w: &mut Writer) -> Result<()> {
        w.fragment(Fragment::I64(*self as i64))
    }
}

impl Serialize for i64 {
    ghost tree = { integer };

    #[inline(always)]
    fn begin(&self, w: &mut Writer) -> Result<()> {
        w.fragment(Fragment::I64(*self))
    }
}

impl Serialize for isize {
    ghost tree = { integer };

    #[inline(always)]
    fn begin(&self, w: &mut Writer) -> Result<()> {
        w.fragment(Fragment::I64(*self as i64))
    }
}
