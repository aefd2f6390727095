//! The text of a `Day`, by the toolchain's crate `jiff`.
ghost use Rattle.std.specs.Prelude.{true};
ghost use Rattle.jiff_fmt.specs.Temporal.{DateParts, date_parts};
ghost use Rattle.ids.specs.Days.{day_of, day_text};

use crate::uploads::Day;
use jiff::civil::Date;
use miniserde::{Error, Result, TextValue};
use std::alloc::Global;
use std::fmt::Write;

impl TextValue for Day {
    ghost Content = { DateParts };

    ghost content = { λ day. date_parts day.0 };

    ghost parsed = { day_of };

    ghost text = { day_text };

    ghost parse_infallible = { true };

    fn parse(_alloc: Global, s: &str) -> Result<Day> {
        match s.parse::<Date>() {
            Ok(date) => Ok(Day(date)),
            Err(_) => Err(Error::Invalid),
        }
    }

    fn write(&self, out: &mut String) -> Result<()> {
        Ok(write!(out, "{}", self.0)?)
    }

    fn is_read_back(&self) {}
}
