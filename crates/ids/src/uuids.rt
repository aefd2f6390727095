//! The text of an `AccountId`, by the toolchain's crate `uuid`.
ghost use Rattle.std.specs.Prelude.{ℕ, List, true};
ghost use Rattle.uuid.specs.Text.{hyphenated_text, lower, parsed};

use crate::ids::AccountId;
use miniserde::{Error, Result, TextValue};
use std::alloc::Global;
use uuid::Uuid;

impl TextValue for AccountId {
    ghost Content = { List ℕ };

    ghost content = { λ id. id.0 };

    ghost parsed = { parsed };

    ghost text = { hyphenated_text lower };

    ghost parse_infallible = { true };

    fn parse(_alloc: Global, s: &str) -> Result<AccountId> {
        match Uuid::parse_str(s) {
            Ok(uuid) => Ok(AccountId(uuid)),
            Err(_) => Err(Error::Invalid),
        }
    }

    fn write(&self, out: &mut String) -> Result<()> {
        let mut buffer = Uuid::encode_buffer();
        Ok(out.push_str(self.0.hyphenated().encode_lower(&mut buffer))?)
    }

    fn is_read_back(&self) {
        let mut buffer = Uuid::encode_buffer();
        let _text = self.0.hyphenated().encode_lower(&mut buffer);
    }
}
