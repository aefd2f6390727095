//! A type of another crate without a lemma for its round trip. The newtype keeps the text that was read, and writes it.
ghost use Rattle.std.specs.Prelude.{◌≡◌, ℕ, List, Ok, string_bytes};
ghost use Rattle.semver.specs.Identifiers.{parts_of};
ghost use Rattle.semver.specs.Parse.{version_parts};
ghost use Rattle.ids.specs.Versions.{if_version};

use crate::releases::Release;
use miniserde::{Error, Result, TextValue};
use semver::Version;
use std::alloc::{AllocError, Global};

/// A version, with the text that it was read from.
#[derive(Drop)]
pub struct ReadVersion {
    text: String,
    version: Version,
    pub ghost parsed: { version_parts (string_bytes text) ≡ Ok (parts_of version) },
}

impl ReadVersion {
    /// Returns the version.
    pub fn version(&self) -> &Version
        ensures { version_parts (string_bytes self.now.text) ≡ Ok (parts_of result.now) }
    {
        &self.version
    }
}

impl TextValue for Release {
    ghost Content = { List ℕ };

    ghost content = { λ release. string_bytes release.0.text };

    ghost parsed = { if_version };

    ghost text = { λ bytes. bytes };

    fn parse(alloc: Global, s: &str) -> Result<Release> {
        match Version::parse(alloc, s) {
            Ok(version) => {
                let text = String::from_str(alloc, s)?;
                Ok(Release(ReadVersion { text, version }))
            }
            Err(error) if error == semver::Error::from(AllocError) => Err(Error::Memory),
            Err(_) => Err(Error::Invalid),
        }
    }

    fn write(&self, out: &mut String) -> Result<()> {
        Ok(out.push_str(self.0.text.as_str())?)
    }

    fn is_read_back(&self) {
        let _version = self.0.version();
    }
}
