//! The text of a `Blob`, by the toolchain's crate `base64`.
ghost use Rattle.std.specs.Prelude.{◌≡◌, ℕ, List, Some};
ghost use Rattle.ids.specs.Blobs.{blob_of, blob_text};

use crate::uploads::Blob;
use base64::DecodeAllocError;
use base64::engine::general_purpose::STANDARD;
use miniserde::{Error, Result, TextValue};
use std::alloc::Global;

// Does nothing. It promises that the text of bytes is decoded as these bytes.
fn decode_back(bytes: &[u8])
    ensures { blob_of (blob_text bytes.now) ≡ Some bytes.now }
{}

impl TextValue for Blob {
    ghost Content = { List ℕ };

    ghost content = { λ blob. blob.0.items };

    ghost parsed = { blob_of };

    ghost text = { blob_text };

    fn parse(alloc: Global, s: &str) -> Result<Blob> {
        match STANDARD.decode(alloc, s.as_bytes()) {
            Ok(bytes) => Ok(Blob(bytes)),
            Err(DecodeAllocError::OutOfMemory) => Err(Error::Memory),
            Err(_) => Err(Error::Invalid),
        }
    }

    fn write(&self, out: &mut String) -> Result<()> {
        Ok(STANDARD.encode_string(self.0.as_slice(), out)?)
    }

    fn is_read_back(&self) {
        decode_back(self.0.as_slice());
    }
}
