//! A document with a byte changed.

use crate::failures::DOCUMENT;
use crate::wrong::{Wrong, expect};
use miniserde_canonical::canonical;
use miniserde_program::canon::{Counted, Fault, run};
use std::alloc::Global;
use std::str;

/// Returns whether the canonical text of a text is the text itself.
fn is_canonical(alloc: Global, bytes: &[u8]) -> bool {
    let Ok(text) = str::from_utf8(bytes) else {
        return false;
    };
    match canonical(alloc, text) {
        Ok(again) => again.as_str() == text,
        Err(_) => false,
    }
}

/// Returns how many of the 256 bytes leave the document a text when they stand at the place, unless an answer is not
/// its own.
fn taken_at(alloc: Global, bytes: &mut [u8], at: usize) -> Option<u32> {
    let mut taken = 0u32;
    for byte in 0..=255u8 {
        *bytes.get_mut(at)? = byte;
        let mut r = Counted::new(&*bytes);
        let mut w = Counted::new(Vec::new(alloc));
        match run(alloc, &mut r, &mut w) {
            Ok(()) => {
                if !is_canonical(alloc, w.into_inner().as_slice()) {
                    return None;
                }
                taken = taken.wrapping_add(1);
            }
            Err(Fault::Invalid) => {}
            Err(_) => return None,
        }
    }
    Some(taken)
}

#[test]
fn each_byte_replaced_by_each(rt: HostRuntime) -> Result<(), Wrong> {
    let mut taken = 0u32;
    for at in 0..DOCUMENT.len() {
        let mut bytes = *DOCUMENT;
        match taken_at(rt.alloc(), &mut bytes, at) {
            Some(more) => taken = taken.wrapping_add(more),
            None => expect(false, "an answer")?,
        }
    }
    // Another reader of JSON takes as many of the 13,056 texts.
    expect(taken == 652, "each byte")
}
