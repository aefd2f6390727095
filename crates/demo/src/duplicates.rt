//! What a duplicate name means for a struct, with `once` and without.
ghost use Rattle.std.specs.Prelude.{◌≡◌, [], string_bytes};
ghost use Rattle.demo.specs.Duplicates.{duplicate};

use crate::strict::StrictDemo;
use crate::structs::Demo;
use miniserde::FromJson;

/// Does nothing. It promises that `{"code":1,"code":2,"message":""}` means each `Demo` with code 2 and no message, and
/// no `StrictDemo`.
pub fn duplicate_names()
    ensures demo { (v : Demo) → v.code ≡ 2 → string_bytes v.message ≡ []
        → ⟦<Demo as FromJson>⟧.means.reads duplicate v }
    ensures strict { (v : StrictDemo) → ⟦<StrictDemo as FromJson>⟧.means.reads duplicate v → ⊥ }
{}
