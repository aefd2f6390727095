//! The traits of marks, and `Plain` for a field without a mark.
ghost use Rattle.std.specs.Prelude.{◌≡◌, true, false, Bool, Option, None, Ok, Err, IfOk, IfErr, IsOk, option_map};
ghost use Rattle.miniserde_model.specs.Tree.{Tree};
ghost use Rattle.miniserde_model.specs.declared.error.Error.{Error};
ghost use Rattle.miniserde_record.specs.Fields.{missing_content};

use miniserde_model::error::Result;
use miniserde_read::FromJson;
use std::alloc::Global;

/// A mark that says whether a duplicate of a field's name is an error.
pub trait Repeats {
    // Whether a duplicate of the field's name is an error.
    ghost once: { Bool };

    /// Returns whether a duplicate of the field's name is an error.
    fn is_once() -> bool
        ensures { result ≡ once };
}

/// A mark: what is asked of a field of the type `T` besides its type.
pub trait Mark<T: FromJson>: Repeats {
    // The tree of a missing field's value. If it is `None`, the type says which value a missing
    // field has, if any.
    ghost given: { Option Tree };

    // If true, `missing` never fails to allocate.
    ghost missing_infallible: { Bool } = { false };

    /// Returns the value of a missing field, or `None` if a missing field is an error. Returns
    /// `Memory` if an allocation fails.
    fn missing(alloc: Global) -> Result<Option<T>>
        ensures ok { IfOk result (λ v. option_map T.means.content v ≡ missing_content T.means given T.absent) }
        ensures memory { IfErr result (λ e. e ≡ Error.Memory) }
        ensures infallible { missing_infallible ≡ true → IsOk result };
}

/// No mark: the last member of the field's name counts, and the type says which value a missing field has, if any.
pub struct Plain {}

impl Repeats for Plain {
    ghost once = { false };

    fn is_once() -> bool {
        false
    }
}

impl<T: FromJson> Mark<T> for Plain {
    ghost given = { None };

    ghost missing_infallible = { true };

    fn missing(_alloc: Global) -> Result<Option<T>> {
        Ok(T::missing())
    }
}
