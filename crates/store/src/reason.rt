//! Why a body does not match the type, and the problem details that say so (RFC 9457).
ghost use Rattle.std.specs.Prelude.{◌≡◌, IfOk, option_map, string_bytes};
ghost use Rattle.miniserde.specs.Compact.{compact};
ghost use Rattle.store.specs.Reasons as spec;
ghost use Rattle.store.specs.Reasons.{path_names, problem};

use miniserde::Result;
use miniserde::record::{Omitted, Parts, write_members};
use miniserde::ser::Writer;
use refused::FieldPath;
use std::alloc::Global;

/// The names of the members of a problem.
const PROBLEM_NAMES: &[&str] = &["title", "status", "detail", "field"];

/// Why a body does not match the type.
#[derive(Debug, Drop)]
pub enum Reason {
    /// It is not a JSON text.
    NoJson,
    /// It has no value for the field at the path. If the path is empty, it is not an object.
    Field(FieldPath),
    /// It is a JSON text that does not match the type.
    NoValue,
}

// Returns the text of the path to a field, or `None` if the path is empty.
fn field_of(alloc: Global, path: &FieldPath) -> Result<Option<String>>
    ensures { IfOk result (λ field. option_map string_bytes field ≡ spec.field_of (path_names path.now)) }
{
    if path.names.is_empty() {
        return Ok(None);
    }
    Ok(Some(path.to_string(alloc)?))
}

// Returns the sentence of a wrong field, by the text of its path.
fn field_detail(alloc: Global, field: &Option<String>) -> Result<String>
    ensures { IfOk result (λ text. string_bytes text ≡ spec.field_detail (option_map string_bytes field.now)) }
{
    match field {
        Some(field) => Ok(format!(in alloc; "the field {field} is wrong")?),
        None => Ok("the body is not an object".to_string(alloc)?),
    }
}

/// Returns the problem details of a sentence, and of a field that is wrong. Returns `Memory` if an allocation fails.
pub fn details(alloc: Global, detail: &str, field: &Option<String>) -> Result<String>
    ensures { IfOk result (λ text. string_bytes text
        ≡ compact (problem detail.now (option_map string_bytes field.now))) }
{
    let mut w = Writer::new(alloc);
    write_members(
        &mut w,
        PROBLEM_NAMES,
        &Parts(
            &"Bad Request",
            Parts(&400u16, Parts(&detail, Parts(Omitted(field), ()))),
        ),
    )?;
    w.into_string()
}

/// Returns the problem details of a 400. Returns `Memory` if an allocation fails.
pub fn problem_text(alloc: Global, reason: &Reason) -> Result<String>
    ensures { IfOk result (λ text. string_bytes text ≡ spec.problem_text reason.now) }
{
    match reason {
        Reason::NoJson => details(alloc, "the body is not valid JSON", &None),
        Reason::Field(path) => {
            let field = field_of(alloc, path)?;
            let detail = field_detail(alloc, &field)?;
            details(alloc, detail.as_str(), &field)
        }
        Reason::NoValue => details(alloc, "the body does not match the expected type", &None),
    }
}
