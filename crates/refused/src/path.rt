//! Paths to fields of structs within structs.
ghost use Rattle.std.specs.Prelude.{◌≡◌, ◌∷◌, ◌++◌, [], IfErr, IfOk, map};
ghost use Rattle.miniserde.specs.declared.Error.{Error};
ghost use Rattle.refused.specs.Text.{char_text, name_text};
ghost use Rattle.refused.specs.Wrong.{name_or_empty};
ghost use Rattle.std.specs.Fmt.{WritesOnOk, WritesStyledOnOk};

use crate::names::Names;
use miniserde::Result;
use std::alloc::Global;
use std::fmt;

/// A path to a field: the names of the fields that contain it, from the outermost one inwards, and its own name last. It
/// is empty for the document itself.
#[derive(Debug, Drop)]
pub struct FieldPath {
    pub names: Vec<&'static str>,
}

impl FieldPath {
    /// Returns the path to the document itself.
    pub fn new(alloc: Global) -> FieldPath
        ensures { map (λ s. s.now) result.names.items ≡ [] }
    {
        FieldPath {
            names: Vec::new(alloc),
        }
    }
}

/// Shows the names with dots between them, as `tls.cert`. A dot, a quotation mark and a backslash in a name have a
/// backslash before them, and the empty name is `""`: a name with a dot is told from two names. Allocates nothing.
impl fmt::Display for FieldPath {
    ghost use Rattle.std.specs.Prelude.{Some};
    ghost use Rattle.refused.specs.Text.{path_text};

    ghost output = { λ p. Some (path_text (map (λ s. s.now) p.names.items)) };

    // Formatting options, as in `{:>20}`, change nothing.
    ghost styled_output = { λ p _. Some (path_text (map (λ s. s.now) p.names.items)) };

    fn fmt<W: fmt::Write>(&self, f: &mut fmt::Formatter<W>) -> fmt::Result {
        if let Some((first, later)) = self.names.split_first() {
            write_name(first, f)?;
            for name in later {
                f.write_str(".")?;
                write_name(name, f)?;
            }
        }
        Ok(())
    }
}

// Writes the text for a name.
fn write_name<W: fmt::Write>(name: &str, f: &mut fmt::Formatter<W>) -> fmt::Result
    ensures writes { WritesOnOk W.write_str_gives f.old result (name_text name.now) f.new }
    ensures styled { WritesStyledOnOk W.write_str_gives f.old result (name_text name.now) f.new }
{
    if name.is_empty() {
        return f.write_str("\"\"");
    }
    for c in name.chars() {
        write_escaped(c, f)?;
    }
    Ok(())
}

// Writes a character of a name, with a backslash before it if it needs one.
fn write_escaped<W: fmt::Write>(c: char, f: &mut fmt::Formatter<W>) -> fmt::Result
    ensures writes { WritesOnOk W.write_str_gives f.old result (char_text c) f.new }
    ensures styled { WritesStyledOnOk W.write_str_gives f.old result (char_text c) f.new }
{
    match c {
        '.' | '"' | '\\' => {
            f.write_str("\\")?;
            f.write_char(c)
        }
        _ => f.write_char(c),
    }
}

/// Appends the first of the names `N` to a path, or the empty name if there is none. Returns `Memory` if an allocation
/// fails.
pub fn enter<N: Names>(mut path: FieldPath) -> Result<FieldPath>
    ensures path { IfOk result (λ p. map (λ s. s.now) p.names.items
        ≡ map (λ s. s.now) path.names.items ++ name_or_empty N.names ∷ []) }
    ensures memory { IfErr result (λ e. e ≡ Error.Memory) }
{
    let name = match N::names().split_first() {
        Some((name, _)) => *name,
        None => "",
    };
    path.names.push(name)?;
    Ok(path)
}
