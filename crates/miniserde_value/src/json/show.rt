//! Implements `Debug` for documents, without recursion.

use super::array::Array;
use super::object::Object;
use super::value::Value;
use super::walk::{Visit, Walk};
use std::fmt::{Debug, Error, Formatter, Result, Write};

// The state of the output: how many containers are open, and whether the innermost has no item or member yet.
#[derive(Clone, Copy, Drop)]
struct Nesting {
    levels: u64,
    first: bool,
}

// Writes a line break and four spaces for each of the levels, as std does for `{:#?}`.
fn begin_line<W: Write>(f: &mut Formatter<W>, levels: u64) -> Result {
    f.write_str("\n")?;
    for _ in 0..levels {
        f.write_str("    ")?;
    }
    Ok(())
}

// Writes what stands before an item or a name. For `{:#?}` it is a line break with indentation,
// after a comma unless the item is the first; for `{:?}` a comma and a space, unless the item is
// the first.
fn write_separator<W: Write>(f: &mut Formatter<W>, nesting: Nesting) -> Result {
    match (f.alternate(), nesting.first) {
        (true, true) => begin_line(f, nesting.levels),
        (true, false) => {
            f.write_str(",")?;
            begin_line(f, nesting.levels)
        }
        (false, true) => Ok(()),
        (false, false) => f.write_str(", "),
    }
}

// Writes the closing bracket of the innermost open container. For `{:#?}` it has a line of its own,
// after a comma behind the last item, unless the container is empty.
fn end<W: Write>(f: &mut Formatter<W>, nesting: Nesting, bracket: &str) -> Result {
    if f.alternate() && !nesting.first {
        f.write_str(",")?;
        begin_line(f, nesting.levels.saturating_sub(1))?;
    }
    f.write_str(bracket)
}

// Writes the text of one visit. `nesting` is the state before it.
fn show<W: Write>(f: &mut Formatter<W>, visit: Visit<'_>, nesting: Nesting) -> Result {
    match visit {
        Visit::Null => f.write_str("Null"),
        Visit::Bool(b) => write!(f, "Bool({b})"),
        Visit::Number(number) => write!(f, "{number:?}"),
        Visit::String(text) => write!(f, "String({text:?})"),
        Visit::Array => f.write_str("Array ["),
        Visit::Object => f.write_str("Object {"),
        Visit::Element => write_separator(f, nesting),
        Visit::Name(name) => {
            write_separator(f, nesting)?;
            write!(f, "{name:?}: ")
        }
        Visit::ArrayEnd => end(f, nesting, "]"),
        Visit::ObjectEnd => end(f, nesting, "}"),
    }
}

// Returns the state of the output after a visit. `nesting` is the state before it.
fn after(visit: Visit<'_>, nesting: Nesting) -> Nesting {
    match visit {
        Visit::Array | Visit::Object => Nesting {
            levels: nesting.levels.saturating_add(1),
            first: true,
        },
        Visit::ArrayEnd | Visit::ObjectEnd => Nesting {
            levels: nesting.levels.saturating_sub(1),
            first: false,
        },
        _ => Nesting {
            first: false,
            ..nesting
        },
    }
}

// Writes the text of all visits of a walk, which begins after an opening bracket. Fails also if the
// walk fails to allocate.
fn show_all<W: Write>(mut walk: Walk<'_>, f: &mut Formatter<W>) -> Result {
    let mut nesting = Nesting {
        levels: 1,
        first: true,
    };
    while let Some(visit) = walk.next().map_err(|_| Error)? {
        show(f, visit, nesting)?;
        nesting = after(visit, nesting);
    }
    Ok(())
}

/// Shows the array as std shows a list, after the word `Array`. Fails also if the walk fails to
/// allocate.
impl Debug for Array {
    fn fmt<W: Write>(&self, f: &mut Formatter<W>) -> Result {
        f.write_str("Array [")?;
        match Walk::array(*self.inner().allocator(), self) {
            Ok(walk) => show_all(walk, f),
            Err(_) => Err(Error),
        }
    }
}

/// Shows the object as std shows a map, after the word `Object`. Fails also if the walk fails to
/// allocate.
impl Debug for Object {
    fn fmt<W: Write>(&self, f: &mut Formatter<W>) -> Result {
        f.write_str("Object {")?;
        // The walk's stack uses the allocator of the first name, since the map tells none.
        let Some((name, _)) = self.inner().iter().next() else {
            return f.write_str("}");
        };
        match Walk::object(*name.allocator(), self) {
            Ok(walk) => show_all(walk, f),
            Err(_) => Err(Error),
        }
    }
}

/// Shows a leaf as its variant, such as `Bool(true)`, on one line also for `{:#?}`. Shows a container as std shows a
/// list or a map, after the word `Array` or `Object`, without recursion. Fails also if the walk fails to allocate.
impl Debug for Value {
    fn fmt<W: Write>(&self, f: &mut Formatter<W>) -> Result {
        match self {
            Value::Null => f.write_str("Null"),
            Value::Bool(b) => write!(f, "Bool({b})"),
            Value::Number(number) => write!(f, "{number:?}"),
            Value::String(text) => write!(f, "String({text:?})"),
            Value::Array(array) => Debug::fmt(array, f),
            Value::Object(object) => Debug::fmt(object, f),
        }
    }
}
