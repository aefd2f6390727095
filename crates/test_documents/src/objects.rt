//! Objects: made, gone through and copied.

use miniserde::error::Result;
use miniserde::json::{Object, Value, from_str, to_string};
use std::alloc::Global;
use test_tables::{Wrong, expect_ok};

/// Returns whether an object is written as expected.
fn is_written(alloc: Global, object: &Object, expected: &str) -> Result<bool> {
    Ok(to_string(alloc, object)?.as_str() == expected)
}

/// Returns whether an object is made of the members `a`, `a` and `B`, of which the first is `true`.
fn is_made(alloc: Global) -> Result<bool> {
    let mut members = Vec::new(alloc);
    members.push((String::from_str(alloc, "a")?, Value::Bool(true)))?;
    members.push((String::from_str(alloc, "a")?, Value::Null))?;
    members.push((String::from_str(alloc, "B")?, Value::Null))?;
    let object = Object::from_iter(alloc, members)?;
    is_written(alloc, &object, r#"{"B":null,"a":null}"#)
}

const COPIED: &str = r#"{"a":[1.50],"b":{}}"#;

/// Returns whether the copy of an object and the object itself are written alike.
fn is_copied(alloc: Global) -> Result<bool> {
    let object: Object = from_str(alloc, r#"{"b":{},"a":[1.50]}"#)?;
    let copy = object.try_clone(alloc)?;
    Ok(is_written(alloc, &copy, COPIED)? && is_written(alloc, &object, COPIED)?)
}

/// Returns whether a member that was added by hand is found and written.
fn is_added(alloc: Global) -> Result<bool> {
    let mut object: Object = from_str(alloc, r#"{"b":1}"#)?;
    object
        .inner_mut()
        .insert(String::from_str(alloc, "a")?, Value::Null)?;
    Ok(object.inner().len() == 2 && is_written(alloc, &object, r#"{"a":null,"b":1}"#)?)
}

/// Returns whether a value that is an object is taken as it, and one that is an array is not.
fn is_taken_alone(alloc: Global) -> Result<bool> {
    let object: Value = from_str(alloc, r#"{"a":1}"#)?;
    let list: Value = from_str(alloc, "[]")?;
    match (object.into_object(), list.into_object()) {
        (Some(object), None) => is_written(alloc, &object, r#"{"a":1}"#),
        _ => Ok(false),
    }
}

#[test]
fn an_object_is_made_of_its_members(rt: HostRuntime) -> std::result::Result<(), Wrong> {
    let alloc = rt.alloc();
    expect_ok(is_written(alloc, &Object::new(alloc), "{}"), "no member")?;
    expect_ok(is_made(alloc), "from_iter")?;
    expect_ok(is_copied(alloc), "a copy")?;
    expect_ok(is_added(alloc), "a member by hand")?;
    expect_ok(is_taken_alone(alloc), "an object of a value")
}

/// Returns the names and values of an object, which it lends, one after another.
fn lent(alloc: Global, object: &Object) -> Result<String> {
    let mut met = String::new(alloc);
    for (name, value) in object {
        met.push_str(name.as_str())?;
        met.push_str(to_string(alloc, value)?.as_str())?;
    }
    Ok(met)
}

/// Returns the names and values of an object one after another, and replaces each value by `null`.
fn replaced(alloc: Global, object: &mut Object) -> Result<String> {
    let mut met = String::new(alloc);
    for (name, value) in object {
        met.push_str(name.as_str())?;
        met.push_str(to_string(alloc, value)?.as_str())?;
        *value = Value::Null;
    }
    Ok(met)
}

/// Returns the names and values of an object, which is taken apart, one after another.
fn taken(alloc: Global, object: Object) -> Result<String> {
    let mut met = String::new(alloc);
    for (name, value) in object {
        met.push_str(name.as_str())?;
        met.push_str(to_string(alloc, &value)?.as_str())?;
    }
    Ok(met)
}

/// Returns whether the members of an object are met in order of their names by each way to go through it.
fn is_met_in_order(alloc: Global) -> Result<bool> {
    let mut object: Object = from_str(alloc, r#"{"b":2,"a":1}"#)?;
    Ok(
        lent(alloc, &object)?.as_str() == "a1b2"
            && replaced(alloc, &mut object)?.as_str() == "a1b2"
            && is_written(alloc, &object, r#"{"a":null,"b":null}"#)?
            && taken(alloc, from_str(alloc, r#"{"b":2,"a":1}"#)?)?.as_str() == "a1b2",
    )
}

#[test]
fn the_members_of_an_object_are_met_in_order(rt: HostRuntime) -> std::result::Result<(), Wrong> {
    expect_ok(is_met_in_order(rt.alloc()), "two members")
}
