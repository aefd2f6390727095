//! Arrays: made, changed, gone through and copied.

use miniserde::error::Result;
use miniserde::json::{Array, Number, Value, from_str, to_string};
use std::alloc::Global;
use test_tables::{Wrong, expect_ok};

/// Returns whether a value is written as expected.
fn is_written(alloc: Global, array: &Array, expected: &str) -> Result<bool> {
    Ok(to_string(alloc, array)?.as_str() == expected)
}

/// Returns whether an array with its second item replaced is written so.
fn is_replaced(alloc: Global) -> Result<bool> {
    let mut array: Array = from_str(alloc, "[1,2,3]")?;
    match array.inner_mut().get_mut(1) {
        Some(item) => *item = Value::Null,
        None => return Ok(false),
    }
    is_written(alloc, &array, "[1,null,3]")
}

/// Returns whether an array is made from its items.
fn is_made(alloc: Global) -> Result<bool> {
    let mut items = Vec::new(alloc);
    items.push(Value::Bool(true))?;
    items.push(Value::Null)?;
    is_written(alloc, &Array::from_iter(alloc, items)?, "[true,null]")
}

/// Returns whether an array and its copy have the item that was pushed.
fn is_copied(alloc: Global) -> Result<bool> {
    let mut array = Array::new(alloc);
    array.inner_mut().push(Value::Number(Number::I64(5)))?;
    let copy = array.try_clone(alloc)?;
    let item = copy.inner().get(0);
    Ok(matches!(item, Some(Value::Number(Number::I64(5)))) && is_written(alloc, &copy, "[5]")?)
}

/// Returns whether a value that is an array is taken as it, and one that is an object is not.
fn is_taken_alone(alloc: Global) -> Result<bool> {
    let list: Value = from_str(alloc, "[1]")?;
    let object: Value = from_str(alloc, "{}")?;
    match (list.into_array(), object.into_array()) {
        (Some(array), None) => is_written(alloc, &array, "[1]"),
        _ => Ok(false),
    }
}

#[test]
fn an_array_is_made_of_its_items(rt: HostRuntime) -> std::result::Result<(), Wrong> {
    let alloc = rt.alloc();
    expect_ok(is_written(alloc, &Array::new(alloc), "[]"), "no item")?;
    expect_ok(is_replaced(alloc), "a replaced item")?;
    expect_ok(is_made(alloc), "from_iter")?;
    expect_ok(is_copied(alloc), "a copy")?;
    expect_ok(is_taken_alone(alloc), "an array of a value")
}

/// Returns the items of an array, which it lends, one after another.
fn lent(alloc: Global, array: &Array) -> Result<String> {
    let mut met = String::new(alloc);
    for item in array {
        met.push_str(to_string(alloc, item)?.as_str())?;
    }
    Ok(met)
}

/// Returns the items of an array one after another, and replaces each by `null`.
fn replaced(alloc: Global, array: &mut Array) -> Result<String> {
    let mut met = String::new(alloc);
    for item in array {
        met.push_str(to_string(alloc, item)?.as_str())?;
        *item = Value::Null;
    }
    Ok(met)
}

/// Returns the items of an array, which is taken apart, one after another.
fn taken(alloc: Global, array: Array) -> Result<String> {
    let mut met = String::new(alloc);
    for item in array {
        met.push_str(to_string(alloc, &item)?.as_str())?;
    }
    Ok(met)
}

/// Returns whether the items of an array are met in order by each way to go through it.
fn is_met_in_order(alloc: Global) -> Result<bool> {
    let mut array: Array = from_str(alloc, "[1,2,3]")?;
    Ok(
        lent(alloc, &array)?.as_str() == "123"
            && replaced(alloc, &mut array)?.as_str() == "123"
            && is_written(alloc, &array, "[null,null,null]")?
            && taken(alloc, from_str(alloc, "[1,2,3]")?)?.as_str() == "123",
    )
}

#[test]
fn the_items_of_an_array_are_met_in_order(rt: HostRuntime) -> std::result::Result<(), Wrong> {
    expect_ok(is_met_in_order(rt.alloc()), "three items")
}
