//! Callers with contracts of their own.

use examples::batches::settled_all;
use examples::by_events::read_by_events;
use examples::counter::elements;
use examples::limits::limit_of;
use examples::orders::settled;
use examples::rates::fraction;
use examples::readme::one_more;
use examples::totals::total;
use miniserde::error::{Error, Result};
use miniserde::json::{Number, from_str};
use std::alloc::Global;
use test_tables::{Wrong, expect, expect_ok, expect_round_trip, is_right, text_of};

const ORDERS: &str =
    r#"{"id":7,"quantity":2,"paid":false,"note":"by noon"} => {"id":7,"quantity":2,"paid":true,"note":"by noon"}
 {"paid": true, "of": [1], "quantity": 0, "id": 18446744073709551615}  => {"id":18446744073709551615,"quantity":0,"paid":true,"note":null}
{"id":1,"id":2,"quantity":1,"paid":false,"note":"a\/\u0022"} => {"id":2,"quantity":1,"paid":true,"note":"a/\""}

[]
{"id":7,"quantity":2,"note":null}
{"id":-1,"quantity":2,"paid":false}
{"id":7,"quantity":4294967296,"paid":false}
{"id":7,"quantity":2,"paid":0}
{"id":7,"quantity":2,"paid":false} 1"#;

#[test]
fn an_order_is_settled_or_raised(rt: HostRuntime) -> std::result::Result<(), Wrong> {
    let alloc = rt.alloc();
    for line in ORDERS.lines() {
        expect(is_right(settled(alloc, text_of(line)), line), line)?;
    }
    let line =
        r#"{"id":7,"quantity":1,"paid":false} => {"id":7,"quantity":2,"paid":false,"note":null}"#;
    expect(is_right(one_more(alloc, text_of(line)), line), line)
}

const BATCHES: &str = r#"[] => same
[{"id":7,"quantity":2,"paid":false,"note":"by noon"}] => [{"id":7,"quantity":2,"paid":true,"note":"by noon"}]
 [ {"id":1,"quantity":0,"paid":true} , {"paid":false,"id":2,"quantity":1,"of":[1]},{"id":3,"quantity":1,"paid":false,"note":null} ]  => [{"id":1,"quantity":0,"paid":true,"note":null},{"id":2,"quantity":1,"paid":true,"note":null},{"id":3,"quantity":1,"paid":true,"note":null}]

{}
null
[null]
{"id":7,"quantity":2,"paid":false}
[[{"id":7,"quantity":2,"paid":false}]]
[{"id":7,"quantity":2,"paid":false},]
[{"id":7,"quantity":2,"paid":false},{"id":8,"quantity":2}]
[{"id":7,"quantity":2,"paid":false}] 1"#;

#[test]
fn each_order_is_settled(rt: HostRuntime) -> std::result::Result<(), Wrong> {
    for line in BATCHES.lines() {
        expect(is_right(settled_all(rt.alloc(), text_of(line)), line), line)?;
    }
    Ok(())
}

#[test]
fn the_elements_of_a_list_are_counted(rt: HostRuntime) -> std::result::Result<(), Wrong> {
    let alloc = rt.alloc();
    expect(matches!(elements(alloc, " [ ] "), Ok(0)), "none")?;
    expect(matches!(elements(alloc, "[[]]"), Ok(1)), "one")?;
    let four = r#"[1, [2, 3, [4]], {"a": [5, 6]}, null]"#;
    expect(matches!(elements(alloc, four), Ok(4)), "four")?;
    for text in "\n7\n{\"a\": [1]}\n[1, 2\n[1,]\n[1] 2".lines() {
        expect(matches!(elements(alloc, text), Err(Error::Invalid)), text)?;
    }
    Ok(())
}

#[test]
fn a_type_is_read_by_its_place(rt: HostRuntime) -> std::result::Result<(), Wrong> {
    let alloc = rt.alloc();
    expect(
        matches!(read_by_events::<bool>(alloc, " true "), Ok(true)),
        "true",
    )?;
    for text in "\nnull\n[true]\ntrue 1".lines() {
        expect(
            matches!(read_by_events::<bool>(alloc, text), Err(Error::Invalid)),
            text,
        )?;
    }
    Ok(())
}

#[test]
fn quantities_are_summed(rt: HostRuntime) -> std::result::Result<(), Wrong> {
    let alloc = rt.alloc();
    expect(matches!(total(alloc, "[]"), Ok(Some(0))), "none")?;
    let three =
        r#"[{"id":1,"quantity":7,"paid":true},{"id":9,"quantity":0,"paid":true},{"paid":false,"quantity":5,"id":1}]"#;
    expect(matches!(total(alloc, three), Ok(Some(12))), "three")?;
    let large = r#"[{"id":1,"quantity":4294967295,"paid":true},{"id":2,"quantity":1,"paid":true}]"#;
    expect(matches!(total(alloc, large), Ok(None)), "out of range")?;
    for text in "{}\n[{\"id\":1}]\n[{\"id\":1,\"quantity\":-1,\"paid\":true}]".lines() {
        expect(matches!(total(alloc, text), Err(Error::Invalid)), text)?;
    }
    Ok(())
}

const RATIOS: &str = "1.50 => same
2 => same
\"1.50\"";

/// Returns whether the ratio of a text is kept as that fraction, or is a whole number where there is none.
fn has_fraction(alloc: Global, text: &str, expected: Option<&str>) -> Result<bool> {
    let ratio: Number = from_str(alloc, text)?;
    Ok(fraction(&ratio) == expected)
}

#[test]
fn a_fraction_keeps_its_text_and_a_limit_is_the_last(
    rt: HostRuntime,
) -> std::result::Result<(), Wrong> {
    let alloc = rt.alloc();
    expect_round_trip::<Number>(alloc, RATIOS)?;
    expect_ok(has_fraction(alloc, "1.50", Some("1.50")), "a fraction")?;
    expect_ok(has_fraction(alloc, "2", None), "a whole number")?;
    let limits = r#"{"a":1,"b":2,"\u0061":3}"#;
    expect(
        matches!(limit_of(alloc, limits, "a"), Ok(Some(3))),
        "the last",
    )?;
    expect(
        matches!(limit_of(alloc, limits, "b"), Ok(Some(2))),
        "the only",
    )?;
    expect(matches!(limit_of(alloc, limits, "c"), Ok(None)), "none")?;
    expect(
        matches!(limit_of(alloc, "{}", "a"), Ok(None)),
        "none at all",
    )?;
    expect(
        matches!(limit_of(alloc, r#"{"a":-1}"#, "b"), Err(Error::Invalid)),
        "no limit",
    )
}
