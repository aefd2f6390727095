//! Pages of orders, and of other things.

use examples::order::Order;
use examples::page::Page;
use examples::pages::{count_of, next_of, pay_small};
use examples::service::Service;
use miniserde::FromJson;
use miniserde::error::{Error, Result};
use std::alloc::Global;
use test_tables::{Wrong, expect, expect_ok, expect_one_value, expect_read_itself};

const ORDERS: &str = r#"{"items":[],"next":null} => same
{"items":[{"id":7,"quantity":2,"paid":false,"note":"by noon"}],"next":"b"} => same
 {"next" : "b", "total" : 3, "items" : [ {"paid": true, "quantity": 0, "id": 1, "of": [1]} ] }  => {"items":[{"id":1,"quantity":0,"paid":true,"note":null}],"next":"b"}
{"items":[{"id":1,"quantity":0,"paid":true}],"items":[]} => {"items":[],"next":null}

{}
[]
{"next":"b"}
{"items":null}
{"items":{}}
{"items":[null]}
{"items":[],"next":1}
{"items":[1],"items":[]}
{"items":[{"id":7,"quantity":2,"note":null}]}
{"items":[{"id":7,"quantity":2,"paid":false},{"id":-1,"quantity":2,"paid":false}]}
{"items":[{"id":7,"quantity":2,"paid":false}}
{"items":[]} 1"#;

const PAGES: &str =
    r#"{"items":[{"items":[1],"next":null},{"items":[],"next":"a"}],"next":"b"} => same
{"items":[{"items":[]}],"of":[[]]} => {"items":[{"items":[],"next":null}],"next":null}
{"items":[{"items":["1"]}]}
{"items":[{"next":"a"}]}
{"items":[[1]]}
{"items":[null]}"#;

const SERVICES: &str =
    r#"{"next":"b","items":[{"port":1,"id":2}]} => {"items":[{"id":2,"port":1}],"next":"b"} => {"items":[{"id":2,"host":"localhost","port":1,"secure":true,"tags":[],"note":null}],"next":"b"}
 {"items": [ ], "next": null, "items": [], "x": -0 }  => {"items":[],"next":null,"x":0} => {"items":[],"next":null}"#;

#[test]
fn a_page_is_read_as_itself(rt: HostRuntime) -> std::result::Result<(), Wrong> {
    let alloc = rt.alloc();
    expect_read_itself::<Page<Order>>(alloc, ORDERS)?;
    expect_read_itself::<Page<Page<u64>>>(alloc, PAGES)?;
    expect_one_value::<Page<Service>>(alloc, SERVICES)
}

const NO_ORDERS: &str = r#"{"items":[]}"#;

const TWO_ORDERS: &str =
    r#"{"items":[{"id":1,"quantity":0,"paid":true},{"id":2,"quantity":0,"paid":true}],"next":"b"}"#;

/// Returns whether a page of a text has that next page.
fn has_next<T: FromJson>(alloc: Global, text: &str, expected: Option<&str>) -> Result<bool> {
    let next = next_of::<T>(alloc, text)?;
    Ok(next.as_deref() == expected)
}

#[test]
fn a_page_has_a_count_and_a_next_one(rt: HostRuntime) -> std::result::Result<(), Wrong> {
    let alloc = rt.alloc();
    expect(matches!(count_of(alloc, NO_ORDERS), Ok(0)), "no order")?;
    expect(matches!(count_of(alloc, TWO_ORDERS), Ok(2)), "two orders")?;
    expect(
        matches!(count_of(alloc, "{}"), Err(Error::Invalid)),
        "no items",
    )?;
    expect_ok(has_next::<Order>(alloc, NO_ORDERS, None), "the last page")?;
    expect_ok(has_next::<Order>(alloc, TWO_ORDERS, Some("b")), "a page")?;
    expect_ok(has_next::<u8>(alloc, NO_ORDERS, None), "of bytes")?;
    expect(
        matches!(
            has_next::<u8>(alloc, TWO_ORDERS, Some("b")),
            Err(Error::Invalid)
        ),
        "no bytes",
    )
}

const SMALL_AND_LARGE: &str =
    r#"{"items":[{"id":1,"quantity":9,"paid":false},{"id":2,"quantity":10,"paid":false},{"id":3,"quantity":20,"paid":true}],"next":"b"}"#;

const SMALL_PAID: &str =
    r#"{"items":[{"id":1,"quantity":9,"paid":true,"note":null},{"id":2,"quantity":10,"paid":false,"note":null},{"id":3,"quantity":20,"paid":true,"note":null}],"next":"b"}"#;

/// Returns whether the small orders of a text are paid as they should be.
fn are_paid(alloc: Global, text: &str, expected: &str) -> Result<bool> {
    Ok(pay_small(alloc, text)?.as_str() == expected)
}

#[test]
fn the_small_orders_of_a_page_are_paid(rt: HostRuntime) -> std::result::Result<(), Wrong> {
    let alloc = rt.alloc();
    expect_ok(
        are_paid(alloc, SMALL_AND_LARGE, SMALL_PAID),
        "small and large",
    )?;
    expect(
        matches!(pay_small(alloc, "[]"), Err(Error::Invalid)),
        "no page",
    )
}
