//! What texts of an earlier version mean.

use examples::tasks::{OldTask, Task};
use examples::versions::load_order;
use miniserde::error::Result;
use miniserde::json::to_string;
use std::alloc::Global;
use test_tables::{Wrong, expect, expect_round_trip, is_right, text_of};

const TASKS: &str =
    r#"{"id":1,"title":"a","state":"done","colour":7} => {"id":1,"title":"a","state":"done","retries":3,"note":null}
{"state":"open","title":"","id":0} => {"id":0,"title":"","state":"open","retries":3,"note":null}
{"id":1,"title":"a","state":"failed","retries":0,"note":"n"} => same
{"id":1,"title":"a","state":"done","colour":7,"retries":"many"}
{"id":1,"title":"a","state":"done","retries":null}
{"id":1,"name":"a","state":"done"}
{"id":1,"title":"a","state":"lost"}"#;

const OLD_TASKS: &str = r#"{"id":1,"title":"a","state":"done","colour":7} => same
{"id":1,"title":"a","state":"done","colour":7,"retries":"many"} => {"id":1,"title":"a","state":"done","colour":7}
{"id":1,"title":"a","state":"done","retries":3,"note":null}
{"id":1,"title":"a","state":"failed","colour":7}"#;

const ORDERS: &str =
    r#"{"id":1,"quantity":2,"paid":true} => {"id":1,"quantity":2,"paid":true,"note":null}
{"id":1,"count":2,"paid":true} => {"id":1,"quantity":2,"paid":true,"note":null}
{"id":1,"count":2,"quantity":3,"paid":true} => {"id":1,"quantity":3,"paid":true,"note":null}
{"id":1,"count":2,"quantity":null,"paid":true,"note":"n"} => {"id":1,"quantity":2,"paid":true,"note":null}
{"id":1,"paid":true}
{"id":1,"count":null,"paid":true}"#;

/// Returns the text of the order that a text of either version means.
fn order_of(alloc: Global, text: &str) -> Result<String> {
    to_string(alloc, &load_order(alloc, text)?)
}

#[test]
fn a_task_or_an_order_of_version_1_is_read(rt: HostRuntime) -> std::result::Result<(), Wrong> {
    let alloc = rt.alloc();
    expect_round_trip::<Task>(alloc, TASKS)?;
    expect_round_trip::<OldTask>(alloc, OLD_TASKS)?;
    for line in ORDERS.lines() {
        expect(is_right(order_of(alloc, text_of(line)), line), line)?;
    }
    Ok(())
}
