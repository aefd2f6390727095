//! What marks accept and refuse.

use examples::service::Service;
use test_tables::{Wrong, expect_read_itself};

const DEFAULTS: &str =
    r#"{"id":1} => {"id":1,"host":"localhost","port":8080,"secure":true,"tags":[],"note":null}
{"note":"n","tags":["a"],"secure":false,"port":1,"host":"","id":2} => {"id":2,"host":"","port":1,"secure":false,"tags":["a"],"note":"n"}
{"host":"a"}
{"id":1,"port":65536}
{"id":1,"secure":null}
{"id":1,"host":1,"host":"a"}
{"id":1,"tags":[1]}"#;

const NAMES: &str =
    r#"{"host":"a","id":3,"tags":[],"host":"b","note":"x","note":null,"tags":["c"]} => {"id":3,"host":"b","port":8080,"secure":true,"tags":["c"],"note":null}
{"id":1,"id":1}
{"id":1,"\u0069d":1}
{"id":1,"port":8080,"port":8080}
{"id":1,"ID":1}
{"id":1,"":null}"#;

#[test]
fn a_field_has_a_default_and_some_are_the_only_ones(rt: HostRuntime) -> Result<(), Wrong> {
    let alloc = rt.alloc();
    expect_read_itself::<Service>(alloc, DEFAULTS)?;
    expect_read_itself::<Service>(alloc, NAMES)
}
