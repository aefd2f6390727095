//! Structs and their canonical texts.

use demo::{Demo, Example, StrictDemo};
use test_tables::{Wrong, expect_canonical_of, expect_one_value, expect_refused};

const DEMOS: &str = r#"{"message":"a\/", "code":1, "code":2} => {"code":2,"message":"a/"}
{"z":[-0],"message":"","code":7} => {"code":7,"message":"","z":[0]} => {"code":7,"message":""}"#;

const STRICT: &str = r#"{"message":"","code":1} => {"code":1,"message":""}
{"z":1,"z":2,"message":"","code":1} => {"code":1,"message":"","z":2} => {"code":1,"message":""}"#;

const EXAMPLES: &str =
    r#"{"x":"X","t1":"\u0041","t2":"renamedB","t3":["enum"],"struct":{"z":null,"y":["Y"]}} => {"struct":{"y":["Y"],"z":null},"t1":"A","t2":"renamedB","t3":["enum"],"x":"X"} => {"x":"X","t1":"A","t2":"renamedB","t3":["enum"],"struct":{"y":["Y"],"z":null}}"#;

const CANONICAL: &str =
    r#"{"x":"X","t1":"A","t2":"A","t3":["A"],"struct":{"y":null}} => {"struct":{"y":null,"z":null},"t1":"A","t2":"A","t3":["A"],"x":"X"}"#;

#[test]
fn structs_are_stable_and_have_canonical_texts(rt: HostRuntime) -> Result<(), Wrong> {
    let alloc = rt.alloc();
    expect_one_value::<Demo>(alloc, DEMOS)?;
    expect_one_value::<Vec<Demo>>(
        alloc,
        r#"[{"message":"b","code":1,"message":"c"}] => [{"code":1,"message":"c"}]"#,
    )?;
    expect_one_value::<StrictDemo>(alloc, STRICT)?;
    expect_refused::<StrictDemo>(
        alloc,
        r#"{"code":1,"code":1,"message":""}
{"message":""}"#,
    )?;
    expect_one_value::<Example>(alloc, EXAMPLES)?;
    expect_canonical_of::<Example>(alloc, CANONICAL)
}
