//! Printing.
use crate::tests::checks::{check_debug, check_text, spelled};
use serde_bser::value::Value;

/// Values in the notation, and how they are printed.
static PRINTED: [(&str, &str); 26] = [
    // a value of each kind
    (
        "{61:[],62:b2fff27,66:f,69:i300,6e:r7ff8000000000001,72:rbff8000000000000,74:s61220a,79:t,7a:n}",
        "{\"a\": [], \"b\": {\"$bytes\": \"2fff27\"}, \"f\": false, \"i\": 300, \"n\": {\"$real\": \"7ff8000000000001\"}, \"r\": -1.5, \"t\": \"a\\\"\\n\", \"y\": true, \"z\": null}",
    ),
    // commas are between parts
    (
        "[i-9223372036854775808,[n],s]",
        "[-9223372036854775808, [null], \"\"]",
    ),
    // a text is escaped as in JSON
    ("s706c61696e", "\"plain\""),
    ("s225c2f", "\"\\\"\\\\/\""),
    ("s08090a0c0d", "\"\\b\\t\\n\\f\\r\""),
    ("s001f7f", "\"\\u0000\\u001f\u{7f}\""),
    ("s636166c3a920f09f92a9", "\"caf\u{e9} \u{1f4a9}\""),
    // a real has a point or an exponent, as `{:?}` of an `f64`, and what is no number is its bits
    ("r3ff0000000000000", "1.0"),
    ("r8000000000000000", "-0.0"),
    ("r3fb999999999999a", "0.1"),
    ("r4415af1d78b58c40", "1e20"),
    ("r3ee4f8b588e368f1", "1e-5"),
    ("r3e7ad7f29abcaf48", "1e-7"),
    ("r7ff0000000000000", "{\"$real\": \"7ff0000000000000\"}"),
    ("rfff0000000000000", "{\"$real\": \"fff0000000000000\"}"),
    ("r7ff0000000000001", "{\"$real\": \"7ff0000000000001\"}"),
    ("rffffffffffffffff", "{\"$real\": \"ffffffffffffffff\"}"),
    // a byte string is a text where it is one
    ("b706c61696e", "\"plain\""),
    ("b636166c3a90a", "\"caf\u{e9}\\n\""),
    ("b", "\"\""),
    ("b61ff", "{\"$bytes\": \"61ff\"}"),
    ("b6375742dc3", "{\"$bytes\": \"6375742dc3\"}"),
    // a key that begins with a dollar sign gets one more
    ("{246279746573:n}", "{\"$$bytes\": null}"),
    ("{2424:n}", "{\"$$$\": null}"),
    ("{6124:n}", "{\"a$\": null}"),
    ("{:n}", "{\"\": null}"),
];

#[test]
fn a_value_is_one_line_of_json(rt: HostRuntime) {
    for (text, printed) in &PRINTED {
        let value = spelled(&rt, rt.alloc(), text);
        check_text(&rt, rt.alloc(), value, printed);
    }
}

/// Numbers, and what `Debug` prints of the integers that they are as a value.
static NUMBERS: [(usize, &str); 2] = [
    (
        9223372036854775808,
        "Err(\"value is too large to represent as i64\")",
    ),
    (9223372036854775807, "Ok(Integer(9223372036854775807))"),
];

#[test]
fn debug_prints_a_value(rt: HostRuntime) {
    let value = spelled(
        &rt,
        rt.alloc(),
        "{6974656d73:[bff,i-5,r0000000000000001,t,n,s546f6d]}",
    );
    let printed =
        "Object({\"items\": Array([ByteString(\"\\\\xff\"), Integer(-5), Real(1), Bool(true), Null, Utf8String(\"Tom\")])})";
    check_debug(&rt, rt.alloc(), value, printed);
    for (number, value) in &NUMBERS {
        check_debug(&rt, rt.alloc(), Value::from_usize(*number), value);
    }
}
