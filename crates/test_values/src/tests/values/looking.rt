//! What a value gives of what it holds.
use crate::tests::checks::{check_debug, spelled};
use serde_bser::de::RealBits;

/// An object of a value of some kinds, under a letter each.
const KINDS: &str = "{66:f,69:i300,6e:r7ff8000000000001,72:rbff8000000000000,73:s61,7a:n}";

/// The keys, and the truth value and the number that are given, and whether it is null: of a NaN no
/// number, of an integer a real.
static GIVEN: [(&str, &str); 6] = [
    ("f", "(Some(false), None, false)"),
    ("i", "(None, Some(300.0), false)"),
    ("n", "(None, None, false)"),
    ("r", "(None, Some(-1.5), false)"),
    ("s", "(None, None, false)"),
    ("z", "(None, None, true)"),
];

#[test]
fn a_value_gives_what_it_holds_and_nothing_of_another_kind(rt: HostRuntime) {
    let value = spelled(&rt, rt.alloc(), KINDS);
    let entries = value.as_object().expect(&rt, "it is an object");
    assert_eq!(rt; entries.len(), GIVEN.len());
    for (key, given) in &GIVEN {
        let member = entries.get(*key).expect(&rt, "the key is there");
        assert!(rt; member.as_object().is_none());
        let found = (member.as_bool(), member.as_f64(), member.is_null());
        check_debug(&rt, rt.alloc(), found, given);
    }
    let bits = RealBits(0xbff8000000000000);
    check_debug(&rt, rt.alloc(), bits.as_f64(), "Some(-1.5)");
}
