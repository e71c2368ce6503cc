//! Tuples of one, arrays of a fixed length, queues, sets, and texts that may be lent.
use crate::tests::checks::check_written;
use std::alloc::{AllocError, Global};
use std::borrow::CowStr;
use std::collections::{BTreeSet, VecDeque};

fn queue(alloc: Global) -> Result<VecDeque<i64>, AllocError> {
    let mut queue = VecDeque::new(alloc);
    queue.push_back(2)?;
    queue.push_front(1)?;
    Ok(queue)
}

fn names(alloc: Global) -> Result<BTreeSet<&'static str>, AllocError> {
    let mut names = BTreeSet::new(alloc);
    for name in ["b", "a", "b"] {
        names.insert(name)?;
    }
    Ok(names)
}

#[test]
fn writes_lists_of_each_kind(rt: HostRuntime) {
    let alloc = rt.alloc();
    let one = b"\x00\x02\x00\x00\x00\x00\x03\x05\x00\x03\x01\x03\x07";
    check_written(&rt, alloc, (7i8,), one);
    let three = b"\x00\x02\x00\x00\x00\x00\x03\x09\x00\x03\x03\x03\x01\x03\x02\x03\x2c";
    check_written(&rt, alloc, [1u8, 2, 44], three);
    let front_first = b"\x00\x02\x00\x00\x00\x00\x03\x07\x00\x03\x02\x03\x01\x03\x02";
    let queue = queue(alloc).expect(&rt, "memory is left");
    check_written(&rt, alloc, queue, front_first);
    let rising = b"\x00\x02\x00\x00\x00\x00\x03\x0b\x00\x03\x02\x0d\x03\x01a\x0d\x03\x01b";
    let names = names(alloc).expect(&rt, "memory is left");
    check_written(&rt, alloc, names, rising);
}

#[test]
fn writes_a_text_that_is_lent_or_owned(rt: HostRuntime) {
    let owned = String::from_str(rt.alloc(), "hello").expect(&rt, "memory is left");
    for text in [CowStr::Borrowed("hello"), CowStr::Owned(owned)] {
        let expected = b"\x00\x02\x00\x00\x00\x00\x03\x08\x0d\x03\x05hello";
        check_written(&rt, rt.alloc(), text, expected);
    }
}
