//! Structs and enums of each form, written and read back.
use crate::tests::checks::{check_written, owned};
use crate::types::{BuildVersion, EntryKind, Figure, Flat, NameOrFile, Scores, Term};
use std::collections::BTreeMap;

#[test]
fn variants(rt: HostRuntime) {
    let alloc = rt.alloc();
    let folder = EntryKind::Folder {
        depth: 3,
        root: None,
    };
    let link = EntryKind::SymbolicLink(owned(&rt, alloc, "there"));
    for (kind, shown) in [
        (EntryKind::RegularFile, "\"regularFile\""),
        (link, "{\"symbolicLink\": \"there\"}"),
        (EntryKind::Pair(-5, true), "{\"pair\": [-5, true]}"),
        (folder, "{\"d\": {\"depth\": 3, \"root\": null}}"),
    ] {
        check_written(&rt, alloc, &kind, shown);
    }
}

#[test]
fn tags(rt: HostRuntime) {
    let alloc = rt.alloc();
    let terms = vec![in alloc; owned(&rt, alloc, "x")].expect(&rt, "memory");
    for (term, shown) in [
        (Term::Not, "{\"op\": \"Not\"}"),
        (Term::All { terms }, "{\"op\": \"All\", \"terms\": [\"x\"]}"),
    ] {
        check_written(&rt, alloc, &term, shown);
    }
    for (figure, shown) in [
        (Figure::Dot, "{\"kind\": \"Dot\"}"),
        (Figure::Line(-9), "{\"kind\": \"Line\", \"of\": -9}"),
        (
            Figure::Box { width: 70000 },
            "{\"kind\": \"Box\", \"of\": {\"width\": 70000}}",
        ),
    ] {
        check_written(&rt, alloc, &figure, shown);
    }
}

#[test]
fn untagged(rt: HostRuntime) {
    let alloc = rt.alloc();
    let file = NameOrFile::File {
        name: owned(&rt, alloc, "a.c"),
        size: 300,
    };
    let name = NameOrFile::Name(owned(&rt, alloc, "a.c"));
    for (value, shown) in [
        (name, "\"a.c\""),
        (file, "{\"name\": \"a.c\", \"size\": 300}"),
        (NameOrFile::Number(-1), "-1"),
    ] {
        check_written(&rt, alloc, &value, shown);
    }
}

#[test]
fn flattened(rt: HostRuntime) {
    let alloc = rt.alloc();
    let version = BuildVersion {
        version: owned(&rt, alloc, "4.9"),
        build: 7,
    };
    let flat = Flat {
        clock: owned(&rt, alloc, "c:1"),
        version,
        is_fresh_instance: true,
    };
    check_written(
        &rt,
        alloc,
        &flat,
        "{\"build\": 7, \"clock\": \"c:1\", \"is_fresh_instance\": true, \"version\": \"4.9\"}",
    );
}

#[test]
fn maps_and_tuples(rt: HostRuntime) {
    let alloc = rt.alloc();
    let mut by_name = BTreeMap::new(alloc);
    let name = owned(&rt, alloc, "x");
    let inserted: Result<_, _> = by_name.insert(name, 1.5);
    assert!(rt; inserted.is_ok());
    let scores = Scores {
        by_name,
        is_exact: Some(false),
        pair: (-3, 'é'),
        nothing: (),
    };
    check_written(
        &rt,
        alloc,
        &scores,
        "{\"by_name\": {\"x\": 1.5}, \"is_exact\": false, \"nothing\": null, \"pair\": [-3, \"é\"]}",
    );
}
