//! Reading where an allocation fails.
use crate::tests::PEOPLE;
use crate::types::ByteFile;
use bser_serde::{ByteBuf, Misfit, ReadError, Reason, from_reader, from_slice};
use serde::Deserialize;
use serde_bser::device::Watched;
use std::collections::BTreeMap;
use std::process::Abort;

/// A row whose text is owned.
#[derive(Drop, Deserialize)]
struct Owner {
    name: Option<String>,
    age: u8,
}

/// Checks that the rows were read.
fn check_people(rt: &impl Abort, people: &[Owner]) {
    assert!(rt; people.len() == 3);
    assert!(rt; people[0].age == 20 && people[1].age == 30 && people[2].age == 25);
    assert!(rt;
        people[1]
            .name
            .as_ref()
            .is_some_and(|name| name.as_str() == "pete")
    );
    assert!(rt; people[2].name.is_none());
}

/// Checks that the error is that an allocation failed, which is so only where one is made to.
fn check_memory(rt: &impl Abort, refusal: &ReadError) {
    assert!(rt; matches!(refusal, ReadError::OutOfMemory));
}

/// Checks where the misfit is: behind so many bytes, and in a field of the first row.
fn check_place(rt: &impl Abort, misfit: &Misfit, place: usize) {
    assert!(rt; misfit.place == place);
    assert!(rt; misfit.path.steps.len() == 2);
}

#[test]
fn rows_or_out_of_memory(rt: HostRuntime) {
    let mut reader = Watched::new(PEOPLE);
    for read in [
        from_slice::<Vec<Owner>>(rt.alloc(), PEOPLE),
        from_reader(rt.alloc(), &mut reader),
    ] {
        match read {
            Ok(people) => check_people(&rt, &people),
            Err(refusal) => check_memory(&rt, &refusal),
        }
    }
}

#[test]
fn misfit_or_out_of_memory(rt: HostRuntime) {
    match from_slice::<Vec<BTreeMap<String, ByteBuf>>>(rt.alloc(), PEOPLE) {
        Ok(_people) => assert!(rt; false),
        Err(ReadError::Misfit(misfit)) => check_place(&rt, &misfit, 34),
        Err(refusal) => check_memory(&rt, &refusal),
    }
}

#[test]
fn missing_or_out_of_memory(rt: HostRuntime) {
    match from_slice::<Vec<ByteFile>>(rt.alloc(), PEOPLE) {
        Ok(_files) => assert!(rt; false),
        Err(ReadError::Misfit(misfit)) => {
            assert!(rt; matches!(misfit.reason, Reason::Missing(_)));
            check_place(&rt, &misfit, 36);
        }
        Err(refusal) => check_memory(&rt, &refusal),
    }
}
