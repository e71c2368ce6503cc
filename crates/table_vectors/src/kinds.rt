//! The types that messages are read as, by their names in the tables.
use crate::ways::{Compared, Mismatch, Sample};
use bser_format::bytestring::ByteString;
use bser_types::impls::Ignored;
use bser_value::value::Value;
use bser_vectors::enums::{EnumRow, TestEnum};
use bser_vectors::structs::{Files, TemplateRow};
use serde_bser::document::Document;
use std::alloc::Global;
use std::borrow::CowStr;
use std::collections::{BTreeMap, BTreeSet, HashMap, VecDeque};

/// Reads the message as the type of this name, and compares the answers.
pub fn compare(alloc: Global, kind: &str, sample: &Sample<'_>) -> Compared {
    match kind {
        "bool" => sample.owned::<bool>(alloc),
        "i8" => sample.owned::<i8>(alloc),
        "i64" => sample.owned::<i64>(alloc),
        "isize" => sample.owned::<isize>(alloc),
        "u8" => sample.owned::<u8>(alloc),
        "u64" => sample.owned::<u64>(alloc),
        "unit" => sample.owned::<()>(alloc),
        "Ignored" => sample.owned::<Ignored>(alloc),
        "Value" => sample
            .owned::<Value>(alloc)
            .and_then(|()| sample.owned::<Document>(alloc)),
        "char" => sample.owned::<char>(alloc),
        "String" => sample.owned::<String>(alloc),
        "ByteString" => sample.owned::<ByteString>(alloc),
        "cow" => sample.owned::<CowStr<'_>>(alloc),
        "str" => sample.lent::<&str>(alloc),
        "bytes" => sample.lent::<&[u8]>(alloc),
        "opt_i64" => sample.owned::<Option<i64>>(alloc),
        "box_i64" => sample.owned::<Box<i64>>(alloc),
        _ => lists(alloc, kind, sample),
    }
}

/// Lists, queues, sets, tuples and arrays.
fn lists(alloc: Global, kind: &str, sample: &Sample<'_>) -> Compared {
    match kind {
        "vec_i64" => sample.owned::<Vec<i64>>(alloc),
        "vec_char" => sample.owned::<Vec<char>>(alloc),
        "vec_String" => sample.owned::<Vec<String>>(alloc),
        "vec_ByteString" => sample.owned::<Vec<ByteString>>(alloc),
        "vec_tup2" => sample.owned::<Vec<(i64, i64)>>(alloc),
        "vec_str" => sample.lent::<Vec<&str>>(alloc),
        "vec_opt_i64" => sample.owned::<Vec<Option<i64>>>(alloc),
        "vec_opt_vec_i64" => sample.owned::<Vec<Option<Vec<i64>>>>(alloc),
        "deque_i64" => sample.owned::<VecDeque<i64>>(alloc),
        "set_String" => sample.owned::<BTreeSet<String>>(alloc),
        "tup2" => sample.owned::<(i64, i64)>(alloc),
        "tup3" => sample.owned::<(i64, i64, i64)>(alloc),
        "tup4" => sample.owned::<(i64, i64, i64, i64)>(alloc),
        "arr2_map_String_i64" => sample.owned::<[BTreeMap<String, i64>; 2]>(alloc),
        "tup_map_String_i64" => sample.owned::<(BTreeMap<String, i64>,)>(alloc),
        _ => maps(alloc, kind, sample),
    }
}

/// Maps and lists of them.
fn maps(alloc: Global, kind: &str, sample: &Sample<'_>) -> Compared {
    match kind {
        "map_String_i64" => sample.owned::<BTreeMap<String, i64>>(alloc),
        "map_String_unit" => sample.owned::<BTreeMap<String, ()>>(alloc),
        "map_String_vec_String" => sample.owned::<BTreeMap<String, Vec<String>>>(alloc),
        "map_String_Ignored" => sample.owned::<BTreeMap<String, Ignored>>(alloc),
        "map_bytes_unit" => sample.owned::<BTreeMap<ByteString, ()>>(alloc),
        "map_str_i64" => sample.lent::<BTreeMap<&str, i64>>(alloc),
        "map_raw_opt_i64" => sample.lent::<BTreeMap<&[u8], Option<i64>>>(alloc),
        "hash_String_i64" => sample.owned::<HashMap<String, i64>>(alloc),
        "vec_map_bytes_opt_i64" => sample.owned::<Vec<BTreeMap<ByteString, Option<i64>>>>(alloc),
        "vec_map_str_opt_i64" => sample.lent::<Vec<BTreeMap<&str, Option<i64>>>>(alloc),
        "vec_map_String_unit" => sample.owned::<Vec<BTreeMap<String, ()>>>(alloc),
        "vec_map_raw_unit" => sample.lent::<Vec<BTreeMap<&[u8], ()>>>(alloc),
        _ => structs(alloc, kind, sample),
    }
}

/// Structs and enums.
fn structs(alloc: Global, kind: &str, sample: &Sample<'_>) -> Compared {
    match kind {
        "TemplateRow" => sample.owned::<TemplateRow<String>>(alloc),
        "vec_TemplateRow" => sample.owned::<Vec<TemplateRow<String>>>(alloc),
        "vec_opt_TemplateRow" => sample.owned::<Vec<Option<TemplateRow<String>>>>(alloc),
        "Files" => sample.owned::<Files<String>>(alloc),
        "TestEnum" => sample.owned::<TestEnum<String>>(alloc),
        "opt_TestEnum" => sample.owned::<Option<TestEnum<String>>>(alloc),
        "vec_TestEnum" => sample.owned::<Vec<TestEnum<String>>>(alloc),
        "vec_EnumRow" => sample.owned::<Vec<EnumRow<String>>>(alloc),
        _ => Err(Mismatch::NoSuchType),
    }
}
