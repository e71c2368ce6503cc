//! Enums, as the name of a variant, and its payload after a colon.
use crate::enums::{EnumRow, TestEnum};
use crate::notation::writer::NotationWriter;
use crate::shown::Shown;

impl<S: Shown> Shown for TestEnum<S> {
    fn put(&self, text: &mut NotationWriter) {
        match self {
            TestEnum::TestUnit => text.put("TestUnit"),
            TestEnum::TestNewtype(value) => {
                text.put("TestNewtype:");
                value.put(text);
            }
            TestEnum::TestTuple(first, second) => {
                text.put("TestTuple:(");
                first.put(text);
                text.put(",");
                second.put(text);
                text.put(")");
            }
            TestEnum::TestStruct { abc, def } => {
                text.put("TestStruct:<abc=");
                abc.put(text);
                text.put(",def=");
                def.put(text);
                text.put(">");
            }
        }
    }
}

impl<S: Shown> Shown for EnumRow<S> {
    fn put(&self, text: &mut NotationWriter) {
        text.put("<abc=");
        self.abc.put(text);
        text.put(">");
    }
}
