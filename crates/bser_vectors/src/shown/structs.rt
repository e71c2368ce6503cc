//! Structs, as `<field=value>`.
use crate::notation::writer::NotationWriter;
use crate::shown::Shown;
use crate::shown::scalars::put_integer;
use crate::structs::{FileInfo, Files, TemplateRow};

impl<S: Shown> Shown for FileInfo<S> {
    fn put(&self, text: &mut NotationWriter) {
        text.put("<name=");
        self.name.put(text);
        text.put(",size=");
        put_integer(text, i128::from(self.size));
        text.put(">");
    }
}

impl<S: Shown> Shown for Files<S> {
    fn put(&self, text: &mut NotationWriter) {
        text.put("<files=");
        self.files.put(text);
        text.put(">");
    }
}

impl<S: Shown> Shown for TemplateRow<S> {
    fn put(&self, text: &mut NotationWriter) {
        text.put("<abc=");
        put_integer(text, i128::from(self.abc));
        text.put(",def=");
        self.def.put(text);
        text.put(",ghi=");
        self.ghi.put(text);
        text.put(">");
    }
}
