//! What is made of the events of a value.
ghost use Rattle.std.specs.Prelude.{◌≡◌, true, false, [], ◌∷◌, ◌++◌, Some, OnOk, option_map, string_bytes};
ghost use Rattle.bser_format.specs.Tree.{Tree, bytes, text};
ghost use Rattle.bser_events.specs.Told.{told};
ghost use Rattle.bser_events.specs.declared.builder.Stop.TheVariants.{Memory};
ghost use Rattle.bser_value.specs.Made.{unread, read_as, in_array, in_object, in_keys};
ghost use Rattle.bser_value.specs.Shows.{Shows, Takes, Gives, Names, Opens, Closes};
ghost use Rattle.bser_value.specs.ValueView.{tree_of};

use crate::building::Building;
use crate::value::Value;
use bser_events::builder::{Builder, Stop};
use bser_events::event::{Event, Place};
use bser_format::bytestring::ByteString;
use std::alloc::{AllocError, Global};
use std::mem;

/// Makes a value of its events.
#[derive(Drop)]
pub struct ValueBuilder {
    alloc: Global,
    /// What is being read.
    inner: Building,
    /// The containers around it, the outermost first.
    around: Vec<Building>,
}

impl ValueBuilder {
    /// Begins with nothing read.
    pub fn new(alloc: Global) -> Self
        ensures { Shows result unread }
    {
        ValueBuilder {
            alloc,
            inner: Building::Whole { value: None },
            around: Vec::new(alloc),
        }
    }

    /// Returns the value, once all of it was reported.
    pub fn into_value(self) -> Option<Value>
        ensures { (t : Tree) → Shows self (read_as t) → option_map tree_of result ≡ Some t }
    {
        let ValueBuilder {
            alloc: _,
            inner,
            around: _,
        } = self;
        match inner {
            Building::Whole { value } => value,
            _ => None,
        }
    }

    /// Opens a container inside the innermost.
    fn begin(&mut self, container: Building) -> Result<(), AllocError>
        ensures inner { OnOk result (self.new.inner ≡ container) }
        ensures around { OnOk result
            (self.new.around.items ≡ self.old.around.items ++ self.old.inner ∷ []) }
    {
        self.around.push(mem::replace(&mut self.inner, container))?;
        Ok(())
    }

    /// Opens an array.
    #[inline(never)]
    fn open_array(&mut self) -> Result<(), AllocError>
        ensures { OnOk result (Opens (in_array []) self.old self.new) }
    {
        self.begin(Building::array(self.alloc))
    }

    /// Opens an object.
    #[inline(never)]
    fn open_object(&mut self) -> Result<(), AllocError>
        ensures { OnOk result (Opens (in_object [] None) self.old self.new) }
    {
        self.begin(Building::object(self.alloc))
    }

    /// Opens a template.
    #[inline(never)]
    fn open_template(&mut self) -> Result<(), AllocError>
        ensures { OnOk result (Opens (in_keys []) self.old self.new) }
    {
        self.begin(Building::template(self.alloc))
    }

    /// Closes the innermost container, and puts its value into the one around it.
    #[inline(never)]
    fn close(&mut self) -> Result<(), AllocError>
        ensures { OnOk result (Closes self.old self.new) }
    {
        let Some(outer) = self.around.pop() else {
            return Ok(());
        };
        match mem::replace(&mut self.inner, outer).into_value()? {
            Some(value) => self.inner.put(value),
            None => Ok(()),
        }
    }

    /// Puts in the value that comes next.
    #[inline(always)]
    fn put(&mut self, value: Value) -> Result<(), AllocError>
        ensures { OnOk result (Gives (tree_of value) self.old self.new) }
    {
        self.inner.put(value)
    }

    /// Takes a key.
    #[inline(always)]
    fn put_key(&mut self, key: &str) -> Result<(), AllocError>
        ensures { OnOk result (Names key.now self.old self.new) }
    {
        self.inner.put_key(self.alloc, key)
    }

    /// Puts in a copy of a byte string.
    #[inline(always)]
    fn put_bytes(&mut self, string: &[u8]) -> Result<(), AllocError>
        ensures { OnOk result (Gives (bytes string.now) self.old self.new) }
    {
        let copy = Vec::from_slice(self.alloc, string)?;
        self.put(Value::ByteString(ByteString::from_vec(copy)))
    }

    /// Puts in a copy of a text.
    #[inline(always)]
    fn put_text(&mut self, string: &str) -> Result<(), AllocError>
        ensures { OnOk result (Gives (text string.now) self.old self.new) }
    {
        let copy = String::from_str(self.alloc, string)?;
        self.put(Value::Utf8String(copy))
    }
}

impl ValueBuilder {
    /// Puts in a byte string, which is not copied.
    fn put_own_bytes(&mut self, string: Vec<u8>) -> Result<(), AllocError>
        ensures { OnOk result (Gives (bytes string.items) self.old self.new) }
    {
        let mut own = string;
        own.shrink_to_fit();
        self.put(Value::ByteString(ByteString::from_vec(own)))
    }

    /// Puts in a text, which is not copied.
    fn put_own_text(&mut self, string: String) -> Result<(), AllocError>
        ensures { OnOk result (Gives (text (string_bytes string)) self.old self.new) }
    {
        let mut own = string;
        own.shrink_to_fit();
        self.put(Value::Utf8String(own))
    }
}

impl ValueBuilder {
    /// Takes an event.
    #[inline(always)]
    fn put_event(&mut self, event: Event<'_>) -> Result<(), AllocError>
        ensures { OnOk result (Takes self.old (told event.entry) self.new) }
    {
        match event {
            Event::Null | Event::Skip => self.put(Value::Null),
            Event::Bool(truth) => self.put(Value::Bool(truth)),
            Event::Int(number) => self.put(Value::Integer(number)),
            Event::Real(bits) => self.put(Value::Real(bits)),
            Event::Bytes(string) => self.put_bytes(string),
            Event::Text(string) => self.put_text(string),
            Event::Array { len: _ } => self.open_array(),
            Event::Object { len: _ } => self.open_object(),
            Event::Key(key) => self.put_key(key),
            Event::Template { len: _ } => self.open_template(),
            Event::Rows { len: _ } => Ok(()),
            Event::Close => self.close(),
        }
    }
}

impl Builder for ValueBuilder {
    ghost takes = { λ a e _ b. Takes a e b };

    ghost stopped = { λ stop _ _ _ _. stop ≡ Memory };

    ghost stops = { true };

    ghost asks = { false };

    ghost bytes = { true };

    #[inline(always)]
    fn wants_bytes(&self) -> bool {
        true
    }

    #[inline(always)]
    fn take(&mut self, event: Event<'_>, _place: Place) -> Result<(), Stop> {
        match self.put_event(event) {
            Ok(()) => Ok(()),
            Err(_) => Err(Stop::Memory),
        }
    }

    fn take_text(&mut self, text: String, _place: Place) -> Result<(), Stop> {
        match self.put_own_text(text) {
            Ok(()) => Ok(()),
            Err(_) => Err(Stop::Memory),
        }
    }

    fn take_bytes(&mut self, string: Vec<u8>, _place: Place) -> Result<(), Stop> {
        match self.put_own_bytes(string) {
            Ok(()) => Ok(()),
            Err(_) => Err(Stop::Memory),
        }
    }

    fn bytes_passed(&mut self, _len: usize, _place: Place) -> Result<(), Stop> {
        Ok(())
    }
}
