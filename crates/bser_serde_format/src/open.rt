//! Containers that are open.
ghost use Rattle.std.specs.Prelude.{◌≡◌, true};
ghost use Rattle.bser_serde_format.specs.Left.{IsSpent};

/// What a container is.
#[derive(Clone, Copy, PartialEq, Eq, Drop)]
pub(crate) enum Form {
    /// An array. The value itself is read as the one item of one.
    Array,
    /// An object.
    Object,
    /// A template, between two rows.
    Rows,
    /// A template, in one of its rows.
    Row,
}

/// A container that is open, and what is left of it.
#[derive(Clone, Copy, Drop)]
pub(crate) struct Open {
    pub(crate) form: Form,
    /// How many values may be read: the items of an array, the value of an object's last key, or
    /// the fields of a row. None may while a key is to be read as a value.
    pub(crate) left: usize,
    /// How many may be read behind that key.
    pub(crate) held: usize,
    /// How many entries or rows follow.
    pub(crate) more: usize,
    /// How many levels the values inside may have.
    pub(crate) levels: usize,
    /// How many fields a row of the template has. 0 of another container.
    pub(crate) width: usize,
    /// Where its keys end among those that are kept. No key is there of another container.
    pub(crate) end: usize,
}

impl Open {
    /// Whether nothing of it is left.
    #[inline(always)]
    pub(crate) fn is_spent(&self) -> bool
        ensures { result ≡ true → IsSpent self.now }
    {
        self.left == 0 && self.held == 0 && self.more == 0
    }

    /// How many levels it has.
    pub(crate) fn depth(&self) -> usize {
        match self.form {
            Form::Array | Form::Object => 1,
            Form::Rows | Form::Row => 2,
        }
    }
}
