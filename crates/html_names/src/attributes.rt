//! The attributes that an element may have.

/// How the value of an attribute is printed.
#[derive(Clone, Copy, Debug, PartialEq, Eq, Drop)]
pub enum AttrKind {
    /// A number and a text are printed, and nothing else is.
    Plain,
    /// Printed with an empty value where the value is true.
    Boolean,
    /// A number, a text and a truth value are printed.
    Booleanish,
    /// As `Plain`, save that an id of the renderer's own is left out (`is_reserved_id`).
    Id,
    /// Not printed.
    Key,
}

/// The name that is printed.
#[derive(Clone, Copy, Debug, PartialEq, Eq, Drop)]
pub enum AttrName {
    /// This name, in place of the one that is written.
    Fixed(&'static str),
    /// The name as it is written.
    Own,
}

/// An attribute, by the name that is written in the source.
#[derive(Clone, Copy, Debug, PartialEq, Eq, Drop)]
pub struct Attribute {
    pub printed: AttrName,
    pub kind: AttrKind,
}

/// A name, the name that is printed, and the kind.
pub(crate) type AttributeRow = (&'static str, (AttrName, AttrKind));

/// The attributes that go by one name, by their first bytes.
pub(crate) static ATTRIBUTES: [AttributeRow; 15] = [
    ("className", (AttrName::Fixed("class"), AttrKind::Plain)),
    ("cite", (AttrName::Own, AttrKind::Plain)),
    ("dir", (AttrName::Own, AttrKind::Plain)),
    ("disabled", (AttrName::Own, AttrKind::Boolean)),
    ("hidden", (AttrName::Own, AttrKind::Boolean)),
    ("href", (AttrName::Own, AttrKind::Plain)),
    ("htmlFor", (AttrName::Fixed("for"), AttrKind::Plain)),
    ("id", (AttrName::Own, AttrKind::Id)),
    ("key", (AttrName::Own, AttrKind::Key)),
    ("lang", (AttrName::Own, AttrKind::Plain)),
    ("open", (AttrName::Own, AttrKind::Boolean)),
    ("rel", (AttrName::Own, AttrKind::Plain)),
    ("role", (AttrName::Own, AttrKind::Plain)),
    ("target", (AttrName::Own, AttrKind::Plain)),
    ("title", (AttrName::Own, AttrKind::Plain)),
];
