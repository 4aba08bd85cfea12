ghost use Rattle.std.specs.Prelude.{◌≡◌, [], ◌∷◌, ◌++◌, IfOk, OnOk, OnErr};

use crate::memory::OutOfMemory;
use crate::text::Text;
use std::alloc::Global;
use std::marker::Model;

/// A printed attribute: its name as it is printed, and its value before escaping. There is no value
/// exactly where the name stands alone, as in ` hidden`.
#[derive(Debug, Drop)]
pub struct Attr {
    pub name: Text,
    pub value: Option<Text>,
}

impl Attr {
    /// An equal attribute.
    pub fn copy(&self, alloc: Global) -> Result<Attr, OutOfMemory>
        ensures { IfOk result (λ a. a ≡ self.now) }
    {
        let name = self.name.copy(alloc)?;
        match &self.value {
            Some(value) => Ok(Attr {
                name,
                value: Some(value.copy(alloc)?),
            }),
            None => Ok(Attr { name, value: None }),
        }
    }
}

/// The attributes of a tag in their order. Contracts see them as a list.
#[derive(Debug, Drop)]
pub struct Attributes {
    items: Vec<Attr>,
}

impl Model for Attributes {
    ghost use Rattle.std.specs.Prelude.{List};
    ghost use Rattle.fizz_text.specs.declared.attribute.Attr.{Attr};

    ghost Value = { List Attr };

    ghost view = { λ a. a.items.items };
}

impl Attributes {
    /// No attribute.
    pub fn new(alloc: Global) -> Attributes
        ensures { result ≡ [] }
    {
        Attributes {
            items: Vec::new(alloc),
        }
    }

    pub fn as_slice(&self) -> &[Attr]
        ensures { result.now ≡ self.now }
    {
        self.items.as_slice()
    }

    /// Adds an attribute at the end. A refusal leaves the list as it was.
    pub fn push(&mut self, attribute: Attr) -> Result<(), OutOfMemory>
        ensures ok { OnOk result (self.new ≡ self.old ++ attribute ∷ []) }
        ensures err { OnErr result (self.new ≡ self.old) }
    {
        self.items.push(attribute)?;
        Ok(())
    }

    /// An equal list.
    pub fn copy(&self, alloc: Global) -> Result<Attributes, OutOfMemory>
        ensures { IfOk result (λ a. a ≡ self.now) }
    {
        let mut items = Vec::with_capacity(alloc, self.items.len())?;
        for attribute in &self.items {
            items.push(attribute.copy(alloc)?)?;
        }
        Ok(Attributes { items })
    }
}
