//! The names that are bound at a place of the source.

ghost use Rattle.std.specs.Prelude.{◌≡◌, [], ◌∷◌, ◌++◌, IfOk, OnOk};
ghost use Rattle.std.specs.Option.{option_copied};
ghost use Rattle.settle_script.specs.Settlements.{entry_named};
ghost use Rattle.jsx_value.specs.SeenScope.{entries_of, entry, frame_entries};

use crate::val::Val;
use fizz_text::{OutOfMemory, Text};
use std::alloc::Global;
use std::marker::Model;
use std::sync::Arc;

/// A name with its value.
#[derive(Drop)]
pub(crate) struct Binding<'a> {
    name: &'a Text,
    value: Val<'a>,
}

/// Names with their values, in the order in which they were bound. The names of a component are shared by the scopes of
/// all positions in it, so that a copy copies the variables of maps alone, and no text.
#[derive(Drop)]
pub struct Scope<'a> {
    frame: Option<Arc<Vec<Binding<'a>>>>,
    own: Vec<Binding<'a>>,
}

impl<'a> Model for Scope<'a> {
    ghost use Rattle.std.specs.Prelude.{List, ◌++◌};
    ghost use Rattle.std.specs.Coded.{codes};
    ghost use Rattle.settle_script.specs.declared.value.Entry.{Entry};
    ghost use Rattle.settle_script.specs.declared.value.Value.{Value as Whole};
    ghost use Rattle.settle_script.specs.contracts.value.Value as whole;

    ghost Value = { List (Entry Whole) };

    ghost coded = { Prim.hlevel (codes, whole.the_row.coded) };

    ghost use Rattle.jsx_value.specs.SeenScope.{frame_entries, entries_of};

    ghost view = { λ s. frame_entries s.frame ++ entries_of s.own.items };
}

impl<'a> Scope<'a> {
    /// No name.
    pub fn empty(alloc: Global) -> Scope<'a>
        ensures { result ≡ [] }
    {
        Scope {
            frame: None,
            own: Vec::new(alloc),
        }
    }

    /// An equal scope.
    pub fn copy(&self, alloc: Global) -> Result<Scope<'a>, OutOfMemory>
        ensures { IfOk result (λ copy. copy ≡ self.now) }
    {
        let own = copy_of(alloc, self.own.as_slice())?;
        match &self.frame {
            Some(frame) => Ok(Scope {
                frame: Some(Arc::try_clone(frame)?),
                own,
            }),
            None => Ok(Scope { frame: None, own }),
        }
    }

    /// Binds a name. A refusal leaves the scope as it was.
    pub(crate) fn bind(&mut self, name: &'a Text, value: Val<'a>) -> Result<(), OutOfMemory>
        ensures { OnOk result (self.new ≡ self.old ++ entry name.now value.entry ∷ []) }
    {
        self.own.push(Binding { name, value })?;
        Ok(())
    }

    /// The value of a name.
    pub(crate) fn get(&self, name: &Text) -> Option<&Val<'a>>
        ensures { option_copied result ≡ entry_named name.now self.now }
    {
        match frame_value(&self.frame, name) {
            Some(value) => Some(value),
            None => value_named(self.own.as_slice(), name),
        }
    }

    /// The same scope, whose names are shared by its copies from now on.
    pub(crate) fn framed(self, alloc: Global) -> Result<Scope<'a>, OutOfMemory>
        ensures { IfOk result (λ framed. framed ≡ self.entry) }
    {
        let Scope { frame, own } = self;
        match frame {
            None => Ok(Scope {
                frame: Some(Arc::new(alloc, own)?),
                own: Vec::new(alloc),
            }),
            Some(frame) => Ok(Scope {
                frame: Some(frame),
                own,
            }),
        }
    }
}

fn copy_of<'a>(alloc: Global, bindings: &[Binding<'a>]) -> Result<Vec<Binding<'a>>, OutOfMemory>
    ensures { IfOk result (λ copies. entries_of copies.items ≡ entries_of bindings.now) }
{
    let mut copies = Vec::with_capacity(alloc, bindings.len())?;
    for binding in bindings {
        copies.push(Binding {
            name: binding.name,
            value: binding.value.share()?,
        })?;
    }
    Ok(copies)
}

fn value_named<'s, 'a>(bindings: &'s [Binding<'a>], name: &Text) -> Option<&'s Val<'a>>
    ensures { option_copied result ≡ entry_named name.now (entries_of bindings.now) }
{
    for binding in bindings {
        if name.as_bytes() == binding.name.as_bytes() {
            return Some(&binding.value);
        }
    }
    None
}

fn frame_value<'s, 'a>(frame: &'s Option<Arc<Vec<Binding<'a>>>>, name: &Text) -> Option<&'s Val<'a>>
    ensures { option_copied result ≡ entry_named name.now (frame_entries frame.now) }
{
    match frame {
        Some(frame) => value_named(frame.as_slice(), name),
        None => None,
    }
}
