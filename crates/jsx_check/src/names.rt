//! Names in scope.

ghost use Rattle.std.specs.Prelude.{◌≡◌, [], ◌∷◌, drop, OnOk};
ghost use Rattle.jsx_syntax.specs.Rules.{has_name};
ghost use Rattle.jsx_check.specs.SeenNames.{name_count};

use fizz_text::{OutOfMemory, Text};
use std::alloc::Global;
use std::collections::BTreeMap;
use std::marker::Model;

/// Names, some of them more than once. Contracts see them as a list, the last that came at its head. One is found in
/// logarithmic time.
#[derive(Drop)]
pub struct Names<'a> {
    stack: Vec<&'a str>,
    counts: BTreeMap<&'a str, usize>,
}

impl<'a> Model for Names<'a> {
    ghost use Rattle.std.specs.Prelude.{List, ℕ};
    ghost use Rattle.jsx_check.specs.SeenNames.{last_first, Counts};

    ghost Value = { List (List ℕ) };

    ghost view = { λ n. last_first n.stack.items };

    ghost invariant = { λ n. Counts n.counts (last_first n.stack.items) };
}

impl<'a> Names<'a> {
    /// No name.
    pub fn new(alloc: Global) -> Names<'a>
        ensures { result ≡ [] }
    {
        Names {
            stack: Vec::new(alloc),
            counts: BTreeMap::new(alloc),
        }
    }

    /// Whether the name is among them.
    pub fn has(&self, name: &Text) -> bool
        ensures { result ≡ has_name name.now self.now }
    {
        self.count(name.as_str()) > 0
    }

    /// How often the name is among them.
    fn count(&self, name: &str) -> usize
        ensures { result ≡ name_count name.now self.now }
    {
        self.counts.get(name).copied().unwrap_or(0)
    }

    /// Adds a name.
    pub fn push(&mut self, name: &'a Text) -> Result<(), OutOfMemory>
        ensures { OnOk result (self.new ≡ name.now ∷ self.old) }
    {
        let name = name.as_str();
        let count = self.count(name);
        self.stack.reserve(1)?;
        let count = count + 1;
        self.counts.insert(name, count)?;
        self.stack.push(name).unwrap();
        Ok(())
    }

    /// Takes out all.
    pub fn clear(&mut self)
        ensures { self.new ≡ [] }
    {
        self.stack.clear();
        self.counts.clear();
    }

    /// Takes out the last that came, if there is one.
    pub fn pop(&mut self) -> Result<(), OutOfMemory>
        ensures { OnOk result (self.new ≡ drop 1 self.old) }
    {
        let Some((name, earlier)) = self.stack.as_slice().split_last() else {
            return Ok(());
        };
        let name = *name;
        let earlier = earlier.len();
        let count = self.count(name) - 1;
        self.counts.insert(name, count)?;
        self.stack.truncate(earlier);
        Ok(())
    }
}
