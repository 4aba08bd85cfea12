//! The components of a file, found by their names.

ghost use Rattle.std.specs.Prelude.{◌≡◌, [], ◌∷◌, ◌++◌, ◌||◌, List, OnOk, IfOk, is_some};
ghost use Rattle.jsx_syntax.specs.Rules.{has_property, is_fallback_of, is_key, is_known_attribute, properties_of, suspense};
ghost use Rattle.jsx_syntax.specs.declared.file.Component.{Component};
ghost use Rattle.jsx_check.specs.SeenEvents.{owner_of};
ghost use Rattle.jsx_check.specs.SeenNames.{Knows, texts_onto};

use crate::event::Owner;
use crate::names::Names;
use fizz_text::{OutOfMemory, Text};
use html_names::attribute;
use jsx_syntax::{Component, Name};
use std::alloc::Global;
use std::collections::BTreeMap;
use std::marker::Model;

/// The components of a file. Contracts see them as a list. One is found by its name in logarithmic time, a property of
/// it too.
#[derive(Drop)]
pub struct Components<'a> {
    list: &'a [Component],
    properties: BTreeMap<&'a str, Names<'a>>,
}

impl<'a> Model for Components<'a> {
    ghost use Rattle.std.specs.Prelude.{List};
    ghost use Rattle.std.specs.Coded.{codes};
    ghost use Rattle.jsx_syntax.specs.declared.file.Component.{Component};
    ghost use Rattle.jsx_syntax.specs.contracts.file.Component as component;
    ghost use Rattle.jsx_check.specs.SeenNames.{Knows};

    ghost Value = { List Component };

    ghost coded = { Prim.hlevel (codes, component.the_row.coded) };

    ghost view = { λ c. c.list.now };

    ghost invariant = { λ c. Knows c.properties c.list.now };
}

impl<'a> Components<'a> {
    /// The components, indexed.
    pub fn of(alloc: Global, list: &'a [Component]) -> Result<Components<'a>, OutOfMemory>
        ensures { IfOk result (λ c. c ≡ list.now) }
    {
        let properties = properties_of_all(alloc, list)?;
        Ok(Components { list, properties })
    }

    /// Whether there is a component of this name.
    pub fn has(&self, name: &Text) -> bool
        ensures { result ≡ is_some (properties_of name.now self.now) }
    {
        self.properties.contains_key(name.as_str())
    }

    /// Whether there is one of this name that has the property.
    fn has_property(&self, name: &Text, property: &Text) -> bool
        ensures { result ≡ has_property property.now (properties_of name.now self.now) }
    {
        match self.properties.get(name.as_str()) {
            Some(names) => names.has(property),
            None => false,
        }
    }

    /// Whether the attribute is known.
    pub fn knows(&self, owner: Owner, name: &Text) -> bool
        ensures { result ≡ is_known_attribute self.now (owner_of owner.entry) name.now }
    {
        match owner {
            Owner::Html => attribute(name.as_bytes()).is_some(),
            Owner::Suspense => is_fallback(name) || is_key(name),
            Owner::Component(of) => self.has_property(&of.text, name) || is_key(name),
        }
    }
}

/// Whether it is the attribute of `Suspense` whose value is the fallback.
pub fn is_fallback(name: &Text) -> bool
    ensures { result ≡ is_fallback_of suspense name.now }
{
    name.as_bytes() == b"fallback".as_slice()
}

fn is_key(name: &Text) -> bool
    ensures { result ≡ is_key name.now }
{
    name.as_bytes() == b"key".as_slice()
}

/// The properties of each component by its name, of the first where several have one name.
fn properties_of_all<'a>(
    alloc: Global,
    list: &'a [Component],
) -> Result<BTreeMap<&'a str, Names<'a>>, OutOfMemory>
    ensures { IfOk result (λ m. Knows m list.now) }
{
    let mut properties = BTreeMap::new(alloc);
    for component in list {
        add(alloc, &mut properties, component)?;
    }
    Ok(properties)
}

fn add<'a>(
    alloc: Global,
    properties: &mut BTreeMap<&'a str, Names<'a>>,
    component: &'a Component,
) -> Result<(), OutOfMemory>
    ensures { (earlier : List Component) → Knows properties.old earlier →
        OnOk result (Knows properties.new (earlier ++ component.now ∷ [])) }
{
    let name = component.name.text.as_str();
    if !properties.contains_key(name) {
        let names = names_of(alloc, component.properties.as_slice())?;
        properties.insert(name, names)?;
    }
    Ok(())
}

fn names_of<'a>(alloc: Global, list: &'a [Name]) -> Result<Names<'a>, OutOfMemory>
    ensures { IfOk result (λ names. names ≡ texts_onto [] list.now) }
{
    let mut names = Names::new(alloc);
    for name in list {
        names.push(&name.text)?;
    }
    Ok(names)
}
