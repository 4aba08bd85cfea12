//! The values that a script resolves resources with.

ghost use Rattle.std.specs.Prelude.{◌≡◌, ◌∷◌, [], ◌++◌, IfOk};

use fizz_text::{OutOfMemory, Text};
use sqlite_items::Items;
use std::alloc::Global;

/// What has a name: a member of a record, or a settlement.
#[derive(Debug, Drop)]
pub struct Entry<T> {
    pub name: Text,
    pub value: T,
}

/// A value. What a script holds nests at most 100 lists and records.
#[derive(Debug, Drop)]
pub enum Value {
    Null,
    Bool(bool),
    Int(i64),
    Text(Text),
    List(Items<Value>),
    /// The members in ascending order of their names, each name once.
    Record(Items<Entry<Value>>),
}

impl Value {
    /// An equal value.
    #[cycle(copy)]
    pub fn copy(&self, alloc: Global) -> Result<Value, OutOfMemory>
        ensures { IfOk result (λ value. value ≡ self.now) }
    {
        match self {
            Value::Null => Ok(Value::Null),
            Value::Bool(truth) => Ok(Value::Bool(*truth)),
            Value::Int(number) => Ok(Value::Int(*number)),
            Value::Text(text) => Ok(Value::Text(text.copy(alloc)?)),
            Value::List(items) => Ok(Value::List(copy_of_items(alloc, items.as_slice())?)),
            Value::Record(members) => Ok(Value::Record(copy_of_members(
                alloc,
                members.as_slice(),
            )?)),
        }
    }
}

#[cycle(copy)]
fn copy_of_items(alloc: Global, items: &[Value]) -> Result<Items<Value>, OutOfMemory>
    ensures { IfOk result (λ copies. copies ≡ items.now) }
{
    let mut copies = Items::new(alloc);
    for item in items {
        copies.push(item.copy(alloc)?)?;
    }
    Ok(copies)
}

#[cycle(copy)]
fn copy_of_members(
    alloc: Global,
    members: &[Entry<Value>],
) -> Result<Items<Entry<Value>>, OutOfMemory>
    ensures { IfOk result (λ copies. copies ≡ members.now) }
{
    let mut copies = Items::new(alloc);
    for member in members {
        copies.push(Entry {
            name: member.name.copy(alloc)?,
            value: member.value.copy(alloc)?,
        })?;
    }
    Ok(copies)
}
