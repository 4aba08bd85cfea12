//! Values from JSON.

ghost use Rattle.std.specs.Prelude.{◌≡◌, ◌∷◌, None, Some, IfOk, IfErr};
ghost use Rattle.serde_json.specs.View.{view, items_view, members_view, number_view};
ghost use Rattle.settle_script.specs.JsonValues.{value_of, values_of, fields_of, whole_of, first_bad, first_bad_item, first_bad_member, bad_number, IsFaultOf, Reads, IsInside};

use crate::fault::ValueFault;
use crate::value::{Entry, Value};
use fizz_text::{OutOfMemory, Path, Text};
use serde_json::{Map, Number, Value as Json};
use sqlite_items::Items;
use std::alloc::Global;

/// The most lists and records around a value.
const DEEPEST: u32 = 100;

/// The value that JSON is, or the first place at which it is none. Places stand in the order of the text, with members
/// in the order of their names.
pub fn value_of_json(alloc: Global, json: &Json) -> Result<Value, ValueFault>
    ensures value { IfOk result (λ value. value ≡ value_of (view json.now)) }
    ensures accepted { IfOk result (λ value. first_bad 0 (view json.now) ≡ None) }
    ensures refused { IfErr result (λ fault. IsFaultOf fault (first_bad 0 (view json.now))) }
{
    read(alloc, 0, json)
}

/// The value inside so many lists and records. The depth of this recursion is at most one more than `DEEPEST`.
#[cycle(read)]
fn read(alloc: Global, depth: u32, json: &Json) -> Result<Value, ValueFault>
    ensures { Reads result (value_of (view json.now)) (first_bad depth (view json.now)) }
{
    if depth > DEEPEST {
        return Err(ValueFault::Deep {
            path: Path::new(alloc),
        });
    }
    match json {
        Json::Null => Ok(Value::Null),
        Json::Bool(truth) => Ok(Value::Bool(*truth)),
        Json::Number(number) => read_number(alloc, number),
        Json::String(text) => match text_of(alloc, text.as_str()) {
            Ok(text) => Ok(Value::Text(text)),
            Err(_) => Err(ValueFault::OutOfMemory),
        },
        Json::Array(items) => match read_items(alloc, depth + 1, items.as_slice()) {
            Ok(values) => Ok(Value::List(values)),
            Err(fault) => Err(fault),
        },
        Json::Object(members) => match read_members(alloc, depth + 1, members) {
            Ok(fields) => Ok(Value::Record(fields)),
            Err(fault) => Err(fault),
        },
    }
}

fn read_number(alloc: Global, number: &Number) -> Result<Value, ValueFault>
    ensures { Reads result (Value.Int (whole_of (number_view number.now))) (bad_number (number_view number.now)) }
{
    if let Some(whole) = number.as_i64() {
        return Ok(Value::Int(whole));
    }
    let path = Path::new(alloc);
    if number.is_f64() {
        Err(ValueFault::Float { path })
    } else {
        Err(ValueFault::IntRange { path })
    }
}

#[cycle(read)]
fn read_items(alloc: Global, depth: u32, items: &[Json]) -> Result<Items<Value>, ValueFault>
    ensures { Reads result (values_of (items_view items.now)) (first_bad_item depth 0 (items_view items.now)) }
{
    let mut values = Items::new(alloc);
    let mut at: u32 = 0;
    for item in items {
        match read(alloc, depth, item) {
            Ok(value) => values.push(value)?,
            Err(fault) => return Err(further_out(alloc, at, fault)),
        }
        at = at.saturating_add(1);
    }
    Ok(values)
}

#[cycle(read)]
fn read_members(
    alloc: Global,
    depth: u32,
    members: &Map<String, Json>,
) -> Result<Items<Entry<Value>>, ValueFault>
    ensures { Reads result (fields_of (members_view members.now.entries)) (first_bad_member depth 0 (members_view members.now.entries)) }
{
    let mut fields = Items::new(alloc);
    let mut at: u32 = 0;
    for (name, member) in members.iter() {
        match read(alloc, depth, member) {
            Ok(value) => fields.push(Entry {
                name: text_of(alloc, name.as_str())?,
                value,
            })?,
            Err(fault) => return Err(further_out(alloc, at, fault)),
        }
        at = at.saturating_add(1);
    }
    Ok(fields)
}

/// The fault as it is seen from one list or record further out.
fn further_out(alloc: Global, at: u32, fault: ValueFault) -> ValueFault
    ensures { IsInside at fault result }
{
    match fault {
        ValueFault::Float { path } => match longer(alloc, at, &path) {
            Ok(path) => ValueFault::Float { path },
            Err(_) => ValueFault::OutOfMemory,
        },
        ValueFault::IntRange { path } => match longer(alloc, at, &path) {
            Ok(path) => ValueFault::IntRange { path },
            Err(_) => ValueFault::OutOfMemory,
        },
        ValueFault::Deep { path } => match longer(alloc, at, &path) {
            Ok(path) => ValueFault::Deep { path },
            Err(_) => ValueFault::OutOfMemory,
        },
        ValueFault::OutOfMemory => ValueFault::OutOfMemory,
    }
}

/// The path with a step before it. A path of a fault has at most 101 steps.
fn longer(alloc: Global, at: u32, path: &Path) -> Result<Path, OutOfMemory>
    ensures { IfOk result (λ all. all ≡ at ∷ path.now) }
{
    let mut all = Path::new(alloc);
    all.push(at)?;
    for step in path.steps() {
        all.push(*step)?;
    }
    Ok(all)
}

pub(crate) fn text_of(alloc: Global, text: &str) -> Result<Text, OutOfMemory>
    ensures { IfOk result (λ copy. copy ≡ text.now) }
{
    let bytes = Vec::from_slice(alloc, text.as_bytes())?;
    Ok(Text::from_bytes(bytes).unwrap())
}
