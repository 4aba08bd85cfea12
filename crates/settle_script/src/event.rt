//! The lines of a script.

ghost use Rattle.std.specs.Prelude.{◌≡◌, ◌<◌, ◌^◌, length, position, option_map, IfOk};
ghost use Rattle.std.specs.Option.{option_copied};
ghost use Rattle.serde_json.specs.View.{view};
ghost use Rattle.settle_script.specs.Scripts.{line_of, line_of_one, line_of_two, resolve_line, reject_line, count_of as count_in, settled_name as name_of, is_name, settlement_of, Answers};

use crate::fault::{ScriptFault, ValueFault};
use crate::json::{text_of, value_of_json};
use crate::outcome::Outcome;
use crate::value::{Entry, Value};
use fizz_text::{OutOfMemory, Text};
use serde_json::Value as Json;
use std::alloc::Global;

/// The most bytes of a digest.
const LONGEST_DIGEST: usize = 1024;

/// What a line of a script does.
#[derive(Debug, Drop)]
pub enum Event {
    /// Resolves the resource of this name with a value.
    Resolve { name: Text, value: Value },
    /// Rejects the resource of this name.
    Reject { name: Text, digest: Text },
    /// Does so many tasks; 0 stands for all.
    Work { count: u32 },
    /// Flushes at most so many bytes; 0 stands for no limit.
    Flush { budget: u32 },
}

impl Event {
    /// The name that the line settles.
    pub(crate) fn settled_name(&self) -> Option<&Text>
        ensures { option_copied result ≡ name_of self.now }
    {
        match self {
            Event::Resolve { name, .. } | Event::Reject { name, .. } => Some(name),
            Event::Work { .. } | Event::Flush { .. } => None,
        }
    }

    /// What the line settles.
    pub(crate) fn settlement(&self, alloc: Global) -> Result<Option<Entry<Outcome>>, OutOfMemory>
        ensures { IfOk result (λ settlement. settlement ≡ settlement_of self.now) }
    {
        match self {
            Event::Resolve { name, value } => Ok(Some(Entry {
                name: name.copy(alloc)?,
                value: Outcome::Resolved(value.copy(alloc)?),
            })),
            Event::Reject { name, digest } => Ok(Some(Entry {
                name: name.copy(alloc)?,
                value: Outcome::Rejected(digest.copy(alloc)?),
            })),
            Event::Work { .. } | Event::Flush { .. } => Ok(None),
        }
    }

    pub(crate) fn settles(&self, name: &Text) -> bool
        ensures { result ≡ is_name name.now (name_of self.now) }
    {
        match self.settled_name() {
            Some(other) => name.as_bytes() == other.as_bytes(),
            None => false,
        }
    }
}

/// The event of a line by itself.
pub(crate) fn event_of(alloc: Global, index: u32, line: &Json) -> Result<Event, ScriptFault>
    ensures { Answers result (line_of index (view line.now)) }
{
    let Json::Object(members) = line else {
        return Err(ScriptFault::NotEvent { index });
    };
    let mut members = members.iter();
    let Some((first, one)) = members.next() else {
        return Err(ScriptFault::NotEvent { index });
    };
    let Some((second, other)) = members.next() else {
        return event_of_one(index, first.as_str(), one);
    };
    if members.next().is_some() {
        return Err(ScriptFault::NotEvent { index });
    }
    event_of_two(
        alloc,
        index,
        (first.as_str(), one),
        (second.as_str(), other),
    )
}

fn event_of_one(index: u32, name: &str, value: &Json) -> Result<Event, ScriptFault>
    ensures { Answers result (line_of_one index name.now (view value.now)) }
{
    match (name, count_of(value)) {
        ("work", Some(count)) => Ok(Event::Work { count }),
        ("flush", Some(budget)) => Ok(Event::Flush { budget }),
        _ => Err(ScriptFault::NotEvent { index }),
    }
}

/// A whole number below 2^32.
fn count_of(value: &Json) -> Option<u32>
    ensures { result ≡ count_in (view value.now) }
{
    match value.as_u64() {
        Some(count) if count <= u64::from(u32::MAX) => Some(count as u32),
        _ => None,
    }
}

fn event_of_two(
    alloc: Global,
    index: u32,
    first: (&str, &Json),
    second: (&str, &Json),
) -> Result<Event, ScriptFault>
    ensures { Answers result (line_of_two index first.entry.0.now (view first.entry.1.now) second.entry.0.now (view second.entry.1.now)) }
{
    match (first.0, second.0) {
        ("resolve", "value") => resolve(alloc, index, first.1, second.1),
        ("digest", "reject") => reject(alloc, index, second.1, first.1),
        _ => Err(ScriptFault::NotEvent { index }),
    }
}

fn resolve(alloc: Global, index: u32, name: &Json, value: &Json) -> Result<Event, ScriptFault>
    ensures { Answers result (resolve_line index (view name.now) (view value.now)) }
{
    let Json::String(name) = name else {
        return Err(ScriptFault::NotEvent { index });
    };
    match value_of_json(alloc, value) {
        Ok(value) => Ok(Event::Resolve {
            name: text_of(alloc, name.as_str())?,
            value,
        }),
        Err(ValueFault::OutOfMemory) => Err(ScriptFault::OutOfMemory),
        Err(_) => Err(ScriptFault::BadValue { index }),
    }
}

fn reject(alloc: Global, index: u32, name: &Json, digest: &Json) -> Result<Event, ScriptFault>
    ensures { Answers result (reject_line index (view name.now) (view digest.now)) }
{
    let Json::String(name) = name else {
        return Err(ScriptFault::NotEvent { index });
    };
    let Json::String(digest) = digest else {
        return Err(ScriptFault::NotEvent { index });
    };
    let length = digest.len();
    if length > LONGEST_DIGEST {
        return Err(ScriptFault::DigestTooLong { index, length });
    }
    Ok(Event::Reject {
        name: text_of(alloc, name.as_str())?,
        digest: text_of(alloc, digest.as_str())?,
    })
}
