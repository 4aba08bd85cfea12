//! Scripts.

ghost use Rattle.std.specs.Prelude.{◌≡◌, ◌+◌, ◌<◌, ◌≤◌, ◌^◌, ◌++◌, ◌∷◌, [], length, Some, None, IfSome, IfOk, IfErr, OnOk};
ghost use Rattle.serde_json.specs.Data.{array};
ghost use Rattle.serde_json.specs.View.{view, items_view};
ghost use Rattle.settle_script.specs.Scripts.{IsScript, IsFaultOf, Answers, script_of, outcomes_of, events_of, first_settling, next_event, settled_before, settled_name};

use crate::event::{Event, event_of};
use crate::fault::ScriptFault;
use crate::outcome::Outcomes;
use fizz_text::{OutOfMemory, Text};
use serde_json::Value as Json;
use std::alloc::Global;
use std::marker::Model;

/// A script, which contracts see as the list of its lines.
#[derive(Drop)]
pub struct Script {
    events: Vec<Event>,
    outcomes: Outcomes,
}

impl Model for Script {
    ghost use Rattle.std.specs.Prelude.{List, ◌≡◌};
    ghost use Rattle.std.specs.Coded.{codes};
    ghost use Rattle.settle_script.specs.contracts.value.Value as value;
    ghost use Rattle.settle_script.specs.declared.event.Event.{Event};

    ghost Value = { List Event };

    ghost coded = { Prim.hlevel (codes, value.the_row.coded) };

    ghost use Rattle.settle_script.specs.Scripts.{outcomes_of};

    ghost view = { λ s. s.events.items };

    ghost invariant = { λ s. s.outcomes ≡ outcomes_of s.events.items };
}

impl Script {
    /// The lines in their order.
    pub fn events(&self) -> &[Event]
        ensures { result.now ≡ self.now }
    {
        self.events.as_slice()
    }

    /// The settlements of the lines, in their order.
    pub fn outcomes(&self) -> &Outcomes
        ensures { result.now ≡ outcomes_of self.now }
    {
        &self.outcomes
    }

    /// The number of the line that settles what the event settles.
    fn settled_before(&self, event: &Event) -> Option<u32>
        requires { length self.now < 2 ^ 32 }
        ensures { result ≡ settled_before (settled_name event.now) self.now }
    {
        match event.settled_name() {
            Some(name) => self.first_settling(name),
            None => None,
        }
    }

    fn first_settling(&self, name: &Text) -> Option<u32>
        requires { length self.now < 2 ^ 32 }
        ensures { result ≡ first_settling name.now self.now }
    {
        if !self.outcomes.contains(name) {
            return None;
        }
        match first_named(self.events.as_slice(), name) {
            Some(first) => Some(first as u32),
            None => None,
        }
    }

    /// Adds a line that settles no name anew.
    fn push(&mut self, alloc: Global, event: Event) -> Result<(), OutOfMemory>
        requires new { settled_before (settled_name event) self.old ≡ None }
        requires few { length self.old + 1 < 2 ^ 32 }
        ensures ok { OnOk result (self.new ≡ self.old ++ event ∷ []) }
    {
        self.events.reserve(1)?;
        let settlement = event.settlement(alloc)?;
        self.outcomes.settle(alloc, settlement)?;
        self.events.push(event).unwrap();
        Ok(())
    }
}

fn first_named(events: &[Event], name: &Text) -> Option<usize>
    ensures found { result ≡ first_settling name.now events.now }
    ensures within { IfSome result (λ first. first < length events.now) }
{
    events.iter().position(|event| event.settles(name))
}

/// The most lines of a script.
const MOST_LINES: usize = 65_536;

/// Reads a script. A fault of the whole comes first: the bytes are no JSON array, or there are too many lines; then
/// the first line that has a fault counts, and its first one.
pub fn read_script(alloc: Global, bytes: &[u8]) -> Result<Script, ScriptFault>
    ensures accepted { IfOk result (IsScript bytes.now) }
    ensures refused { IfErr result (IsFaultOf bytes.now) }
{
    let json = match Json::from_slice(alloc, bytes) {
        Ok(json) => json,
        Err(error) if error.is_memory() => return Err(ScriptFault::OutOfMemory),
        Err(_) => return Err(ScriptFault::NotJson),
    };
    read_json(alloc, &json)
}

fn read_json(alloc: Global, json: &Json) -> Result<Script, ScriptFault>
    ensures { Answers result (script_of (Some (view json.now))) }
{
    match json {
        Json::Array(lines) => read_lines(alloc, lines.as_slice()),
        _ => Err(ScriptFault::NotJson),
    }
}

fn read_lines(alloc: Global, lines: &[Json]) -> Result<Script, ScriptFault>
    ensures { Answers result (script_of (Some (array (items_view lines.now)))) }
{
    let count = lines.len();
    if count > MOST_LINES {
        return Err(ScriptFault::TooManyEvents {
            count: count.min(u32::MAX as usize) as u32,
        });
    }
    read_events(alloc, lines)
}

fn read_events(alloc: Global, lines: &[Json]) -> Result<Script, ScriptFault>
    requires { length lines.now ≤ 65536 }
    ensures { Answers result (events_of [] (items_view lines.now)) }
{
    let mut script = Script {
        events: Vec::new(alloc),
        outcomes: Outcomes::new(alloc),
    };
    for line in lines {
        match next_event(alloc, &script, line) {
            Ok(event) => script.push(alloc, event)?,
            Err(fault) => return Err(fault),
        }
    }
    Ok(script)
}

/// The event of the line behind those of the script.
fn next_event(alloc: Global, script: &Script, line: &Json) -> Result<Event, ScriptFault>
    requires { length script.now < 2 ^ 32 }
    ensures event { Answers result (next_event script.now (view line.now)) }
    ensures new { IfOk result (λ event. settled_before (settled_name event) script.now ≡ None) }
{
    let index = script.events.len() as u32;
    let event = match event_of(alloc, index, line) {
        Ok(event) => event,
        Err(fault) => return Err(fault),
    };
    match script.settled_before(&event) {
        Some(first) => Err(ScriptFault::SettledTwice { index, first }),
        None => Ok(event),
    }
}
