//! Scripts with their lines, refused scripts, values from JSON, and what settlements make known.

mod faults;
mod limits;
mod lines;

use crate::{JoinFault, Outcome, Outcomes, Script, Value, read_script, value_of_json};
use fizz_text::Text;
use serde_json::Value as Json;
use std::alloc::Global;
use std::process::Abort;
use std::test::Fail;

/// How a value of each kind is written in a test's table.
fn is_shown(value: &Value, shown: &str) -> bool {
    match value {
        Value::Null => shown == "null",
        Value::Bool(truth) => shown == if *truth { "true" } else { "false" },
        Value::Int(number) => shown.parse() == Ok(*number),
        Value::Text(text) => text.as_str() == shown,
        Value::List(_) => shown == "list",
        Value::Record(_) => shown == "record",
    }
}

fn check_value(rt: &impl Abort, alloc: Global, json: &str, shown: &str) -> Result<(), Fail> {
    let json = Json::from_str(alloc, json)?;
    match value_of_json(alloc, &json) {
        Ok(value) => assert!(rt; is_shown(&value, shown), "{value:?} for {shown}"),
        Err(fault) => assert!(rt; false, "{fault:?} for {shown}"),
    }
    Ok(())
}

fn check_bad_value(rt: &impl Abort, alloc: Global, json: &str, fault: &str) -> Result<(), Fail> {
    let json = Json::from_str(alloc, json)?;
    match value_of_json(alloc, &json) {
        Ok(value) => assert!(rt; false, "{value:?} for {fault}"),
        Err(found) => {
            let found = format!(in alloc; "{found:?}")?;
            assert!(rt; found.as_str() == fault, "{found} for {fault}");
        }
    }
    Ok(())
}

fn check_refused(rt: &impl Abort, alloc: Global, script: &[u8], fault: &str) -> Result<(), Fail> {
    match read_script(alloc, script) {
        Ok(_) => assert!(rt; false, "a script for {fault}"),
        Err(found) => {
            let found = format!(in alloc; "{found:?}")?;
            assert!(rt; found.as_str() == fault, "{found} for {fault}");
        }
    }
    Ok(())
}

/// Whether the first `settled` settlements make this known of the name: an outcome's value or digest.
fn is_known(outcomes: &Outcomes, name: &'static str, settled: u32, shown: Option<&str>) -> bool {
    match (outcomes.get(&Text::fixed(name), settled), shown) {
        (None, None) => true,
        (Some(Outcome::Resolved(value)), Some(shown)) => is_shown(value, shown),
        (Some(Outcome::Rejected(digest)), Some(shown)) => digest.as_str() == shown,
        _ => false,
    }
}

/// The joined lists. Two of a test are short.
fn join(alloc: Global, first: &Outcomes, later: &Outcomes) -> Result<Outcomes, JoinFault> {
    match first.len().checked_add(later.len()) {
        Some(_) => first.joined(alloc, later),
        None => Err(JoinFault::OutOfMemory),
    }
}

fn script(alloc: Global, text: &str) -> Result<Script, Fail> {
    Ok(read_script(alloc, text.as_bytes())?)
}
