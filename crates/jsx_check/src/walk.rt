//! The walk over a file's events that finds the first broken rule.

ghost use Rattle.std.specs.Prelude.{◌≡◌, ◌+◌, ◌<◌, ◌^◌, [], true, if◌then◌else◌, is_some, Some, None, IfOk, OnOk};
ghost use Rattle.jsx_syntax.specs.Rules.{properties_of};
ghost use Rattle.jsx_check.specs.Events.{AreKnown, after_event, attribute_rule, binds, bounds, call_rule, calls, defines, ends, opens, uses, walk_start, with_found};
ghost use Rattle.jsx_check.specs.Firsts.{Decides, found_by};
ghost use Rattle.jsx_check.specs.SeenEvents.{event_of, found_after};

use crate::components::Components;
use crate::event::{Event, events_of};
use crate::found::{Found, earlier};
use crate::names::Names;
use fizz_text::OutOfMemory;
use html_names::element;
use jsx_syntax::{File, Name, Rule};
use std::alloc::Global;

/// What the walk knows after some events.
#[derive(Drop)]
pub struct Walk<'a> {
    /// The components of the file that ended.
    pub before: Names<'a>,
    /// The names in scope.
    pub scope: Names<'a>,
    /// How many fallbacks are open.
    pub fallbacks: usize,
    /// The first broken rule so far, by its place.
    pub found: Option<Found>,
}

/// The first rule on names that the file breaks, by place and then by the order of the rules.
pub fn first_broken(alloc: Global, file: &File) -> Result<Option<Found>, OutOfMemory>
    ensures { IfOk result (Decides file.now) }
{
    let list = file.components.as_slice();
    let components = Components::of(alloc, list)?;
    let events = events_of(alloc, list)?;
    found_in(alloc, &components, events.as_slice())
}

/// What a walk over the events finds.
fn found_in<'a>(
    alloc: Global,
    components: &Components<'a>,
    events: &[Event<'a>],
) -> Result<Option<Found>, OutOfMemory>
    ensures { IfOk result (λ found. found ≡ found_after components.now events.now) }
{
    let mut walk = start(alloc);
    for event in events {
        step(components, &mut walk, *event)?;
    }
    Ok(walk.found)
}

/// Before the first event.
fn start<'a>(alloc: Global) -> Walk<'a>
    ensures { result ≡ walk_start }
{
    Walk {
        before: Names::new(alloc),
        scope: Names::new(alloc),
        fallbacks: 0,
        found: None,
    }
}

/// What an event does.
fn step<'a>(
    components: &Components<'a>,
    walk: &mut Walk<'a>,
    event: Event<'a>,
) -> Result<(), OutOfMemory>
    requires room { walk.old.fallbacks + 1 < 2 ^ 64 }
    requires known { AreKnown components.now walk.old.before }
    ensures { OnOk result (walk.new
        ≡ after_event components.now walk.old (event_of event.entry)) }
{
    match event {
        Event::Defines(name) => define(walk, name),
        Event::Ends(name) => return end(components, walk, name),
        Event::Uses(name) => use_name(walk, name),
        Event::Binds(name) => return bind(walk, name),
        Event::Unbinds => return walk.scope.pop(),
        Event::Opens(name) => open(walk, name),
        Event::Calls(name) => call(components, walk, name),
        Event::Bounds(name) => bound(walk, name),
        Event::Gives { name, owner, twice } => {
            let known = components.knows(owner, &name.text);
            note(walk, name, attribute_rule(known, twice));
        },
        Event::Enters => walk.fallbacks += 1,
        Event::Leaves => walk.fallbacks = walk.fallbacks.saturating_sub(1),
    }
    Ok(())
}

/// Keeps the earlier of what was found and of a rule that is broken at the name.
fn note(walk: &mut Walk, name: &Name, rule: Option<Rule>)
    ensures { walk.new ≡ with_found walk.old (found_by name.now.at rule) }
{
    let found = match rule {
        Some(rule) => Some(Found { rule, at: name.at }),
        None => None,
    };
    walk.found = earlier(walk.found, found);
}

/// A rule that is broken where the test holds.
fn rule_if(broken: bool, rule: Rule) -> Option<Rule>
    ensures { result ≡ (if broken then Some rule else None) }
{
    if broken { Some(rule) } else { None }
}

fn define(walk: &mut Walk, name: &Name)
    ensures { walk.new ≡ after_event [] walk.old (defines name.now) }
{
    let taken = walk.before.has(&name.text) || name.text.as_bytes() == b"Suspense".as_slice();
    note(walk, name, rule_if(taken, Rule::TwiceDefined));
}

fn end<'a>(
    components: &Components<'a>,
    walk: &mut Walk<'a>,
    name: &'a Name,
) -> Result<(), OutOfMemory>
    ensures { OnOk result (walk.new ≡ after_event components.now walk.old (ends name.now)) }
{
    walk.scope.clear();
    if components.has(&name.text) {
        walk.before.push(&name.text)?;
    }
    Ok(())
}

fn use_name(walk: &mut Walk, name: &Name)
    ensures { walk.new ≡ after_event [] walk.old (uses name.now) }
{
    let unknown = !walk.scope.has(&name.text);
    note(walk, name, rule_if(unknown, Rule::UnknownName));
}

fn bind<'a>(walk: &mut Walk<'a>, name: &'a Name) -> Result<(), OutOfMemory>
    ensures { OnOk result (walk.new ≡ after_event [] walk.old (binds name.now)) }
{
    let taken = walk.scope.has(&name.text);
    note(walk, name, rule_if(taken, Rule::TwiceDefined));
    walk.scope.push(&name.text)
}

fn open(walk: &mut Walk, name: &Name)
    ensures { walk.new ≡ after_event [] walk.old (opens name.now) }
{
    let unknown = element(name.text.as_bytes()).is_none();
    note(walk, name, rule_if(unknown, Rule::UnknownElement));
}

fn call<'a>(components: &Components<'a>, walk: &mut Walk<'a>, name: &Name)
    requires { AreKnown components.now walk.old.before }
    ensures { walk.new ≡ after_event components.now walk.old (calls name.now) }
{
    let defined = walk.before.has(&name.text);
    let known = is_known(components, name, defined);
    note(walk, name, call_rule(known, defined, walk.fallbacks > 0));
}

/// Whether there is a component of this name. One that is defined before needs no other look.
fn is_known<'a>(components: &Components<'a>, name: &Name, defined: bool) -> bool
    requires { defined ≡ true → is_some (properties_of name.now.text components.now) ≡ true }
    ensures { result ≡ is_some (properties_of name.now.text components.now) }
{
    if defined {
        return true;
    }
    components.has(&name.text)
}

fn bound(walk: &mut Walk, name: &Name)
    ensures { walk.new ≡ after_event [] walk.old (bounds name.now) }
{
    let nested = walk.fallbacks > 0;
    note(walk, name, rule_if(nested, Rule::FallbackNotPlain));
}

/// The first rule that a component's element breaks.
fn call_rule(known: bool, defined: bool, in_fallback: bool) -> Option<Rule>
    ensures { result ≡ call_rule known defined in_fallback }
{
    if !known {
        return Some(Rule::UnknownElement);
    }
    if !defined {
        return Some(Rule::UsedBeforeDefined);
    }
    rule_if(in_fallback, Rule::FallbackNotPlain)
}

/// The first rule that an attribute breaks.
fn attribute_rule(known: bool, twice: bool) -> Option<Rule>
    ensures { result ≡ attribute_rule known twice }
{
    if !known {
        return Some(Rule::UnknownAttribute);
    }
    rule_if(twice, Rule::TwiceDefined)
}
