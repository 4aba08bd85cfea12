ghost use Rattle.std.specs.Prelude.{◌≡◌, ◌↔◌, [], Some, codes, IfOk, IfErr, IsTrue, MatchResult, option_map};
ghost use Rattle.jsx_syntax.specs.Rules.{IsApp, properties_of};
ghost use Rattle.jsx_check.specs.Checks.{IsFaultOf, fault_of, told_as};
ghost use Rattle.jsx_check.specs.declared.fault.CheckFault.TheVariants.{OutOfMemory as Memory};

use crate::depth::app_depth;
use crate::fault::CheckFault;
use crate::found::Found;
use crate::walk::first_broken;
use jsx_syntax::{App, Component, File, Name, Rule};
use std::alloc::Global;

/// The most components that a file may have.
const MOST_COMPONENTS: usize = 1_000;

/// The greatest depth of what `App` returns.
const MOST_DEPTH: u32 = 256;

/// The file as an app, exactly where it meets the rules. Otherwise the first thing that it is refused for: too many
/// components; the first rule on names that is broken, by place and then by the order of the rules; no `App`; its
/// depth. A file that meets the rules is refused only for want of memory.
///
/// Takes time in proportion to n log n, where n is the file's length.
#[tactic(auto, unfolding(jsx_syntax::specs::Rules::most_components, jsx_syntax::specs::Rules::most_depth))]
pub fn check(alloc: Global, file: File) -> Result<App, CheckFault>
    ensures accepted { IfOk result (λ app. (app ≡ file) × IsApp file) }
    ensures refused { IfErr result (IsFaultOf file) }
    ensures only { IsApp file → MatchResult result (λ app. app ≡ file) (λ e. e ≡ Memory) }
{
    let count = file.components.as_slice().len();
    if count > MOST_COMPONENTS {
        return Err(CheckFault::TooManyComponents {
            count: told_as(count),
        });
    }
    if let Some(found) = first_broken(alloc, &file)? {
        return Err(fault_of(found));
    }
    if !has_app(file.components.as_slice()) {
        return Err(CheckFault::NoApp);
    }
    let depth = app_depth(alloc, &file)?;
    if depth > MOST_DEPTH {
        return Err(CheckFault::TooDeep { depth });
    }
    Ok(App::of(file))
}

fn fault_of(found: Found) -> CheckFault
    ensures { result ≡ fault_of found }
{
    let at = found.at;
    match found.rule {
        Rule::UnknownName => CheckFault::UnknownName { at },
        Rule::UnknownElement => CheckFault::UnknownElement { at },
        Rule::UnknownAttribute => CheckFault::UnknownAttribute { at },
        Rule::TwiceDefined => CheckFault::TwiceDefined { at },
        Rule::UsedBeforeDefined => CheckFault::UsedBeforeDefined { at },
        Rule::FallbackNotPlain => CheckFault::FallbackNotPlain { at },
    }
}

/// Whether the first component `App` is there and has no properties.
fn has_app(components: &[Component]) -> bool
    ensures { IsTrue result ↔ (properties_of (codes "App") components.now ≡ Some []) }
{
    match app_properties(components) {
        Some(properties) => properties.is_empty(),
        None => false,
    }
}

fn app_properties(components: &[Component]) -> Option<&[Name]>
    ensures { option_map (λ p. p.now) result ≡ properties_of (codes "App") components.now }
{
    for component in components {
        if component.name.text.as_bytes() == b"App".as_slice() {
            return Some(component.properties.as_slice());
        }
    }
    None
}

/// A number as a fault tells it.
fn told_as(count: usize) -> u32
    ensures { result ≡ told_as count }
{
    u32::try_from(count).unwrap_or(u32::MAX)
}
