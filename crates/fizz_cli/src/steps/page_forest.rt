//! The expansion of a page.

ghost use Rattle.std.specs.Prelude.{◌≡◌};
ghost use Rattle.jsx_syntax.specs.Rules.{IsApp};
ghost use Rattle.fizz_cli.specs.Steps.{AcceptsOrRefuses};
ghost use Rattle.fizz_cli.specs.Sending.{IsShownForest};
ghost use Rattle.fizz_cli.specs.Trees.{IsExpanded, IsTooHeavy, RefusesTreePage, settled_page};

use super::sources::Sources;
use crate::refusal::{FileFault, ProgramFault, Refusal};
use crate::stop::{OrMemory, refused};
use fizz_text::Text;
use jsx_value::WeighRefused;
use settled_tree::{Forest, expand, laws_of_forests, shell_failures};
use std::alloc::Global;

/// The expansion of a program's page where all that the script settles is known, and the content outside all boundaries
/// has not failed.
pub(crate) fn shown_page(
    alloc: Global,
    app: &Text,
    sources: &Sources,
    prefix: &Text,
) -> Result<Forest, OrMemory<Refusal>>
    requires { IsApp sources.now.program }
    ensures { AcceptsOrRefuses (IsShownForest (settled_page sources.now prefix.now))
        (RefusesTreePage app.now (settled_page sources.now prefix.now)) result }
{
    laws_of_forests();
    let forest = match expand_page(alloc, app, sources, prefix) {
        Ok(forest) => forest,
        Err(refused) => return Err(refused),
    };
    let failures = shell_failures(alloc, &forest)?;
    match failures.as_slice().first() {
        Some(digest) => Err(OrMemory::Fault(Refusal::ShellFailed {
            digest: digest.copy(alloc)?,
        })),
        None => Ok(forest),
    }
}

/// The expansion of a program's page where all that the script settles is known. The page of the component file `app`
/// may be too large.
fn expand_page(
    alloc: Global,
    app: &Text,
    sources: &Sources,
    prefix: &Text,
) -> Result<Forest, OrMemory<Refusal>>
    requires { IsApp sources.now.program }
    ensures { AcceptsOrRefuses (IsExpanded (settled_page sources.now prefix.now))
        (IsTooHeavy app.now (settled_page sources.now prefix.now)) result }
{
    let outcomes = sources.script.outcomes();
    match expand(alloc, &sources.program, outcomes, outcomes.len(), prefix) {
        Ok(forest) => Ok(forest),
        Err(WeighRefused::TooLarge { limit }) => {
            let fault = ProgramFault::TooLarge { limit };
            Err(refused(alloc, app, FileFault::Program(fault)))
        }
        Err(WeighRefused::OutOfMemory) => Err(OrMemory::NoMemory),
    }
}
