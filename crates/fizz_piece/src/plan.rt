//! What is to be rendered.

ghost use Rattle.std.specs.Prelude.{◌≡◌, ◌≤◌, length, IfOk, IfErr};
ghost use Rattle.jsx_value.specs.Weights.{IsTooLarge, most_weight};
ghost use Rattle.fizz_piece.specs.Plans.{longest_prefix, settled_weight};

use fizz_text::Text;
use jsx_syntax::App;
use jsx_value::{WeighRefused, weigh};
use settle_script::Outcomes;
use std::alloc::Global;

/// How a page is rendered.
#[derive(Debug, Drop)]
pub struct Options {
    /// What ids of the renderer begin with: at most 64 bytes.
    pub prefix: Text,
    /// The most bytes of a boundary's own that are sent in its place, without a fallback before them.
    pub progressive: u32,
    /// How many bytes are handed to a sink at a time: at least 1.
    pub chunk: u32,
}

/// A page to be rendered: its components, what its resources come to in the end, and how. It weighs at most 8,000,000
/// once all has settled.
#[derive(Clone, Copy)]
pub struct Plan<'a> {
    pub app: &'a App,
    pub outcomes: &'a Outcomes,
    pub options: &'a Options,
    pub ghost within: { settled_weight app.now outcomes.now options.now.prefix ≤ most_weight },
    pub ghost short_prefix: { length options.now.prefix ≤ longest_prefix },
    pub ghost some_chunk: { 1 ≤ options.now.chunk },
}

impl<'a> Plan<'a> {
    /// The plan of a page, which is refused where it weighs more than 8,000,000 once all has settled.
    pub fn new(
        alloc: Global,
        app: &'a App,
        outcomes: &'a Outcomes,
        options: &'a Options,
    ) -> Result<Plan<'a>, WeighRefused>
        requires prefix { length options.now.prefix ≤ longest_prefix }
        requires chunk { 1 ≤ options.now.chunk }
        ensures app { IfOk result (λ plan. plan.app ≡ app.entry) }
        ensures outcomes { IfOk result (λ plan. plan.outcomes ≡ outcomes.entry) }
        ensures options { IfOk result (λ plan. plan.options ≡ options.entry) }
        ensures within { IfOk result (λ plan.
            settled_weight app.now outcomes.now options.now.prefix ≤ most_weight) }
        ensures refused { IfErr result
            (IsTooLarge (settled_weight app.now outcomes.now options.now.prefix)) }
    {
        weigh(alloc, app, outcomes, outcomes.len(), &options.prefix)?;
        Ok(Plan {
            app,
            outcomes,
            options,
        })
    }
}
