//! The component of a name.

ghost use Rattle.std.specs.Prelude.{◌≡◌, ◌++◌, ◌∷◌, [], ◌+◌, ◌≤◌, ◌<◌, List, ℕ, Option, length, reverse, IfSome, IfNone};
ghost use Rattle.settle_script.specs.declared.outcome.Outcome.{Outcome};
ghost use Rattle.jsx_value.specs.Expressions.{Names};
ghost use Rattle.jsx_value.specs.declared.shape.Shape.TheVariants as s;
ghost use Rattle.jsx_value.specs.Positions.{Place, opened, places, calls_of, call_of};
ghost use Rattle.jsx_value.specs.Sizes.{total_size, node_size};

use jsx_syntax::Component;

/// A component with those before it, which it may call.
#[derive(Clone, Copy)]
pub(crate) struct Found<'a> {
    pub(crate) component: &'a Component,
    pub(crate) before: &'a [Component],
}

/// The latest component of the name.
pub(crate) fn component_of<'a>(components: &'a [Component], name: &[u8]) -> Option<Found<'a>>
    ensures found { IfSome result (λ f. (known : List ℕ → Option Outcome) (prefix : List ℕ) (args : Names)
        → calls_of places known prefix (reverse components.now) name.now args
        ≡ call_of places known prefix f.component.now (calls_of places known prefix (reverse f.before.now)) args) }
    ensures none { IfNone result ((known : List ℕ → Option Outcome) (prefix : List ℕ) (args : Names)
        → calls_of places known prefix (reverse components.now) name.now args ≡ opened s.Nothing) }
    ensures smaller { IfSome result (λ f. total_size f.before.now + node_size f.component.now.result + 2 ≤ total_size components.now) }
    ensures fewer { IfSome result (λ f. length f.before.now < length components.now) }
{
    let mut rest = components;
    while let Some((component, before)) = rest.split_last() {
        if name == component.name.text.as_bytes() {
            return Some(Found { component, before });
        }
        rest = before;
    }
    None
}
