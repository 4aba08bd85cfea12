//! The comments that enclose a boundary among its siblings.

ghost use Rattle.std.specs.Prelude.{◌≡◌};
ghost use Rattle.dom_forest.specs.Boundary.{turn_of};
ghost use Rattle.dom_forest.specs.Chain.{IsChainOf, entries_of, rest_from};
ghost use Rattle.dom_forest.specs.Runs.{closing_in};

use crate::chain::{Chain, slot_of};
use crate::node::{Mark, NewNode};

/// What a node does to the number of open boundaries.
#[derive(Clone, Copy, Drop)]
pub(crate) enum Turn {
    Opens,
    Closes,
    Stays,
}

fn counted(node: &NewNode) -> Turn
    ensures { result ≡ turn_of node.now }
{
    match node {
        NewNode::Comment(Mark::Complete | Mark::Pending | Mark::Client) => Turn::Opens,
        NewNode::Comment(Mark::End) => Turn::Closes,
        _ => Turn::Stays,
    }
}

/// The `/$` that ends the boundary of a template at a depth, among the nodes from one after it on.
pub(crate) fn closing_after(chain: &Chain, after: Option<usize>, depth: usize) -> Option<usize>
    requires { IsChainOf chain.now (entries_of chain.now) }
    ensures { result ≡ closing_in depth (rest_from after (entries_of chain.now)) 0 }
{
    let mut inner: usize = 0;
    let mut next = after;
    while let Some(id) = next {
        let Some(slot) = slot_of(chain, id) else {
            return None;
        };
        if slot.depth < depth {
            return None;
        }
        if slot.depth == depth {
            match counted(&slot.node) {
                Turn::Opens => inner += 1,
                Turn::Closes if inner == 0 => return Some(id),
                Turn::Closes => inner -= 1,
                Turn::Stays => {}
            }
        }
        next = slot.next;
    }
    None
}
