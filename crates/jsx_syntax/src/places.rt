//! States of the parser by their positions.

ghost use Rattle.std.specs.Prelude.{◌≡◌};
ghost use Rattle.jsx_syntax.specs.Steps as spec;

use crate::stack::Stack;
use crate::state::{Frame, InElement, InMap, Inside, Outside, Position, State, Within};

pub(crate) fn outside(x: Outside, stack: Stack<Frame>) -> State
    ensures { result ≡ spec.outside x stack }
{
    State {
        position: Position::Outside(x),
        stack,
    }
}

pub(crate) fn within(x: Within, stack: Stack<Frame>) -> State
    ensures { result ≡ spec.within x stack }
{
    State {
        position: Position::Within(x),
        stack,
    }
}

pub(crate) fn inside(x: Inside, stack: Stack<Frame>) -> State
    ensures { result ≡ spec.inside x stack }
{
    State {
        position: Position::Inside(x),
        stack,
    }
}

pub(crate) fn in_map(x: InMap, stack: Stack<Frame>) -> State
    ensures { result ≡ spec.in_map x stack }
{
    State {
        position: Position::InMap(x),
        stack,
    }
}

pub(crate) fn in_element(x: InElement, stack: Stack<Frame>) -> State
    ensures { result ≡ spec.in_element x stack }
{
    State {
        position: Position::InElement(x),
        stack,
    }
}
