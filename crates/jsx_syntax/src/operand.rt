//! The steps within an expression.

ghost use Rattle.std.specs.Prelude.{◌≡◌, ◌∷◌, ◌++◌, [], IfOk, OnOk, Ok, Err, Some, None, Option, codes, true, ◌+◌, ◌<◌, is_some, MatchBool};
ghost use Rattle.std.specs.Str.{bytes_eq};
ghost use Rattle.jsx_syntax.specs.Steps as spec;
ghost use Rattle.jsx_syntax.specs.Steps.{Gives};
ghost use Rattle.jsx_syntax.specs.Trees as trees;
ghost use Rattle.jsx_syntax.specs.declared.fault.Stop.TheVariants.{Refused};
ghost use Rattle.jsx_syntax.specs.declared.part.Part.TheVariants.{Value as ValuePart, Other as OtherPart};
ghost use Rattle.jsx_syntax.specs.declared.expr.Expr.TheVariants as e;
ghost use Rattle.jsx_syntax.specs.declared.state.Inside.TheVariants as i;
ghost use Rattle.jsx_syntax.specs.declared.state.InElement.TheVariants as t;
ghost use Rattle.jsx_syntax.specs.declared.state.Frame.TheVariants as f;
ghost use Rattle.jsx_syntax.specs.declared.node.Node.TheVariants as n;

use crate::builders::{all_of, any_of, equal, last_of_all, last_of_any, members, negated, sum};
use crate::closing::finish;
use crate::expr::Expr;
use crate::fault::{Stop, Wanted};
use crate::matching::{
    any_name, has_room, has_room_after, has_room_within, is_reserved, is_sign, refusal,
};
use crate::name::Name;
use crate::node::Node;
use crate::part::{Dotted, Part};
use crate::places::{in_element, in_map, inside};
use crate::stack::Stack;
use crate::state::{Conditional, Frame, InElement, InMap, Inside, Left, Mapping, Pending, State};
use fizz_text::Text;
use jsx_lex::{Punctuator, Word};
use sqlite_items::Items;
use std::alloc::{AllocError, Global};

/// One more. As many open places as `usize` counts fit into no memory.
pub(crate) fn deeper(depth: usize) -> Result<usize, AllocError>
    ensures { IfOk result (λ d. d ≡ depth + 1) }
{
    match depth.checked_add(1) {
        Some(deeper) => Ok(deeper),
        None => Err(AllocError),
    }
}

/// Two more.
pub(crate) fn deeper_twice(depth: usize) -> Result<usize, AllocError>
    ensures { IfOk result (λ d. d ≡ depth + 1 + 1) }
{
    deeper(deeper(depth)?)
}

/// An expression of which nothing was read.
pub(crate) fn fresh(alloc: Global, place: bool, depth: usize) -> Pending
    ensures { result ≡ spec.fresh place depth }
{
    Pending {
        place,
        depth,
        ors: Items::new(alloc),
        ands: Items::new(alloc),
        left: None,
        sums: Items::new(alloc),
        nots: 0,
    }
}

/// Whether an element, an array or a map may be the next operand.
fn allows_node(pending: &Pending) -> bool
    ensures { result ≡ spec.allows_node pending.now }
{
    if !pending.place {
        return false;
    }
    if pending.left.is_some() {
        return false;
    }
    if pending.sums.len() > 0 {
        return false;
    }
    pending.nots == 0
}

/// The operands of the sum whose last operand was read.
fn sums(
    alloc: Global,
    mut operands: Items<Expr>,
    nots: usize,
    last: Dotted,
) -> Result<Items<Expr>, AllocError>
    ensures { IfOk result (λ xs. xs ≡ operands ++ spec.nots_of nots (trees.member_of last) ∷ []) }
{
    let last = members(alloc, last)?;
    let last = negated(alloc, nots, last)?;
    operands.push(last)?;
    Ok(operands)
}

fn after_plus(alloc: Global, pending: Pending, last: Dotted) -> Result<Pending, AllocError>
    ensures { IfOk result (λ q. q ≡ spec.after_plus pending last) }
{
    let Pending {
        place,
        depth,
        ors,
        ands,
        left,
        sums: operands,
        nots,
    } = pending;
    let sums = sums(alloc, operands, nots, last)?;
    Ok(Pending {
        place,
        depth,
        ors,
        ands,
        left,
        sums,
        nots: 0,
    })
}

fn after_equal(
    alloc: Global,
    pending: Pending,
    last: Dotted,
    negated: bool,
) -> Result<Pending, AllocError>
    ensures { IfOk result (λ q. q ≡ spec.after_equal pending last negated) }
{
    let Pending {
        place,
        depth,
        ors,
        ands,
        left: _,
        sums: operands,
        nots,
    } = pending;
    let value = sum(sums(alloc, operands, nots, last)?);
    Ok(Pending {
        place,
        depth,
        ors,
        ands,
        left: Some(Left { value, negated }),
        sums: Items::new(alloc),
        nots: 0,
    })
}

/// The operands of the conjunction whose last operand was read: of the comparison, if there is one.
fn conjunction(
    alloc: Global,
    mut operands: Items<Expr>,
    left: Option<Left>,
    right: Items<Expr>,
) -> Result<Items<Expr>, AllocError>
    ensures { IfOk result (λ xs. xs ≡ operands ++ spec.equal_of left (trees.sum_of right) ∷ []) }
{
    let last = equal(alloc, left, sum(right))?;
    operands.push(last)?;
    Ok(operands)
}

fn after_and(alloc: Global, pending: Pending, last: Dotted) -> Result<Pending, AllocError>
    ensures { IfOk result (λ q. q ≡ spec.after_and pending last) }
{
    let Pending {
        place,
        depth,
        ors,
        ands,
        left,
        sums: operands,
        nots,
    } = pending;
    let right = sums(alloc, operands, nots, last)?;
    let ands = conjunction(alloc, ands, left, right)?;
    Ok(Pending {
        place,
        depth,
        ors,
        ands,
        left: None,
        sums: Items::new(alloc),
        nots: 0,
    })
}

/// The operands of the disjunction whose last operand was read, a conjunction.
fn disjunction(mut operands: Items<Expr>, last: Items<Expr>) -> Result<Items<Expr>, AllocError>
    ensures { IfOk result (λ xs. xs ≡ operands ++ trees.and_of last ∷ []) }
{
    operands.push(all_of(last))?;
    Ok(operands)
}

fn after_or(alloc: Global, pending: Pending, last: Dotted) -> Result<Pending, AllocError>
    ensures { IfOk result (λ q. q ≡ spec.after_or pending last) }
{
    let Pending {
        place,
        depth,
        ors,
        ands,
        left,
        sums: operands,
        nots,
    } = pending;
    let right = sums(alloc, operands, nots, last)?;
    let last = conjunction(alloc, ands, left, right)?;
    let ors = disjunction(ors, last)?;
    Ok(Pending {
        place,
        depth,
        ors,
        ands: Items::new(alloc),
        left: None,
        sums: Items::new(alloc),
        nots: 0,
    })
}

/// The value of an expression whose last operand was read.
fn value_of(alloc: Global, pending: Pending, last: Dotted) -> Result<Expr, AllocError>
    ensures { IfOk result (λ x. x ≡ spec.value_of pending last) }
{
    let Pending { ors, .. } = after_or(alloc, pending, last)?;
    Ok(any_of(ors))
}

/// The node of a node place whose last operand was read.
fn node_of(alloc: Global, pending: Pending, last: Node) -> Result<Part, AllocError>
    ensures { IfOk result (λ x. x ≡ spec.node_part pending (trees.other last)) }
{
    let Pending { ors, ands, .. } = pending;
    let last = last_of_all(alloc, ands, last)?;
    last_of_any(alloc, ors, last)
}

fn operand(alloc: Global, pending: Pending, of: Expr, stack: Stack<Frame>) -> Result<State, Stop>
    ensures { Gives (spec.operand pending of stack) result }
{
    let dotted = Dotted {
        of,
        names: Items::new(alloc),
    };
    Ok(inside(Inside::Value(pending, dotted), stack))
}

/// A word of the language as an operand.
fn step_reserved(
    alloc: Global,
    pending: Pending,
    text: &[u8],
    stack: Stack<Frame>,
) -> Result<State, Stop>
    ensures { Gives (spec.step_reserved pending text.now stack) result }
{
    if text == b"true".as_slice() {
        operand(alloc, pending, Expr::Bool(true), stack)
    } else if text == b"false".as_slice() {
        operand(alloc, pending, Expr::Bool(false), stack)
    } else if text == b"null".as_slice() {
        operand(alloc, pending, Expr::Null, stack)
    } else if text == b"undefined".as_slice() {
        operand(alloc, pending, Expr::Null, stack)
    } else {
        Err(Stop::Refused(Wanted::Token))
    }
}

fn step_operand_name(
    alloc: Global,
    pending: Pending,
    text: Text,
    at: usize,
    stack: Stack<Frame>,
) -> Result<State, Stop>
    ensures { Gives (spec.step_operand_name pending text at stack) result }
{
    if is_reserved(text.as_bytes()) {
        step_reserved(alloc, pending, text.as_bytes(), stack)
    } else {
        operand(alloc, pending, Expr::Name(Name { text, at }), stack)
    }
}

fn open_parens(alloc: Global, pending: Pending, mut stack: Stack<Frame>) -> Result<State, Stop>
    ensures { Gives (spec.open_parens pending stack) result }
{
    if !has_room_after(pending.depth, pending.nots) {
        return Err(Stop::Refused(Wanted::Shallower));
    }
    let inner = fresh(
        alloc,
        allows_node(&pending),
        pending.depth + pending.nots + 1,
    );
    stack.push(Frame::Parens(pending))?;
    Ok(inside(Inside::Operand(inner), stack))
}

fn after_not(pending: Pending) -> Pending
    requires { pending.depth + pending.nots < 200 }
    ensures { result ≡ spec.after_not pending }
{
    let Pending {
        place,
        depth,
        ors,
        ands,
        left,
        sums,
        nots,
    } = pending;
    Pending {
        place,
        depth,
        ors,
        ands,
        left,
        sums,
        nots: nots + 1,
    }
}

fn open_not(pending: Pending, stack: Stack<Frame>) -> Result<State, Stop>
    ensures { Gives (spec.open_not pending stack) result }
{
    if has_room_after(pending.depth, pending.nots) {
        Ok(inside(Inside::Operand(after_not(pending)), stack))
    } else {
        Err(Stop::Refused(Wanted::Shallower))
    }
}

fn open_array(pending: Pending, stack: Stack<Frame>) -> Result<State, Stop>
    ensures { Gives (spec.open_array pending stack) result }
{
    if !has_room_after(pending.depth, pending.nots) {
        Err(Stop::Refused(Wanted::Shallower))
    } else if allows_node(&pending) {
        Ok(inside(Inside::ArrayStart(pending), stack))
    } else {
        Err(Stop::Refused(Wanted::Value))
    }
}

fn push_operand(pending: Pending, mut stack: Stack<Frame>) -> Result<State, Stop>
    ensures { Gives (Ok (spec.in_element (t.Start pending.depth) (f.Operand pending ∷ stack))) result }
{
    let depth = pending.depth;
    stack.push(Frame::Operand(pending))?;
    Ok(in_element(InElement::Start(depth), stack))
}

fn open_element(pending: Pending, stack: Stack<Frame>) -> Result<State, Stop>
    ensures { Gives (spec.open_element pending stack) result }
{
    if !has_room_after(pending.depth, pending.nots) {
        Err(Stop::Refused(Wanted::Shallower))
    } else if allows_node(&pending) {
        push_operand(pending, stack)
    } else {
        Err(Stop::Refused(Wanted::Value))
    }
}

fn step_operand_sign(
    alloc: Global,
    pending: Pending,
    stack: Stack<Frame>,
    word: &Word,
) -> Result<State, Stop>
    ensures { Gives (spec.step_operand_sign pending stack word.now) result }
{
    if is_sign(word, Punctuator::OpenParen) {
        open_parens(alloc, pending, stack)
    } else if is_sign(word, Punctuator::Not) {
        open_not(pending, stack)
    } else if is_sign(word, Punctuator::OpenBracket) {
        open_array(pending, stack)
    } else if is_sign(word, Punctuator::Less) {
        open_element(pending, stack)
    } else {
        Err(Stop::Refused(refusal(has_room_after(pending.depth, pending.nots), word)))
    }
}

/// The step where an operand comes next.
pub(crate) fn step_operand(
    alloc: Global,
    pending: Pending,
    stack: Stack<Frame>,
    word: Word,
) -> Result<State, Stop>
    ensures { Gives (spec.step_operand pending stack word) result }
{
    match word {
        Word::Name { text, at } => step_operand_name(alloc, pending, text, at, stack),
        Word::Number(value) => operand(alloc, pending, Expr::Int(value), stack),
        Word::Text(text) => operand(alloc, pending, Expr::Text(text), stack),
        Word::JsxText(_) => Err(Stop::Refused(Wanted::Token)),
        Word::Sign(sign) => step_operand_sign(alloc, pending, stack, &Word::Sign(sign)),
    }
}

fn open_item(
    alloc: Global,
    pending: Pending,
    items: Items<Node>,
    mut stack: Stack<Frame>,
    word: Word,
) -> Result<State, Stop>
    ensures { Gives (spec.step_operand (spec.fresh true (pending.depth + 1)) (f.Item pending items ∷ stack) word) result }
{
    let inner = fresh(alloc, true, deeper(pending.depth)?);
    stack.push(Frame::Item(pending, items))?;
    step_operand(alloc, inner, stack, word)
}

/// The step after `[`, or after a comma.
fn step_item(
    alloc: Global,
    pending: Pending,
    items: Items<Node>,
    stack: Stack<Frame>,
    word: Word,
) -> Result<State, Stop>
    ensures { Gives (spec.step_item pending items stack word) result }
{
    if is_sign(&word, Punctuator::CloseBracket) {
        Ok(inside(Inside::Node(pending, Node::Array(items)), stack))
    } else {
        open_item(alloc, pending, items, stack, word)
    }
}

fn step_equal(
    alloc: Global,
    pending: Pending,
    last: Dotted,
    negated: bool,
    stack: Stack<Frame>,
) -> Result<State, Stop>
    ensures { Gives (spec.step_equal pending.left (spec.after_equal pending last negated) stack) result }
{
    match &pending.left {
        Some(_) => Err(Stop::Refused(Wanted::Token)),
        None => {
            let next = after_equal(alloc, pending, last, negated)?;
            Ok(inside(Inside::Operand(next), stack))
        }
    }
}

fn step_question(
    alloc: Global,
    pending: Pending,
    last: Dotted,
    mut stack: Stack<Frame>,
) -> Result<State, Stop>
    ensures { Gives (spec.step_question pending last stack) result }
{
    if !has_room(pending.depth) {
        return Err(Stop::Refused(Wanted::Shallower));
    }
    let place = pending.place;
    let depth = pending.depth;
    let test = value_of(alloc, pending, last)?;
    stack.push(Frame::Yes(Conditional { place, depth, test }))?;
    Ok(inside(Inside::Operand(fresh(alloc, place, depth + 1)), stack))
}

fn is_map(name: &Text) -> bool
    ensures { result ≡ bytes_eq name.now (codes "map") }
{
    name.as_bytes() == b"map".as_slice()
}

fn is_map_after(_front: &[Text], last: &Text) -> bool
    ensures { result ≡ is_some (spec.names_before_map (_front.now ++ last.now ∷ [])) }
{
    is_map(last)
}

fn ends_in_map(names: &[Text]) -> bool
    ensures { result ≡ is_some (spec.names_before_map names.now) }
{
    match names.split_last() {
        Some((last, front)) => is_map_after(front, last),
        None => false,
    }
}

/// Takes a last `map` away, if there is one.
fn take_map(names: &mut Items<Text>) -> bool
    ensures { MatchBool result (spec.names_before_map names.old ≡ Some names.new) ((spec.names_before_map names.old ≡ None) × (names.new ≡ names.old)) }
{
    if !ends_in_map(names.as_slice()) {
        return false;
    }
    names.pop();
    true
}

fn refuse_list(
    _pending: Pending,
    _list: Expr,
    _stack: Stack<Frame>,
    wanted: Wanted,
) -> Result<State, Stop>
    ensures { result ≡ Err (Refused wanted) }
{
    Err(Stop::Refused(wanted))
}

/// A `(` after `.map`.
fn step_call(pending: Pending, list: Expr, stack: Stack<Frame>) -> Result<State, Stop>
    ensures { Gives (spec.step_call pending list stack) result }
{
    if !has_room(pending.depth) {
        refuse_list(pending, list, stack, Wanted::Shallower)
    } else if allows_node(&pending) && has_room_within(pending.depth) {
        Ok(in_map(InMap::Open(Mapping { pending, list }), stack))
    } else {
        refuse_list(pending, list, stack, Wanted::Value)
    }
}

/// The step after a value that ends there.
fn end_value(
    alloc: Global,
    pending: Pending,
    last: Dotted,
    stack: Stack<Frame>,
    word: &Word,
) -> Result<State, Stop>
    ensures { Gives (spec.finish (ValuePart (spec.value_of pending last)) stack word.now) result }
{
    let value = value_of(alloc, pending, last)?;
    finish(alloc, Part::Value(value), stack, word)
}

/// A `(` after a value.
fn step_open(
    alloc: Global,
    pending: Pending,
    mut last: Dotted,
    stack: Stack<Frame>,
    word: &Word,
) -> Result<State, Stop>
    ensures { Gives (spec.step_open pending last (spec.names_before_map last.names) stack word.now) result }
{
    if take_map(&mut last.names) {
        let list = members(alloc, last)?;
        step_call(pending, list, stack)
    } else {
        end_value(alloc, pending, last, stack, word)
    }
}

fn step_plus(
    alloc: Global,
    pending: Pending,
    last: Dotted,
    stack: Stack<Frame>,
) -> Result<State, Stop>
    ensures { Gives (Ok (spec.inside (i.Operand (spec.after_plus pending last)) stack)) result }
{
    let next = after_plus(alloc, pending, last)?;
    Ok(inside(Inside::Operand(next), stack))
}

fn step_and(
    alloc: Global,
    pending: Pending,
    last: Dotted,
    stack: Stack<Frame>,
) -> Result<State, Stop>
    ensures { Gives (Ok (spec.inside (i.Operand (spec.after_and pending last)) stack)) result }
{
    let next = after_and(alloc, pending, last)?;
    Ok(inside(Inside::Operand(next), stack))
}

fn step_or(
    alloc: Global,
    pending: Pending,
    last: Dotted,
    stack: Stack<Frame>,
) -> Result<State, Stop>
    ensures { Gives (Ok (spec.inside (i.Operand (spec.after_or pending last)) stack)) result }
{
    let next = after_or(alloc, pending, last)?;
    Ok(inside(Inside::Operand(next), stack))
}

/// The step after a value, at a sign that ends a sum and a comparison.
fn step_chain(
    alloc: Global,
    pending: Pending,
    last: Dotted,
    stack: Stack<Frame>,
    word: &Word,
) -> Result<State, Stop>
    ensures { Gives (spec.step_chain pending last stack word.now) result }
{
    if is_sign(word, Punctuator::AndAnd) {
        step_and(alloc, pending, last, stack)
    } else if is_sign(word, Punctuator::OrOr) {
        step_or(alloc, pending, last, stack)
    } else if is_sign(word, Punctuator::Question) {
        step_question(alloc, pending, last, stack)
    } else {
        step_end(alloc, pending, last, stack, word)
    }
}

/// The step after a value.
fn step_value(
    alloc: Global,
    pending: Pending,
    last: Dotted,
    stack: Stack<Frame>,
    word: &Word,
) -> Result<State, Stop>
    ensures { Gives (spec.step_value pending last stack word.now) result }
{
    if is_sign(word, Punctuator::Dot) {
        Ok(inside(Inside::Dot(pending, last), stack))
    } else if is_sign(word, Punctuator::Plus) {
        step_plus(alloc, pending, last, stack)
    } else if is_sign(word, Punctuator::StrictEqual) {
        step_equal(alloc, pending, last, false, stack)
    } else if is_sign(word, Punctuator::StrictNotEqual) {
        step_equal(alloc, pending, last, true, stack)
    } else {
        step_chain(alloc, pending, last, stack, word)
    }
}

/// The step after a value where it doesn't go on, unless as the list of a map.
fn step_end(
    alloc: Global,
    pending: Pending,
    last: Dotted,
    stack: Stack<Frame>,
    word: &Word,
) -> Result<State, Stop>
    ensures { Gives (spec.step_end pending last stack word.now) result }
{
    if is_sign(word, Punctuator::OpenParen) {
        step_open(alloc, pending, last, stack, word)
    } else {
        end_value(alloc, pending, last, stack, word)
    }
}

fn with_name(mut dotted: Dotted, name: Name) -> Result<Dotted, AllocError>
    ensures { IfOk result (λ d. d ≡ spec.with_name dotted name) }
{
    dotted.names.push(name.text)?;
    Ok(dotted)
}

/// The step after a dot.
fn step_dot(pending: Pending, last: Dotted, stack: Stack<Frame>, word: Word) -> Result<State, Stop>
    ensures { Gives (spec.step_dot pending last stack word) result }
{
    let name = any_name(has_room_after(pending.depth, pending.nots), word)?;
    let last = with_name(last, name)?;
    Ok(inside(Inside::Value(pending, last), stack))
}

fn step_node(
    alloc: Global,
    pending: Pending,
    node: Node,
    stack: Stack<Frame>,
    word: &Word,
) -> Result<State, Stop>
    ensures { Gives (spec.finish (spec.node_part pending (trees.other node)) stack word.now) result }
{
    let part = node_of(alloc, pending, node)?;
    finish(alloc, part, stack, word)
}

pub(crate) fn step_inside(
    alloc: Global,
    place: Inside,
    stack: Stack<Frame>,
    word: Word,
) -> Result<State, Stop>
    ensures { Gives (spec.step_inside place stack word) result }
{
    match place {
        Inside::Operand(pending) => step_operand(alloc, pending, stack, word),
        Inside::Value(pending, last) => step_value(alloc, pending, last, stack, &word),
        Inside::Node(pending, node) => step_node(alloc, pending, node, stack, &word),
        Inside::Dot(pending, last) => step_dot(pending, last, stack, word),
        Inside::ArrayStart(pending) => step_item(alloc, pending, Items::new(alloc), stack, word),
        Inside::ArrayNext(pending, items) => step_item(alloc, pending, items, stack, word),
    }
}
