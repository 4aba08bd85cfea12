//! The steps within an element.

ghost use Rattle.std.specs.Prelude.{◌≡◌, ◌+◌, ◌<◌, [], Ok};
ghost use Rattle.jsx_syntax.specs.Steps as spec;
ghost use Rattle.jsx_syntax.specs.Steps.{Gives};
ghost use Rattle.jsx_syntax.specs.Trees as trees;
ghost use Rattle.jsx_syntax.specs.Words as words;
ghost use Rattle.jsx_syntax.specs.declared.state.InElement.TheVariants as t;
ghost use Rattle.html_names.specs.Elements.{void_flag};

use crate::builders::{element, is_component_name, is_suspense};
use crate::closing::{put_back, with_attribute, with_kid};
use crate::expr::Expr;
use crate::fault::{Stop, Wanted};
use crate::matching::{any_name, has_room_within, is_sign, refusal};
use crate::name::{Entry, Name};
use crate::node::Node;
use crate::operand::{deeper_twice, fresh, step_operand};
use crate::places::{in_element, inside};
use crate::stack::Stack;
use crate::state::{Frame, Host, InElement, Inside, Opened, State, Tag};
use fizz_text::Text;
use jsx_lex::{Punctuator, Word};
use sqlite_items::Items;
use std::alloc::Global;

/// The step after a whole element.
fn deliver(node: Node, mut stack: Stack<Frame>) -> Result<State, Stop>
    ensures { Gives (spec.deliver node stack) result }
{
    match stack.pop() {
        Some(frame) => deliver_to(host_of(frame), node, stack),
        None => Err(Stop::Refused(Wanted::Token)),
    }
}

fn host_of(frame: Frame) -> Host
    ensures { result ≡ spec.host_of frame }
{
    match frame {
        Frame::Operand(pending) => Host::Operand(pending),
        Frame::Kid(opened) => Host::Kid(opened),
        Frame::No(conditional, yes) => Host::Other(Frame::No(conditional, yes)),
        Frame::Use(draft, name) => Host::Other(Frame::Use(draft, name)),
        Frame::Bind(draft, name) => Host::Other(Frame::Bind(draft, name)),
        Frame::If(draft) => Host::Other(Frame::If(draft)),
        Frame::Throw(draft, test) => Host::Other(Frame::Throw(draft, test)),
        Frame::Return(draft) => Host::Other(Frame::Return(draft)),
        Frame::Parens(pending) => Host::Other(Frame::Parens(pending)),
        Frame::Yes(conditional) => Host::Other(Frame::Yes(conditional)),
        Frame::Item(pending, items) => Host::Other(Frame::Item(pending, items)),
        Frame::MapBody(mapping, item, number) => Host::Other(Frame::MapBody(mapping, item, number)),
        Frame::Attribute(tag, name) => Host::Other(Frame::Attribute(tag, name)),
        Frame::Child(opened) => Host::Other(Frame::Child(opened)),
    }
}

fn deliver_kid(opened: Opened, node: Node, stack: Stack<Frame>) -> Result<State, Stop>
    ensures { Gives (Ok (spec.in_element (t.Children (spec.with_kid opened node)) stack)) result }
{
    let opened = with_kid(opened, node)?;
    Ok(in_element(InElement::Children(opened), stack))
}

fn deliver_to(host: Host, node: Node, stack: Stack<Frame>) -> Result<State, Stop>
    ensures { Gives (spec.deliver_at host node stack) result }
{
    match host {
        Host::Operand(pending) => Ok(inside(Inside::Node(pending, node), stack)),
        Host::Kid(opened) => deliver_kid(opened, node, stack),
        Host::Other(frame) => put_back(frame, stack),
    }
}

/// Whether an element may have children.
fn takes_children(name: &[u8]) -> bool
    ensures { result ≡ words.takes_children name.now }
{
    if is_component_name(name) {
        is_suspense(name)
    } else {
        is_not_void(name)
    }
}

fn is_not_void(name: &[u8]) -> bool
    ensures { result ≡ words.is_not_void (void_flag name.now) }
{
    match html_names::element(name) {
        Some(element) => !element.is_void,
        None => true,
    }
}

fn holds_children(opened: &Opened) -> bool
    ensures { result ≡ spec.holds_children opened.now.name }
{
    match &opened.name {
        Some(name) => takes_children(name.text.as_bytes()),
        None => true,
    }
}

fn opened_by(alloc: Global, tag: Tag) -> Opened
    ensures { result ≡ spec.opened_by tag }
{
    Opened {
        depth: tag.depth,
        name: Some(tag.name),
        props: tag.props,
        kids: Items::new(alloc),
    }
}

/// The step after an element without closing tag.
fn deliver_tag(alloc: Global, tag: Tag, stack: Stack<Frame>) -> Result<State, Stop>
    ensures { Gives (spec.deliver (trees.element_of tag.name tag.props []) stack) result }
{
    deliver(element(tag.name, tag.props, Items::new(alloc)), stack)
}

fn step_attribute_name(tag: Tag, stack: Stack<Frame>, word: Word) -> Result<State, Stop>
    ensures { Gives (spec.step_attribute_name tag stack word) result }
{
    let name = any_name(has_room_within(tag.depth), word)?;
    Ok(in_element(InElement::Equals(tag, name), stack))
}

/// The step where an attribute or the end of the tag comes next.
fn step_attributes(alloc: Global, tag: Tag, stack: Stack<Frame>, word: Word) -> Result<State, Stop>
    ensures { Gives (spec.step_attributes tag stack word) result }
{
    if is_sign(&word, Punctuator::SlashGreater) {
        deliver_tag(alloc, tag, stack)
    } else if is_sign(&word, Punctuator::Greater) {
        Ok(in_element(InElement::Children(opened_by(alloc, tag)), stack))
    } else {
        step_attribute_name(tag, stack, word)
    }
}

/// Whether the attribute's braces hold a node.
fn is_fallback(tag: &Tag, name: &Name) -> bool
    ensures { result ≡ spec.fallback_place tag.now name.now }
{
    is_suspense(tag.name.text.as_bytes()) && name.text.as_bytes() == b"fallback".as_slice()
}

fn open_attribute(
    alloc: Global,
    tag: Tag,
    name: Name,
    mut stack: Stack<Frame>,
    word: &Word,
) -> Result<State, Stop>
    ensures { Gives (spec.open_attribute tag name stack word.now) result }
{
    let room = has_room_within(tag.depth);
    if !(is_sign(word, Punctuator::OpenBrace) && room) {
        return Err(Stop::Refused(refusal(room, word)));
    }
    let inner = fresh(alloc, is_fallback(&tag, &name), tag.depth + 1 + 1);
    stack.push(Frame::Attribute(tag, name))?;
    Ok(inside(Inside::Operand(inner), stack))
}

/// The step after an attribute's `=`.
fn step_attribute_value(
    alloc: Global,
    tag: Tag,
    name: Name,
    stack: Stack<Frame>,
    word: Word,
) -> Result<State, Stop>
    ensures { Gives (spec.step_attribute_value tag name stack word) result }
{
    match word {
        Word::Text(text) => {
            let tag = with_attribute(tag, name, Node::Value(Expr::Text(text)))?;
            Ok(in_element(InElement::Attributes(tag), stack))
        }
        Word::Sign(sign) => open_attribute(alloc, tag, name, stack, &Word::Sign(sign)),
        Word::Name { .. } => Err(Stop::Refused(Wanted::Token)),
        Word::Number(_) => Err(Stop::Refused(Wanted::Token)),
        Word::JsxText(_) => Err(Stop::Refused(Wanted::Token)),
    }
}

/// The step after an attribute without a value.
fn after_flag(
    alloc: Global,
    tag: Tag,
    name: Name,
    stack: Stack<Frame>,
    word: Word,
) -> Result<State, Stop>
    ensures { Gives (spec.after_flag tag name stack word) result }
{
    let tag = with_attribute(tag, name, Node::Value(Expr::Bool(true)))?;
    step_attributes(alloc, tag, stack, word)
}

fn step_equals(
    alloc: Global,
    tag: Tag,
    name: Name,
    stack: Stack<Frame>,
    word: Word,
) -> Result<State, Stop>
    ensures { Gives (spec.step_equals tag name stack word) result }
{
    if is_sign(&word, Punctuator::Assign) {
        Ok(in_element(InElement::Value(tag, name), stack))
    } else {
        after_flag(alloc, tag, name, stack, word)
    }
}

fn step_text(opened: Opened, text: Text, stack: Stack<Frame>) -> Result<State, Stop>
    ensures { Gives (spec.step_text opened text stack) result }
{
    if text.as_bytes().is_empty() {
        return Ok(in_element(InElement::Children(opened), stack));
    }
    if !holds_children(&opened) {
        return Err(Stop::Refused(Wanted::NoChildren));
    }
    let opened = with_kid(opened, Node::Value(Expr::Text(text)))?;
    Ok(in_element(InElement::Children(opened), stack))
}

fn open_kid(opened: Opened, mut stack: Stack<Frame>) -> Result<State, Stop>
    requires { opened.depth < 199 }
    ensures { Gives (spec.open_kid opened stack) result }
{
    if !holds_children(&opened) {
        return Err(Stop::Refused(Wanted::NoChildren));
    }
    let depth = opened.depth + 1;
    stack.push(Frame::Kid(opened))?;
    Ok(in_element(InElement::Start(depth), stack))
}

fn step_children_sign(opened: Opened, stack: Stack<Frame>, word: &Word) -> Result<State, Stop>
    ensures { Gives (spec.step_children_sign opened stack word.now) result }
{
    let room = has_room_within(opened.depth);
    if is_sign(word, Punctuator::LessSlash) {
        Ok(in_element(InElement::CloseName(opened), stack))
    } else if is_sign(word, Punctuator::OpenBrace) && room {
        Ok(in_element(InElement::Braces(opened), stack))
    } else if is_sign(word, Punctuator::Less) && room {
        open_kid(opened, stack)
    } else {
        Err(Stop::Refused(refusal(room, word)))
    }
}

fn step_children(opened: Opened, stack: Stack<Frame>, word: Word) -> Result<State, Stop>
    ensures { Gives (spec.step_children opened stack word) result }
{
    match word {
        Word::JsxText(text) => step_text(opened, text, stack),
        Word::Sign(sign) => step_children_sign(opened, stack, &Word::Sign(sign)),
        Word::Name { .. } => Err(Stop::Refused(Wanted::Token)),
        Word::Number(_) => Err(Stop::Refused(Wanted::Token)),
        Word::Text(_) => Err(Stop::Refused(Wanted::Token)),
    }
}

/// Why what begins a child is refused in an element without children.
fn child_refusal(alloc: Global, depth: usize, word: Word) -> Result<State, Stop>
    ensures { Gives (spec.refused_child (depth + 1 + 1) word) result }
{
    let inner = fresh(alloc, true, deeper_twice(depth)?);
    match step_operand(alloc, inner, Stack::new(alloc), word) {
        Ok(_) => Err(Stop::Refused(Wanted::NoChildren)),
        Err(Stop::Refused(wanted)) => Err(Stop::Refused(wanted)),
        Err(Stop::OutOfMemory) => Err(Stop::OutOfMemory),
    }
}

fn open_child(
    alloc: Global,
    opened: Opened,
    mut stack: Stack<Frame>,
    word: Word,
) -> Result<State, Stop>
    ensures { Gives (spec.open_child opened stack word) result }
{
    let inner = fresh(alloc, true, deeper_twice(opened.depth)?);
    stack.push(Frame::Child(opened))?;
    step_operand(alloc, inner, stack, word)
}

fn step_braces(
    alloc: Global,
    opened: Opened,
    stack: Stack<Frame>,
    word: Word,
) -> Result<State, Stop>
    ensures { Gives (spec.step_braces opened stack word) result }
{
    if is_sign(&word, Punctuator::CloseBrace) {
        Ok(in_element(InElement::Children(opened), stack))
    } else if holds_children(&opened) {
        open_child(alloc, opened, stack, word)
    } else {
        child_refusal(alloc, opened.depth, word)
    }
}

fn is_same_name(name: &Option<Name>, text: &[u8]) -> bool
    ensures { result ≡ spec.same_name name.now text.now }
{
    match name {
        Some(name) => text == name.text.as_bytes(),
        None => false,
    }
}

/// A whole element.
fn whole(opened: Opened) -> Node
    ensures { result ≡ spec.element_node opened }
{
    let Opened {
        name,
        props,
        kids,
        ..
    } = opened;
    match name {
        Some(name) => element(name, props, kids),
        None => Node::Fragment(kids),
    }
}

fn step_fragment_end(opened: Opened, stack: Stack<Frame>, word: &Word) -> Result<State, Stop>
    ensures { Gives (spec.step_fragment_end opened stack word.now) result }
{
    if is_sign(word, Punctuator::Greater) && opened.name.is_none() {
        deliver(whole(opened), stack)
    } else {
        Err(Stop::Refused(refusal(has_room_within(opened.depth), word)))
    }
}

fn step_close_name(opened: Opened, stack: Stack<Frame>, word: Word) -> Result<State, Stop>
    ensures { Gives (spec.step_close_name opened stack word) result }
{
    match word {
        Word::Name { text, .. } => {
            if is_same_name(&opened.name, text.as_bytes()) {
                Ok(in_element(InElement::CloseEnd(opened), stack))
            } else {
                Err(Stop::Refused(Wanted::CloseName))
            }
        }
        Word::Sign(sign) => step_fragment_end(opened, stack, &Word::Sign(sign)),
        Word::Number(_) => Err(Stop::Refused(Wanted::Token)),
        Word::Text(_) => Err(Stop::Refused(Wanted::Token)),
        Word::JsxText(_) => Err(Stop::Refused(Wanted::Token)),
    }
}

fn step_close_end(opened: Opened, stack: Stack<Frame>, word: &Word) -> Result<State, Stop>
    ensures { Gives (spec.step_close_end opened stack word.now) result }
{
    if is_sign(word, Punctuator::Greater) {
        deliver(whole(opened), stack)
    } else {
        Err(Stop::Refused(refusal(has_room_within(opened.depth), word)))
    }
}

fn empty_fragment(alloc: Global, depth: usize) -> Opened
    ensures { result ≡ spec.empty_fragment depth }
{
    Opened {
        depth,
        name: None,
        props: Items::new(alloc),
        kids: Items::new(alloc),
    }
}

fn step_tag_name(
    alloc: Global,
    depth: usize,
    stack: Stack<Frame>,
    word: Word,
) -> Result<State, Stop>
    ensures { Gives (spec.step_tag_name depth stack word) result }
{
    let name = any_name(has_room_within(depth), word)?;
    let tag = Tag {
        depth,
        name,
        props: Items::new(alloc),
    };
    Ok(in_element(InElement::Attributes(tag), stack))
}

/// The step after `<`.
fn step_start(alloc: Global, depth: usize, stack: Stack<Frame>, word: Word) -> Result<State, Stop>
    ensures { Gives (spec.step_start_tag depth stack word) result }
{
    if is_sign(&word, Punctuator::Greater) {
        Ok(in_element(InElement::Children(empty_fragment(alloc, depth)), stack))
    } else {
        step_tag_name(alloc, depth, stack, word)
    }
}

pub(crate) fn step_in_element(
    alloc: Global,
    place: InElement,
    stack: Stack<Frame>,
    word: Word,
) -> Result<State, Stop>
    ensures { Gives (spec.step_in_element place stack word) result }
{
    match place {
        InElement::Start(depth) => step_start(alloc, depth, stack, word),
        InElement::Attributes(tag) => step_attributes(alloc, tag, stack, word),
        InElement::Equals(tag, name) => step_equals(alloc, tag, name, stack, word),
        InElement::Value(tag, name) => step_attribute_value(alloc, tag, name, stack, word),
        InElement::Children(opened) => step_children(opened, stack, word),
        InElement::Braces(opened) => step_braces(alloc, opened, stack, word),
        InElement::CloseName(opened) => step_close_name(opened, stack, word),
        InElement::CloseEnd(opened) => step_close_end(opened, stack, &word),
    }
}
