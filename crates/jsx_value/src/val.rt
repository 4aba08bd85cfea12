//! Values while a page is rendered. A value of a settlement and a text of the program are borrowed, and a text that was
//! computed is shared, so that a copy copies no text.

ghost use Rattle.std.specs.Prelude.{◌≡◌, ◌++◌, ◌+ℤ◌, pos, length, string_bytes, IfOk};
ghost use Rattle.std.specs.Option.{option_copied};
ghost use Rattle.std.specs.Fmt.{signed_decimal};
ghost use Rattle.settle_script.specs.Settlements.{entry_named};
ghost use Rattle.std.specs.Ordering.{int_eq};
ghost use Rattle.settle_script.specs.declared.value.Value.{out-Value};
ghost use Rattle.jsx_value.specs.Seen.{layer_of};
ghost use Rattle.jsx_value.specs.Values.{is_true, text_of, member_of, sum_of, is_same, layer_truth, layer_text, layer_sum, layer_same, text_or_null, whole_or_null};

use fizz_text::{OutOfMemory, Text};
use settle_script::{Entry, Value};
use std::alloc::Global;
use std::marker::Model;
use std::sync::Arc;

/// A text that was computed.
#[derive(Drop)]
pub(crate) struct Shared {
    text: Arc<Text>,
}

impl Model for Shared {
    ghost use Rattle.std.specs.Prelude.{List, ℕ};
    ghost use Rattle.std.specs.Arc.{arc_value};

    ghost Value = { List ℕ };

    ghost view = { λ s. arc_value s.text };
}

impl Shared {
    fn new(alloc: Global, text: Text) -> Result<Shared, OutOfMemory>
        ensures { IfOk result (λ shared. shared ≡ text) }
    {
        Ok(Shared {
            text: Arc::new(alloc, text)?,
        })
    }

    fn get(&self) -> &Text
        ensures { result.now ≡ self.now }
    {
        &self.text
    }

    fn share(&self) -> Result<Shared, OutOfMemory>
        ensures { IfOk result (λ shared. shared ≡ self.now) }
    {
        Ok(Shared {
            text: Arc::try_clone(&self.text)?,
        })
    }
}

/// Where a value comes from.
#[derive(Drop)]
pub(crate) enum Kind<'a> {
    /// From a settlement.
    Given(&'a Value),
    /// From the program's text.
    Written(&'a Text),
    Null,
    Bool(bool),
    Int(i64),
    Made(Shared),
}

/// A value while a page is rendered. Contracts see it as the value.
#[derive(Drop)]
pub struct Val<'a> {
    kind: Kind<'a>,
}

impl<'a> Model for Val<'a> {
    ghost use Rattle.settle_script.specs.declared.value.Value.{Value as Whole};
    ghost use Rattle.settle_script.specs.contracts.value.Value as whole;

    ghost Value = { Whole };

    ghost coded = { whole.the_row.coded };

    ghost use Rattle.jsx_value.specs.Seen.{seen};

    ghost view = { λ x. seen x.kind };
}

/// One level of a value, wherever its text comes from.
#[derive(Clone, Copy)]
pub(crate) enum Face<'s, 'a> {
    Null,
    Bool(bool),
    Int(i64),
    Text(&'s Text),
    List(&'a [Value]),
    Record(&'a [Entry<Value>]),
}

fn face_of<'a>(value: &'a Value) -> Face<'a, 'a>
    ensures { layer_of result ≡ out-Value value.now }
{
    match value {
        Value::Null => Face::Null,
        Value::Bool(truth) => Face::Bool(*truth),
        Value::Int(number) => Face::Int(*number),
        Value::Text(text) => Face::Text(text),
        Value::List(items) => Face::List(items.as_slice()),
        Value::Record(members) => Face::Record(members.as_slice()),
    }
}

impl<'a> Val<'a> {
    pub fn null() -> Val<'a>
        ensures { result ≡ Value.Null }
    {
        Val { kind: Kind::Null }
    }

    pub fn bool(truth: bool) -> Val<'a>
        ensures { result ≡ Value.Bool truth }
    {
        Val {
            kind: Kind::Bool(truth),
        }
    }

    pub fn int(number: i64) -> Val<'a>
        ensures { result ≡ Value.Int number }
    {
        Val {
            kind: Kind::Int(number),
        }
    }

    /// A text of the program.
    pub fn written(text: &'a Text) -> Val<'a>
        ensures { result ≡ Value.Text text.now }
    {
        Val {
            kind: Kind::Written(text),
        }
    }

    /// A value of a settlement.
    pub fn given(value: &'a Value) -> Val<'a>
        ensures { result ≡ value.now }
    {
        Val {
            kind: Kind::Given(value),
        }
    }

    pub(crate) fn face(&self) -> Face<'_, 'a>
        ensures { layer_of result ≡ out-Value self.now }
    {
        match &self.kind {
            Kind::Given(value) => face_of(value),
            Kind::Written(text) => Face::Text(text),
            Kind::Null => Face::Null,
            Kind::Bool(truth) => Face::Bool(*truth),
            Kind::Int(number) => Face::Int(*number),
            Kind::Made(text) => Face::Text(text.get()),
        }
    }

    /// An equal value. It copies no text.
    pub fn share(&self) -> Result<Val<'a>, OutOfMemory>
        ensures { IfOk result (λ shared. shared ≡ self.now) }
    {
        let kind = match &self.kind {
            Kind::Given(value) => Kind::Given(value),
            Kind::Written(text) => Kind::Written(text),
            Kind::Null => Kind::Null,
            Kind::Bool(truth) => Kind::Bool(*truth),
            Kind::Int(number) => Kind::Int(*number),
            Kind::Made(text) => Kind::Made(text.share()?),
        };
        Ok(Val { kind })
    }

    /// Whether the value counts as true.
    pub fn is_true(&self) -> bool
        ensures { result ≡ is_true self.now }
    {
        match self.face() {
            Face::Null => false,
            Face::Bool(truth) => truth,
            Face::Int(number) => number != 0,
            Face::Text(text) => !text.as_bytes().is_empty(),
            Face::List(_) | Face::Record(_) => true,
        }
    }

    /// The text of the value.
    pub fn text(&self, alloc: Global) -> Result<Text, OutOfMemory>
        ensures { IfOk result (λ text. text ≡ text_of self.now) }
    {
        match self.face() {
            Face::Text(text) => text.copy(alloc),
            Face::Int(number) => decimal(alloc, number),
            _ => Ok(Text::fixed("")),
        }
    }

    /// `self.name`
    pub fn member(&self, name: &Text) -> Val<'a>
        ensures { result ≡ member_of self.now name.now }
    {
        match self.face() {
            Face::List(items) if name.as_bytes() == b"length".as_slice() => length_of(items),
            Face::Record(members) => match member_named(members, name) {
                Some(value) => Val::given(value),
                None => Val::null(),
            },
            _ => Val::null(),
        }
    }

    /// `self + other`
    pub fn sum(&self, alloc: Global, other: &Val<'a>) -> Result<Val<'a>, OutOfMemory>
        ensures { IfOk result (λ sum. sum ≡ sum_of self.now other.now) }
    {
        match (self.face(), other.face()) {
            (Face::Int(a), Face::Int(b)) => Ok(sum_of_numbers(a, b)),
            (Face::Int(a), Face::Text(b)) => joined(alloc, decimal(alloc, a)?.as_str(), b.as_str()),
            (Face::Text(a), Face::Int(b)) => joined(alloc, a.as_str(), decimal(alloc, b)?.as_str()),
            (Face::Text(a), Face::Text(b)) => joined(alloc, a.as_str(), b.as_str()),
            _ => Ok(Val::null()),
        }
    }

    /// `self === other`
    pub fn is_same(&self, other: &Val<'a>) -> bool
        ensures { result ≡ is_same self.now other.now }
    {
        match (self.face(), other.face()) {
            (Face::Null, Face::Null) => true,
            (Face::Bool(a), Face::Bool(b)) => a == b,
            (Face::Int(a), Face::Int(b)) => a == b,
            (Face::Text(a), Face::Text(b)) => a.as_bytes() == b.as_bytes(),
            _ => false,
        }
    }
}

/// The most bytes of a text that `+` makes.
const LONGEST_SUM: usize = 65_536;

pub(crate) fn decimal(alloc: Global, number: i64) -> Result<Text, OutOfMemory>
    ensures { IfOk result (λ text. text ≡ signed_decimal number) }
{
    text_of_string(format!(in alloc; "{number}")?)
}

fn text_of_string(text: String) -> Result<Text, OutOfMemory>
    ensures { IfOk result (λ t. t ≡ string_bytes text) }
{
    Ok(Text::from_bytes(text.into_bytes()).unwrap())
}

fn length_of<'a>(items: &[Value]) -> Val<'a>
    ensures { result ≡ whole_or_null (pos (length items.now)) }
{
    match i64::try_from(items.len()) {
        Ok(length) => Val::int(length),
        Err(_) => Val::null(),
    }
}

fn member_named<'a>(members: &'a [Entry<Value>], name: &Text) -> Option<&'a Value>
    ensures { option_copied result ≡ entry_named name.now members.now }
{
    for member in members {
        if name.as_bytes() == member.name.as_bytes() {
            return Some(&member.value);
        }
    }
    None
}

fn sum_of_numbers<'a>(a: i64, b: i64) -> Val<'a>
    ensures { result ≡ whole_or_null (a +ℤ b) }
{
    match a.checked_add(b) {
        Some(sum) => Val::int(sum),
        None => Val::null(),
    }
}

fn joined<'a>(alloc: Global, a: &str, b: &str) -> Result<Val<'a>, OutOfMemory>
    ensures { IfOk result (λ joined. joined ≡ text_or_null (a.now ++ b.now)) }
{
    if a.len().saturating_add(b.len()) > LONGEST_SUM {
        return Ok(Val::null());
    }
    let mut text = String::from_str(alloc, a)?;
    text.push_str(b)?;
    let shared = Shared::new(alloc, text_of_string(text)?)?;
    Ok(Val {
        kind: Kind::Made(shared),
    })
}
