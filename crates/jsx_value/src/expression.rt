//! The values of expressions.

ghost use Rattle.std.specs.Prelude.{◌≡◌, map, fold, not, if◌then◌else◌, IfOk};
ghost use Rattle.jsx_value.specs.Values.{member_of, sum_of};
ghost use Rattle.jsx_value.specs.Expressions.{value_of, chain_of, and_of, or_of, in_scope, value_named};

use crate::scope::Scope;
use crate::val::Val;
use fizz_text::{OutOfMemory, Text};
use jsx_syntax::Expr;
use std::alloc::Global;

/// The value of an expression. A name that isn't bound is Null. The recursion goes down the expression, which nests at
/// most 200 levels of the source.
#[cycle(eval)]
pub fn eval<'a>(alloc: Global, expr: &'a Expr, scope: &Scope<'a>) -> Result<Val<'a>, OutOfMemory>
    ensures { IfOk result (λ value. value ≡ value_of expr.now scope.now) }
{
    match expr {
        Expr::Null => Ok(Val::null()),
        Expr::Bool(truth) => Ok(Val::bool(*truth)),
        Expr::Int(number) => Ok(Val::int(*number)),
        Expr::Text(text) => Ok(Val::written(text)),
        Expr::Name(name) => named(scope, &name.text),
        Expr::Member { of, names } => {
            let value = eval(alloc, of.get(), scope)?;
            Ok(member_at(value, names.as_slice()))
        }
        Expr::Not(operand) => Ok(Val::bool(!eval(alloc, operand.get(), scope)?.is_true())),
        Expr::Sum(terms) => eval_sum(alloc, terms.as_slice(), scope),
        Expr::Equal {
            left,
            right,
            negated,
        } => {
            let left = eval(alloc, left.get(), scope)?;
            let right = eval(alloc, right.get(), scope)?;
            Ok(Val::bool(equality(left.is_same(&right), *negated)))
        }
        Expr::And(parts) => eval_and(alloc, parts.as_slice(), scope),
        Expr::Or(parts) => eval_or(alloc, parts.as_slice(), scope),
        Expr::Choose { test, yes, no } => {
            if eval(alloc, test.get(), scope)?.is_true() {
                eval(alloc, yes.get(), scope)
            } else {
                eval(alloc, no.get(), scope)
            }
        }
    }
}

fn equality(same: bool, negated: bool) -> bool
    ensures { result ≡ (if negated then not same else same) }
{
    if negated { !same } else { same }
}

pub(crate) fn named<'a>(scope: &Scope<'a>, name: &Text) -> Result<Val<'a>, OutOfMemory>
    ensures { IfOk result (λ value. value ≡ value_named name.now scope.now) }
{
    match scope.get(name) {
        Some(value) => value.share(),
        None => Ok(Val::null()),
    }
}

fn member_at<'a>(value: Val<'a>, names: &[Text]) -> Val<'a>
    ensures { result ≡ fold member_of value.entry names.now }
{
    let mut value = value;
    for name in names {
        value = value.member(name);
    }
    value
}

#[cycle(eval)]
fn eval_sum<'a>(alloc: Global, terms: &'a [Expr], scope: &Scope<'a>) -> Result<Val<'a>, OutOfMemory>
    ensures { IfOk result (λ value. value ≡ chain_of sum_of (in_scope scope.now (map value_of terms.now))) }
{
    let Some((first, others)) = terms.split_first() else {
        return Ok(Val::null());
    };
    let mut sum = eval(alloc, first, scope)?;
    for term in others {
        let term = eval(alloc, term, scope)?;
        sum = sum.sum(alloc, &term)?;
    }
    Ok(sum)
}

#[cycle(eval)]
pub(crate) fn eval_and<'a>(
    alloc: Global,
    parts: &'a [Expr],
    scope: &Scope<'a>,
) -> Result<Val<'a>, OutOfMemory>
    ensures { IfOk result (λ value. value ≡ chain_of and_of (in_scope scope.now (map value_of parts.now))) }
{
    let Some((first, others)) = parts.split_first() else {
        return Ok(Val::null());
    };
    let mut value = eval(alloc, first, scope)?;
    for part in others {
        if value.is_true() {
            value = eval(alloc, part, scope)?;
        }
    }
    Ok(value)
}

#[cycle(eval)]
pub(crate) fn eval_or<'a>(
    alloc: Global,
    parts: &'a [Expr],
    scope: &Scope<'a>,
) -> Result<Val<'a>, OutOfMemory>
    ensures { IfOk result (λ value. value ≡ chain_of or_of (in_scope scope.now (map value_of parts.now))) }
{
    let Some((first, others)) = parts.split_first() else {
        return Ok(Val::null());
    };
    let mut value = eval(alloc, first, scope)?;
    for part in others {
        if !value.is_true() {
            value = eval(alloc, part, scope)?;
        }
    }
    Ok(value)
}
