//! The printing of expressions.

ghost use Rattle.std.specs.Prelude.{◌≡◌, ◌∷◌, ◌++◌, [], map, OnOk};
ghost use Rattle.std.specs.String.{string_bytes};
ghost use Rattle.jsx_lex.specs.declared.word.Punctuator.TheVariants as p;
ghost use Rattle.jsx_syntax.specs.Grammar.{equal_sign};
ghost use Rattle.jsx_print.specs.Spelling.{name_bytes, spelled, word_bytes};
ghost use Rattle.jsx_print.specs.Printing as spec;

use crate::words::{push_name, push_number, push_sign, push_string};
use fizz_text::{OutOfMemory, Text};
use jsx_lex::Punctuator;
use jsx_syntax::Expr;
use std::alloc::Global;

// How tight an expression is, from the loosest on.
pub(crate) const EXPRESSION: u8 = 0;

pub(crate) const DISJUNCTION: u8 = 1;

pub(crate) const CONJUNCTION: u8 = 2;

pub(crate) const EQUALITY: u8 = 3;

const SUM: u8 = 4;

const UNARY: u8 = 5;

pub(crate) const MEMBER: u8 = 6;

const PRIMARY: u8 = 7;

/// How tight an expression is.
fn tightness(expr: &Expr) -> u8
    ensures { result ≡ (spec.printed expr.now).tightness }
{
    match expr {
        Expr::Null | Expr::Bool(_) | Expr::Int(_) | Expr::Text(_) | Expr::Name(_) => PRIMARY,
        Expr::Member { .. } => MEMBER,
        Expr::Not(_) => UNARY,
        Expr::Sum(_) => SUM,
        Expr::Equal { .. } => EQUALITY,
        Expr::And(_) => CONJUNCTION,
        Expr::Or(_) => DISJUNCTION,
        Expr::Choose { .. } => EXPRESSION,
    }
}

/// Appends an expression. It goes down with the expression's nesting, at most 200 in a file that was parsed.
#[cycle(exprs)]
pub(crate) fn push_expr(alloc: Global, out: &mut String, expr: &Expr) -> Result<(), OutOfMemory>
    ensures { OnOk result (string_bytes out.new
        ≡ string_bytes out.old ++ spelled (spec.printed expr.now).words) }
{
    match expr {
        Expr::Null => push_name(out, "null"),
        Expr::Bool(truth) => push_name(out, truth_str(*truth)),
        Expr::Int(number) => push_number(alloc, out, *number),
        Expr::Text(text) => push_string(alloc, out, text),
        Expr::Name(name) => push_name(out, name.text.as_str()),
        Expr::Member { of, names } => push_member(alloc, out, of.get(), names.as_slice()),
        Expr::Not(operand) => push_negation(alloc, out, operand.get()),
        Expr::Sum(operands) => push_chain(alloc, out, Punctuator::Plus, UNARY, operands.as_slice()),
        Expr::Equal {
            left,
            right,
            negated,
        } => push_equality(alloc, out, left.get(), right.get(), *negated),
        Expr::And(operands) => {
            push_chain(
                alloc,
                out,
                Punctuator::AndAnd,
                EQUALITY,
                operands.as_slice(),
            )
        }
        Expr::Or(operands) => {
            push_chain(
                alloc,
                out,
                Punctuator::OrOr,
                CONJUNCTION,
                operands.as_slice(),
            )
        }
        Expr::Choose { test, yes, no } => {
            push_choice(alloc, out, test.get(), yes.get(), no.get())
        }
    }
}

fn truth_str(truth: bool) -> &'static str
    ensures { name_bytes result.now ≡ word_bytes (spec.truth_word truth) }
{
    if truth { "true" } else { "false" }
}

/// Appends an operand, in parentheses where it isn't at least so tight.
#[cycle(exprs)]
pub(crate) fn push_operand(
    alloc: Global,
    out: &mut String,
    least: u8,
    expr: &Expr,
) -> Result<(), OutOfMemory>
    ensures { OnOk result (string_bytes out.new
        ≡ string_bytes out.old ++ spelled (spec.operand least (spec.printed expr.now))) }
{
    if least <= tightness(expr) {
        return push_expr(alloc, out, expr);
    }
    push_sign(out, Punctuator::OpenParen)?;
    push_expr(alloc, out, expr)?;
    push_sign(out, Punctuator::CloseParen)
}

#[cycle(exprs)]
fn push_member(
    alloc: Global,
    out: &mut String,
    of: &Expr,
    names: &[Text],
) -> Result<(), OutOfMemory>
    ensures { OnOk result (string_bytes out.new
        ≡ string_bytes out.old ++ spelled (spec.member_words (spec.printed of.now) names.now)) }
{
    push_operand(alloc, out, PRIMARY, of)?;
    push_names(out, names)
}

#[cycle(exprs)]
fn push_negation(alloc: Global, out: &mut String, operand: &Expr) -> Result<(), OutOfMemory>
    ensures { OnOk result (string_bytes out.new ≡ string_bytes out.old
        ++ spelled (spec.sign p.Not ∷ spec.operand spec.unary (spec.printed operand.now))) }
{
    push_sign(out, Punctuator::Not)?;
    push_operand(alloc, out, UNARY, operand)
}

#[cycle(exprs)]
fn push_equality(
    alloc: Global,
    out: &mut String,
    left: &Expr,
    right: &Expr,
    negated: bool,
) -> Result<(), OutOfMemory>
    ensures { OnOk result (string_bytes out.new
        ≡ string_bytes out.old
        ++ spelled (spec.equal_words (spec.printed left.now) (spec.printed right.now) negated)) }
{
    push_operand(alloc, out, SUM, left)?;
    push_sign(out, equal_sign(negated))?;
    push_operand(alloc, out, SUM, right)
}

fn equal_sign(negated: bool) -> Punctuator
    ensures { result ≡ equal_sign negated }
{
    if negated {
        Punctuator::StrictNotEqual
    } else {
        Punctuator::StrictEqual
    }
}

#[cycle(exprs)]
fn push_choice(
    alloc: Global,
    out: &mut String,
    test: &Expr,
    yes: &Expr,
    no: &Expr,
) -> Result<(), OutOfMemory>
    ensures { OnOk result (string_bytes out.new
        ≡ string_bytes out.old ++ spelled (spec.choice_words (spec.printed test.now)
        (spec.printed yes.now) (spec.printed no.now))) }
{
    push_operand(alloc, out, DISJUNCTION, test)?;
    push_sign(out, Punctuator::Question)?;
    push_expr(alloc, out, yes)?;
    push_sign(out, Punctuator::Colon)?;
    push_expr(alloc, out, no)
}

/// Appends operands with a sign between each two.
#[cycle(exprs)]
pub(crate) fn push_chain(
    alloc: Global,
    out: &mut String,
    sign: Punctuator,
    least: u8,
    operands: &[Expr],
) -> Result<(), OutOfMemory>
    ensures { OnOk result (string_bytes out.new
        ≡ string_bytes out.old ++ spelled (spec.chain sign least (map spec.printed operands.now))) }
{
    let Some((first, others)) = operands.split_first() else {
        return Ok(());
    };
    push_operand(alloc, out, least, first)?;
    for operand in others {
        push_sign(out, sign)?;
        push_operand(alloc, out, least, operand)?;
    }
    Ok(())
}

/// Appends the names of members, each after a dot.
fn push_names(out: &mut String, names: &[Text]) -> Result<(), OutOfMemory>
    ensures { OnOk result (string_bytes out.new
        ≡ string_bytes out.old ++ spelled (spec.names_words names.now)) }
{
    for name in names {
        push_sign(out, Punctuator::Dot)?;
        push_name(out, name.as_str())?;
    }
    Ok(())
}
