//! The printing of statements.

ghost use Rattle.std.specs.Prelude.{◌≡◌, ◌++◌, OnOk};
ghost use Rattle.std.specs.List.{flat_map};
ghost use Rattle.std.specs.String.{string_bytes};
ghost use Rattle.jsx_syntax.specs.declared.file.Stmt.TheVariants as s;
ghost use Rattle.jsx_print.specs.Spelling.{spelled};
ghost use Rattle.jsx_print.specs.Printing as spec;

use crate::expression::push_expr;
use crate::words::{push_name, push_sign};
use fizz_text::OutOfMemory;
use jsx_lex::Punctuator;
use jsx_syntax::{Expr, Name, Stmt};
use std::alloc::Global;

/// Appends statements.
pub(crate) fn push_stmts(alloc: Global, out: &mut String, stmts: &[Stmt]) -> Result<(), OutOfMemory>
    ensures { OnOk result (string_bytes out.new
        ≡ string_bytes out.old ++ spelled (flat_map spec.stmt_words stmts.now)) }
{
    for stmt in stmts {
        push_stmt(alloc, out, stmt)?;
    }
    Ok(())
}

fn push_stmt(alloc: Global, out: &mut String, stmt: &Stmt) -> Result<(), OutOfMemory>
    ensures { OnOk result (string_bytes out.new
        ≡ string_bytes out.old ++ spelled (spec.stmt_words stmt.now)) }
{
    match stmt {
        Stmt::Fetch { name, resource } => push_fetch(alloc, out, name, resource),
        Stmt::Bind { name, value } => push_bind(alloc, out, name, value),
        Stmt::Throw { test, digest } => push_throw(alloc, out, test, digest),
    }
}

fn push_fetch(
    alloc: Global,
    out: &mut String,
    name: &Name,
    resource: &Expr,
) -> Result<(), OutOfMemory>
    ensures { OnOk result (string_bytes out.new
        ≡ string_bytes out.old ++ spelled (spec.stmt_words (s.Fetch name.now resource.now))) }
{
    push_const(out, name)?;
    push_name(out, "use")?;
    push_sign(out, Punctuator::OpenParen)?;
    push_expr(alloc, out, resource)?;
    push_sign(out, Punctuator::CloseParen)?;
    push_sign(out, Punctuator::Semicolon)
}

/// Appends a constant up to its value.
fn push_const(out: &mut String, name: &Name) -> Result<(), OutOfMemory>
    ensures { OnOk result (string_bytes out.new
        ≡ string_bytes out.old ++ spelled (spec.const_words name.now)) }
{
    push_name(out, "const")?;
    push_name(out, name.text.as_str())?;
    push_sign(out, Punctuator::Assign)
}

fn push_bind(alloc: Global, out: &mut String, name: &Name, value: &Expr) -> Result<(), OutOfMemory>
    ensures { OnOk result (string_bytes out.new
        ≡ string_bytes out.old ++ spelled (spec.stmt_words (s.Bind name.now value.now))) }
{
    push_const(out, name)?;
    push_expr(alloc, out, value)?;
    push_sign(out, Punctuator::Semicolon)
}

fn push_throw(
    alloc: Global,
    out: &mut String,
    test: &Expr,
    digest: &Expr,
) -> Result<(), OutOfMemory>
    ensures { OnOk result (string_bytes out.new
        ≡ string_bytes out.old ++ spelled (spec.stmt_words (s.Throw test.now digest.now))) }
{
    push_name(out, "if")?;
    push_sign(out, Punctuator::OpenParen)?;
    push_expr(alloc, out, test)?;
    push_sign(out, Punctuator::CloseParen)?;
    push_name(out, "throw")?;
    push_expr(alloc, out, digest)?;
    push_sign(out, Punctuator::Semicolon)
}
