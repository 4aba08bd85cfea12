//! The printing of files.

ghost use Rattle.std.specs.Prelude.{◌≡◌, ◌++◌, IfOk, OnOk};
ghost use Rattle.std.specs.List.{flat_map};
ghost use Rattle.std.specs.String.{string_bytes};
ghost use Rattle.jsx_print.specs.Spelling.{spelled};
ghost use Rattle.jsx_print.specs.Printing as spec;

use crate::node::push_node;
use crate::stmt::push_stmts;
use crate::words::{push_name, push_sign};
use fizz_text::{OutOfMemory, Text};
use jsx_lex::Punctuator;
use jsx_syntax::{Component, File, Name, Node};
use std::alloc::Global;

/// The text of a file: exactly the bytes of its words, by the definition. The law `printed_texts` says that lexing and
/// parsing it gives the file back, places aside, where the file is that of a text whose nesting is at most 199.
///
/// Takes time and memory in proportion to the text. The recursion goes down the tree's nesting, at most 200 levels of the
/// source in a file that was parsed; children, operands, statements and components are gone through by loops.
pub fn print(alloc: Global, file: &File) -> Result<Text, OutOfMemory>
    ensures { IfOk result (λ text. text ≡ spelled (spec.file_words file.now)) }
{
    let mut out = String::new(alloc);
    push_components(alloc, &mut out, file.components.as_slice())?;
    text_of(out)
}

fn text_of(out: String) -> Result<Text, OutOfMemory>
    ensures { IfOk result (λ text. text ≡ string_bytes out) }
{
    Ok(Text::from_bytes(out.into_bytes()).unwrap())
}

fn push_components(
    alloc: Global,
    out: &mut String,
    components: &[Component],
) -> Result<(), OutOfMemory>
    ensures { OnOk result (string_bytes out.new
        ≡ string_bytes out.old ++ spelled (flat_map spec.component_words components.now)) }
{
    for component in components {
        push_component(alloc, out, component)?;
    }
    Ok(())
}

fn push_component(alloc: Global, out: &mut String, component: &Component) -> Result<(), OutOfMemory>
    ensures { OnOk result (string_bytes out.new
        ≡ string_bytes out.old ++ spelled (spec.component_words component.now)) }
{
    push_head(out, &component.name, component.properties.as_slice())?;
    push_sign(out, Punctuator::OpenBrace)?;
    push_stmts(alloc, out, component.stmts.as_slice())?;
    push_return(alloc, out, &component.result)?;
    push_sign(out, Punctuator::CloseBrace)
}

fn push_return(alloc: Global, out: &mut String, node: &Node) -> Result<(), OutOfMemory>
    ensures { OnOk result (string_bytes out.new
        ≡ string_bytes out.old ++ spelled (spec.return_words node.now)) }
{
    push_name(out, "return")?;
    push_node(alloc, out, node)?;
    push_sign(out, Punctuator::Semicolon)
}

/// Appends a component up to its body.
fn push_head(out: &mut String, name: &Name, properties: &[Name]) -> Result<(), OutOfMemory>
    ensures { OnOk result (string_bytes out.new
        ≡ string_bytes out.old ++ spelled (spec.head_words name.now properties.now)) }
{
    push_name(out, "function")?;
    push_name(out, name.text.as_str())?;
    push_sign(out, Punctuator::OpenParen)?;
    push_properties(out, properties)?;
    push_sign(out, Punctuator::CloseParen)
}

/// Appends the names of properties in braces, or nothing where there are none.
fn push_properties(out: &mut String, names: &[Name]) -> Result<(), OutOfMemory>
    ensures { OnOk result (string_bytes out.new
        ≡ string_bytes out.old ++ spelled (spec.properties_words names.now)) }
{
    let Some((first, others)) = names.split_first() else {
        return Ok(());
    };
    push_sign(out, Punctuator::OpenBrace)?;
    push_name(out, first.text.as_str())?;
    push_later_names(out, others)?;
    push_sign(out, Punctuator::CloseBrace)
}

fn push_later_names(out: &mut String, names: &[Name]) -> Result<(), OutOfMemory>
    ensures { OnOk result (string_bytes out.new
        ≡ string_bytes out.old ++ spelled (spec.later_names names.now)) }
{
    for name in names {
        push_sign(out, Punctuator::Comma)?;
        push_name(out, name.text.as_str())?;
    }
    Ok(())
}
