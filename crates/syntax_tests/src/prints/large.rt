//! Files of full size: many siblings, long chains, and deep nests.

use jsx_lex::lex;
use jsx_print::print;
use jsx_syntax::parse;
use std::alloc::{AllocError, Global};
use std::test::Fail;

/// A head, what is repeated, how often, and a tail.
type Repeated = (&'static str, &'static str, usize, &'static str);

#[test]
fn many_siblings_print(rt: HostRuntime) -> Result<(), Fail> {
    let text = ("function App() { return <p>", "<b/>", 20_000, "</p>; }");
    let wanted = ("function App (){return <p >", "<b />", 20_000, "</p >;}");
    assert!(&rt; is_repeated_as(rt.alloc(), &text, &wanted)?);
    Ok(())
}

#[test]
fn many_items_print(rt: HostRuntime) -> Result<(), Fail> {
    let text = ("function App() { return [", "a,", 20_000, "]; }");
    let wanted = ("function App (){return [a ", ",a ", 19_999, "];}");
    let text = repeated(rt.alloc(), &text)?;
    let wanted = repeated(rt.alloc(), &wanted)?;
    assert!(&rt; prints_as(rt.alloc(), text.as_str(), wanted.as_str()));
    Ok(())
}

#[test]
fn a_long_chain_prints(rt: HostRuntime) -> Result<(), Fail> {
    let text = ("function App() { return a", " + a", 20_000, "; }");
    let wanted = ("function App (){return a ", "+a ", 20_000, ";}");
    assert!(&rt; is_repeated_as(rt.alloc(), &text, &wanted)?);
    Ok(())
}

#[test]
fn many_attributes_print(rt: HostRuntime) -> Result<(), Fail> {
    let text = ("function App() { return <p", " a=\"b\"", 20_000, "/>; }");
    let wanted = ("function App (){return <p ", "a = {\"b\"}", 20_000, "/>;}");
    assert!(&rt; is_repeated_as(rt.alloc(), &text, &wanted)?);
    Ok(())
}

#[test]
fn many_components_print(rt: HostRuntime) -> Result<(), Fail> {
    let text = ("", "function A() { return 1; }", 8_000, "");
    let wanted = ("", "function A (){return 1 ;}", 8_000, "");
    assert!(&rt; is_repeated_as(rt.alloc(), &text, &wanted)?);
    Ok(())
}

fn is_repeated_as(alloc: Global, text: &Repeated, wanted: &Repeated) -> Result<bool, AllocError> {
    let text = repeated(alloc, text)?;
    let wanted = repeated(alloc, wanted)?;
    Ok(is_printed_as(alloc, text.as_str(), wanted.as_str()))
}

/// What stands before the middle, how often, the middle, and what stands after it; and the same of what is printed.
type Nest = (Nested, Nested);

type Nested = (&'static str, usize, &'static str, &'static str);

/// 199 are open in the middle of each: the braces of the component, and these.
static NESTS: [Nest; 5] = [
    (("!", 198, "c+c", ""), ("! ", 198, "c +c ", "")),
    (("[", 198, "c+c", "]"), ("[", 198, "c +c ", "]")),
    (("a+(", 198, "c+c", ")"), ("a +(", 198, "c +c ", ")")),
    (("<b>", 198, "c", "</b>"), ("<b >", 198, "{\"c\"}", "</b >")),
    (("a ? b : ", 198, "c", ""), ("a ?b :", 198, "c ", "")),
];

#[test]
fn nests_print(rt: HostRuntime) -> Result<(), Fail> {
    for row in &NESTS {
        let text = nested(rt.alloc(), "function App() { return ", &row.0, "; }")?;
        let wanted = nested(rt.alloc(), "function App (){return ", &row.1, ";}")?;
        assert!(&rt; is_printed_as(rt.alloc(), text.as_str(), wanted.as_str()));
    }
    Ok(())
}

fn repeated(alloc: Global, row: &Repeated) -> Result<String, AllocError> {
    let (head, piece, times, tail) = row;
    let pieces = piece.repeat(alloc, *times)?;
    format!(in alloc; "{head}{pieces}{tail}")
}

fn nested(alloc: Global, head: &str, row: &Nested, tail: &str) -> Result<String, AllocError> {
    let (front, times, middle, back) = row;
    let front = front.repeat(alloc, *times)?;
    let back = back.repeat(alloc, *times)?;
    format!(in alloc; "{head}{front}{middle}{back}{tail}")
}

/// The text is read, its tree is printed so, and what is printed is read again and printed so.
fn is_printed_as(alloc: Global, text: &str, wanted: &str) -> bool {
    prints_as(alloc, text, wanted) && prints_as(alloc, wanted, wanted)
}

fn prints_as(alloc: Global, text: &str, wanted: &str) -> bool {
    match lex(alloc, text.as_bytes()) {
        Ok(tokens) => match parse(alloc, &tokens, text.as_bytes()) {
            Ok(file) => match print(alloc, &file) {
                Ok(printed) => printed.as_str() == wanted,
                Err(_) => false,
            },
            Err(_) => false,
        },
        Err(_) => false,
    }
}
