//! Component files that are read, and refused ones with the place and what would have been accepted.

use jsx_lex::lex;
use jsx_syntax::{Expr, File, Node, SyntaxFault, Wanted, parse};
use std::alloc::{AllocError, Global};
use std::process::Abort;
use std::test::Fail;

/// A refused text: the first refused token stands before the mark `^`, which isn't part of it.
static REFUSED: [(&str, Wanted); 85] = [
    ("^const", Wanted::Token),
    ("function ^(", Wanted::Token),
    ("function ^use() {}", Wanted::Token),
    ("function App^;", Wanted::Token),
    ("function App()^", Wanted::Token),
    ("function App({a ^b}) {}", Wanted::Token),
    ("function App({a,^}) {}", Wanted::Token),
    ("function App({^,}) {}", Wanted::Token),
    ("function App() {^}", Wanted::Token),
    ("function App() { return 1 ^}", Wanted::Token),
    ("function App() { return 1; ^return }", Wanted::Token),
    ("function App() { return ^; }", Wanted::Token),
    ("function App() { return ^if; }", Wanted::Token),
    (
        "function App() { const ^true = 1; return 1; }",
        Wanted::Token,
    ),
    ("function App() { const a ^1; }", Wanted::Token),
    ("function App() { const a = use ^a; }", Wanted::Token),
    ("function App() { const a = use(1)^+ 2; }", Wanted::Token),
    ("function App() { if (a) ^return; }", Wanted::Token),
    ("function App() { return a +^; }", Wanted::Token),
    ("function App() { return a + ^<p/>; }", Wanted::Value),
    ("function App() { return a + ^[]; }", Wanted::Value),
    ("function App() { return !^<p/>; }", Wanted::Value),
    ("function App() { return a === ^<p/>; }", Wanted::Value),
    ("function App() { return 1 === 2 ^=== 3; }", Wanted::Token),
    (
        "function App() { const a = ^<p/>; return a; }",
        Wanted::Value,
    ),
    ("function App() { const a = ^[]; return a; }", Wanted::Value),
    (
        "function App() { const a = b.map^((x) => x); return a; }",
        Wanted::Value,
    ),
    (
        "function App() { const a = b.c^(1); return a; }",
        Wanted::Token,
    ),
    (
        "function App() { return a + b.map^((x) => x); }",
        Wanted::Value,
    ),
    (
        "function App() { return !b.map^((x) => x); }",
        Wanted::Value,
    ),
    ("function App() { return (a.map)^(x); }", Wanted::Token),
    ("function App() { return a.map(^x); }", Wanted::Token),
    ("function App() { return a.map((^)); }", Wanted::Token),
    (
        "function App() { return a.map((x, y^, z)); }",
        Wanted::Token,
    ),
    ("function App() { return a.map((x)^; }", Wanted::Token),
    ("function App() { return a.map((x) => x^; }", Wanted::Token),
    (
        "function App() { return a.map((x) => x)^.length; }",
        Wanted::Token,
    ),
    ("function App() { return <p/> ^&& a; }", Wanted::Token),
    ("function App() { return <p/> ^? a : b; }", Wanted::Token),
    ("function App() { return (<p/>)^.a; }", Wanted::Token),
    ("function App() { return a && <p/> ^|| b; }", Wanted::Token),
    ("function App() { return a ? b^; }", Wanted::Token),
    ("function App() { return (a^; }", Wanted::Token),
    ("function App() { return a.^(; }", Wanted::Token),
    ("function App() { return a ^b; }", Wanted::Token),
    ("function App() { return a ^!b; }", Wanted::Token),
    ("function App() { return [^, a]; }", Wanted::Token),
    ("function App() { return [a ^b]; }", Wanted::Token),
    ("function App() { return [a,^,]; }", Wanted::Token),
    ("function App() { return <^/>; }", Wanted::Token),
    ("function App() { return <p ^\"a\"/>; }", Wanted::Token),
    ("function App() { return <p a=^b/>; }", Wanted::Token),
    ("function App() { return <p a={^}/>; }", Wanted::Token),
    ("function App() { return <p a={^<b/>}/>; }", Wanted::Value),
    (
        "function App() { return <p fallback={^<b/>}/>; }",
        Wanted::Value,
    ),
    (
        "function App() { return <Suspense a={^<b/>}/>; }",
        Wanted::Value,
    ),
    (
        "function App() { return <p a={b.map^((x) => x)}/>; }",
        Wanted::Value,
    ),
    ("function App() { return <p></^q>; }", Wanted::CloseName),
    ("function App() { return <></^p>; }", Wanted::CloseName),
    ("function App() { return <p>x</^>; }", Wanted::Token),
    (
        "function App() { return <p><b></^p></p>; }",
        Wanted::CloseName,
    ),
    (
        "function App() { return <Suspense></^Suspens>; }",
        Wanted::CloseName,
    ),
    ("function App() { return <p></^P>; }", Wanted::CloseName),
    ("function App() { return <a-b></^a>; }", Wanted::CloseName),
    ("function App() { return <p>{a}</^x>; }", Wanted::CloseName),
    (
        "function App() { return <p><br/></^br>; }",
        Wanted::CloseName,
    ),
    ("function App() { return <br>^x</br>; }", Wanted::NoChildren),
    (
        "function App() { return <br>{^x}</br>; }",
        Wanted::NoChildren,
    ),
    (
        "function App() { return <br>{^<p/>}</br>; }",
        Wanted::NoChildren,
    ),
    (
        "function App() { return <br>{^[]}</br>; }",
        Wanted::NoChildren,
    ),
    ("function App() { return <br>{^)}</br>; }", Wanted::Token),
    (
        "function App() { return <br>^<p/></br>; }",
        Wanted::NoChildren,
    ),
    (
        "function App() { return <br>{}^x</br>; }",
        Wanted::NoChildren,
    ),
    (
        "function App() { return <Leaf>^x</Leaf>; }",
        Wanted::NoChildren,
    ),
    (
        "function App() { return <Leaf>{^1}</Leaf>; }",
        Wanted::NoChildren,
    ),
    (
        "function App() { return <hr>{^!a}</hr>; }",
        Wanted::NoChildren,
    ),
    (
        "function App() { return <wbr>{^\"a\"}</wbr>; }",
        Wanted::NoChildren,
    ),
    ("function App() { return <p>{a ^b}</p>; }", Wanted::Token),
    ("function App() { return <p>{^.}</p>; }", Wanted::Token),
    ("function App() { return a ? ^: b; }", Wanted::Token),
    ("function App() { return null.^1; }", Wanted::Token),
    ("function App() { return a; } ^x", Wanted::Token),
    ("function App() { ^throw; }", Wanted::Token),
    ("function App() { if ^a; }", Wanted::Token),
    ("function App() { return a ^= b; }", Wanted::Token),
];

#[test]
fn refused_texts(rt: HostRuntime) -> Result<(), Fail> {
    let report = differences(rt.alloc(), &REFUSED)?;
    assert!(&rt; report.is_empty(), "{report}");
    Ok(())
}

static READ: [&str; 14] = [
    "",
    "function App() { return <p id=\"a\">{}hi</p>; }",
    "function App({a, b}) { return !a + (b) === 1 && c || <br/>; }",
    "function App() { return a.b.map((x, i) => [x, <></>,]); }",
    "function App() { const v = use(\"r\"); if (v === 0) throw \"z\"; return v ? <a/> : null; }",
    "function App() { return <br>\n  {}\n</br>; }",
    "function App() { return <Suspense fallback={<i>wait</i>}><ul>{g.items.map((n) => <Leaf n={n}/>)}</ul></Suspense>; }",
    "function App() { return (c ? a : b).map((x) => x); }",
    "function App() { return a || b && <p/>; }",
    "function App() { return (<p/>); }",
    "function App() { return a.return.map; }",
    "function App() { return <p if=\"x\" hidden/>; }",
    "function App() { return a ? b : c ? <p/> : [1]; } function B() { return 1; }",
    "function App() { return <p>{(a ? b : <i/>)}</p>; }",
];

#[test]
fn files_are_read(rt: HostRuntime) -> Result<(), Fail> {
    let report = unread(rt.alloc(), &READ)?;
    assert!(&rt; report.is_empty(), "{report}");
    Ok(())
}

/// What is repeated before and after a middle, how often, and what the middle's mark is refused with.
type Nest = (
    &'static str,
    usize,
    &'static str,
    &'static str,
    Option<Wanted>,
);

/// One is open around each of these: the braces of the component.
static NESTS: [Nest; 30] = [
    ("(", 199, "a", ")", None),
    ("(", 199, "^(a)", ")", Some(Wanted::Shallower)),
    ("(", 199, "^[]", ")", Some(Wanted::Shallower)),
    ("(", 199, "^<p/>", ")", Some(Wanted::Shallower)),
    ("(", 199, "^!a", ")", Some(Wanted::Shallower)),
    ("(", 199, "a ^? b : c", ")", Some(Wanted::Shallower)),
    ("(", 199, "a ^(b)", ")", Some(Wanted::Shallower)),
    ("(", 199, "a ^{}", ")", Some(Wanted::Shallower)),
    ("(", 199, "a.^(", ")", Some(Wanted::Shallower)),
    ("(", 199, "a^", "", Some(Wanted::Token)),
    ("(", 198, "<p>^{a}</p>", ")", Some(Wanted::Shallower)),
    ("(", 197, "<p>{a}</p>", ")", None),
    ("(", 199, "xs.map^((x) => x)", ")", Some(Wanted::Shallower)),
    ("(", 198, "xs.map^((x) => x)", ")", Some(Wanted::Value)),
    ("(", 197, "xs.map((x) => x)", ")", None),
    ("(", 198, "a ? b : c ^(d)", ")", Some(Wanted::Token)),
    ("(", 198, "a ? b : c ^? d : e", ")", Some(Wanted::Shallower)),
    ("(", 197, "a ? b : <p/> ^? c : d", ")", Some(Wanted::Token)),
    (
        "(",
        198,
        "a ? b : xs.map^((x) => x)",
        ")",
        Some(Wanted::Shallower),
    ),
    ("(", 198, "!a ^(b)", ")", Some(Wanted::Token)),
    ("!", 199, "a + !b", "", None),
    ("!", 199, "^!a", "", Some(Wanted::Shallower)),
    ("[", 199, "a, b", "]", None),
    ("[", 199, "a, ^[]", "]", Some(Wanted::Shallower)),
    ("a ? ", 199, "b", " : c", None),
    ("a ? ", 199, "b ^? c : d", " : e", Some(Wanted::Shallower)),
    ("a ? b : ", 199, "c ^? d : e", "", Some(Wanted::Shallower)),
    ("<p>", 199, "a", "</p>", None),
    ("<p>", 199, "^<p/>", "</p>", Some(Wanted::Shallower)),
    ("<p>", 199, "^{a}", "</p>", Some(Wanted::Shallower)),
];

#[test]
fn nested_texts(rt: HostRuntime) -> Result<(), Fail> {
    let report = unlike(rt.alloc(), &NESTS)?;
    assert!(&rt; report.is_empty(), "{report}");
    Ok(())
}

/// Large texts that are read: a head, what is repeated, how often, and a tail.
static LARGE: [(&str, &str, usize, &str); 5] = [
    ("function App() { return a", " + a", 60_000, "; }"),
    ("function App() { return a", ".b", 60_000, "; }"),
    ("function App() { return <p>", "<br/>", 30_000, "</p>; }"),
    ("function App() { return <p", " a=\"b\"", 30_000, "/>; }"),
    ("", "function A() { return 1; }", 8_000, ""),
];

#[test]
fn large_texts(rt: HostRuntime) -> Result<(), Fail> {
    let report = unread_large(rt.alloc(), &LARGE)?;
    assert!(&rt; report.is_empty(), "{report}");
    Ok(())
}

/// A list of values in 197 parentheses, as often as 256 KB allow.
#[test]
fn many_nests(rt: HostRuntime) -> Result<(), Fail> {
    let report = unread_nests(rt.alloc(), 640)?;
    assert!(&rt; report.is_empty(), "{report}");
    Ok(())
}

/// Values with their outermost operator and its operands.
static VALUES: [(&str, &str); 12] = [
    ("a || b && c", "or name and"),
    ("a && b || c", "or and name"),
    ("a || b || c", "or name name name"),
    ("a && b === c", "and name equal"),
    ("a === b && c", "and equal name"),
    ("a + b + c", "sum name name name"),
    ("(a + b) + c", "sum sum name"),
    ("a + (b + c)", "sum name sum"),
    ("!a + b", "sum not name"),
    ("a + b === c", "equal"),
    ("a || b ? c : d", "choose"),
    ("!a.b", "not"),
];

#[test]
fn values_are_chains(rt: HostRuntime) -> Result<(), Fail> {
    let report = misread(rt.alloc(), &VALUES)?;
    assert!(&rt; report.is_empty(), "{report}");
    Ok(())
}

/// A line for each value that is read in another way.
fn misread(alloc: Global, rows: &[(&str, &str)]) -> Result<String, AllocError> {
    let mut report = String::new(alloc);
    for (value, outline) in rows {
        push_misread(alloc, &mut report, value, outline)?;
    }
    Ok(report)
}

fn push_misread(
    alloc: Global,
    report: &mut String,
    value: &str,
    outline: &str,
) -> Result<(), AllocError> {
    let text = format!(in alloc; "function App() {{ return {value}; }}")?;
    let found = found_outline(alloc, text.as_str())?;
    if found.as_str() == outline {
        return Ok(());
    }
    let line = format!(in alloc; "{found}: {value}\n")?;
    report.push_str(line.as_str())
}

fn found_outline(alloc: Global, text: &str) -> Result<String, AllocError> {
    let mut out = String::new(alloc);
    if let Ok(tokens) = lex(alloc, text.as_bytes()) {
        if let Ok(file) = parse(alloc, &tokens, text.as_bytes()) {
            push_file(&mut out, &file)?;
        }
    }
    Ok(out)
}

fn push_file(out: &mut String, file: &File) -> Result<(), AllocError> {
    for component in file.components.as_slice() {
        if let Node::Value(value) = &component.result {
            push_outline(out, value)?;
        }
    }
    Ok(())
}

fn push_outline(out: &mut String, value: &Expr) -> Result<(), AllocError> {
    out.push_str(kind(value))?;
    match value {
        Expr::Sum(operands) => push_kinds(out, operands.as_slice()),
        Expr::And(operands) => push_kinds(out, operands.as_slice()),
        Expr::Or(operands) => push_kinds(out, operands.as_slice()),
        _ => Ok(()),
    }
}

fn push_kinds(out: &mut String, operands: &[Expr]) -> Result<(), AllocError> {
    for operand in operands {
        out.push_str(" ")?;
        out.push_str(kind(operand))?;
    }
    Ok(())
}

fn kind(value: &Expr) -> &'static str {
    match value {
        Expr::Null => "null",
        Expr::Bool(_) => "bool",
        Expr::Int(_) => "int",
        Expr::Text(_) => "text",
        Expr::Name(_) => "name",
        Expr::Member { .. } => "member",
        Expr::Not(_) => "not",
        Expr::Sum(_) => "sum",
        Expr::Equal { .. } => "equal",
        Expr::And(_) => "and",
        Expr::Or(_) => "or",
        Expr::Choose { .. } => "choose",
    }
}

/// A line for each large text that is refused.
fn unread_large(alloc: Global, rows: &[(&str, &str, usize, &str)]) -> Result<String, AllocError> {
    let mut report = String::new(alloc);
    for (head, piece, times, tail) in rows {
        let pieces = piece.repeat(alloc, *times)?;
        let text = format!(in alloc; "{head}{pieces}{tail}")?;
        push_refusal(alloc, &mut report, text.as_str())?;
    }
    Ok(report)
}

fn unread_nests(alloc: Global, times: usize) -> Result<String, AllocError> {
    let mut report = String::new(alloc);
    let open = "(".repeat(alloc, 197)?;
    let close = ")".repeat(alloc, 197)?;
    let piece = format!(in alloc; "{open}a{close},")?;
    let pieces = piece.as_str().repeat(alloc, times)?;
    let text = format!(in alloc; "function App() {{ return [{pieces}]; }}")?;
    push_refusal(alloc, &mut report, text.as_str())?;
    Ok(report)
}

/// A line for each nest that is answered in another way.
fn unlike(alloc: Global, nests: &[Nest]) -> Result<String, AllocError> {
    let mut report = String::new(alloc);
    for (front, times, middle, back, wanted) in nests {
        let text = nested(alloc, front, *times, middle, back)?;
        push_unlike(alloc, &mut report, text.as_str(), *wanted)?;
    }
    Ok(report)
}

fn push_unlike(
    alloc: Global,
    report: &mut String,
    text: &str,
    wanted: Option<Wanted>,
) -> Result<(), AllocError> {
    match wanted {
        Some(wanted) => push_difference(alloc, report, text, wanted),
        None => push_refusal(alloc, report, text),
    }
}

fn nested(
    alloc: Global,
    front: &str,
    times: usize,
    middle: &str,
    back: &str,
) -> Result<String, AllocError> {
    let front = front.repeat(alloc, times)?;
    let back = back.repeat(alloc, times)?;
    format!(in alloc; "function App() {{ return {front}{middle}{back}; }}")
}

/// A line for each row that is answered in another way.
fn differences(alloc: Global, rows: &[(&str, Wanted)]) -> Result<String, AllocError> {
    let mut report = String::new(alloc);
    for (text, wanted) in rows {
        push_difference(alloc, &mut report, text, *wanted)?;
    }
    Ok(report)
}

fn push_difference(
    alloc: Global,
    report: &mut String,
    text: &str,
    wanted: Wanted,
) -> Result<(), AllocError> {
    let unmarked = without_mark(alloc, text)?;
    let answer = answer_of(alloc, unmarked.text.as_str());
    if is_refused_at(&answer, unmarked.mark, wanted) {
        return Ok(());
    }
    let line = format!(in alloc; "{answer:?}: {text}\n")?;
    report.push_str(line.as_str())
}

/// A line for each text that is refused.
fn unread(alloc: Global, texts: &[&str]) -> Result<String, AllocError> {
    let mut report = String::new(alloc);
    for text in texts {
        push_refusal(alloc, &mut report, text)?;
    }
    Ok(report)
}

fn push_refusal(alloc: Global, report: &mut String, text: &str) -> Result<(), AllocError> {
    match answer_of(alloc, text) {
        Answer::Read => Ok(()),
        refusal => {
            let line = format!(in alloc; "{refusal:?}: {text}\n")?;
            report.push_str(line.as_str())
        }
    }
}

/// A text without its mark, and the mark's place, or the text's length.
#[derive(Drop)]
struct Unmarked {
    text: String,
    mark: usize,
}

fn without_mark(alloc: Global, text: &str) -> Result<Unmarked, AllocError> {
    let mut out = String::new(alloc);
    match text.split_once('^') {
        Some((front, rest)) => {
            out.push_str(front)?;
            out.push_str(rest)?;
            Ok(Unmarked {
                text: out,
                mark: front.len(),
            })
        }
        None => {
            out.push_str(text)?;
            Ok(Unmarked {
                text: out,
                mark: text.len(),
            })
        }
    }
}

#[derive(Debug, Drop)]
enum Answer {
    Read,
    NoTokens,
    Refused(SyntaxFault),
}

fn answer_of(alloc: Global, text: &str) -> Answer {
    match lex(alloc, text.as_bytes()) {
        Ok(tokens) => match parse(alloc, &tokens, text.as_bytes()) {
            Ok(_) => Answer::Read,
            Err(fault) => Answer::Refused(fault),
        },
        Err(_) => Answer::NoTokens,
    }
}

fn is_refused_at(answer: &Answer, place: usize, kind: Wanted) -> bool {
    match answer {
        Answer::Refused(SyntaxFault::Bad { at, wanted }) => *at == place && *wanted == kind,
        Answer::Refused(SyntaxFault::OutOfMemory) => false,
        Answer::Read => false,
        Answer::NoTokens => false,
    }
}
