//! Values and nodes.

use crate::prints::{Row, values_misprinted};
use std::test::Fail;

/// Expressions: parentheses stand where the grammar needs them, and nowhere else.
static EXPRESSIONS: [Row; 49] = [
    ("null", "null "),
    ("undefined", "null "),
    ("true", "true "),
    ("false", "false "),
    ("0", "0 "),
    ("-5", "-5 "),
    ("9223372036854775807", "9223372036854775807 "),
    ("-9223372036854775808", "-9223372036854775808 "),
    ("'it\\'s'", "\"it's\""),
    ("'\"\\\\\\n\\r\\t'", "\"\\\"\\\\\\n\r\t\""),
    ("\"\\u00e9\\u0000\"", "\"é\0\""),
    ("a", "a "),
    ("((a))", "a "),
    ("a.b.c", "a .b .c "),
    ("(a.b).c", "(a .b ).c "),
    ("1 .length", "1 .length "),
    ("\"x\".length", "\"x\".length "),
    ("(a + b).length", "(a +b ).length "),
    ("(!a).b", "(! a ).b "),
    ("a.map", "a .map "),
    ("a.return", "a .return "),
    ("!a", "! a "),
    ("!!a", "! ! a "),
    ("!(a.b)", "! a .b "),
    ("!(a && b)", "! (a &&b )"),
    ("!(a + b)", "! (a +b )"),
    ("a + b + c", "a +b +c "),
    ("(a + b) + c", "(a +b )+c "),
    ("a + (b + c)", "a +(b +c )"),
    ("!a + (!b)", "! a +! b "),
    ("a + -1", "a +-1 "),
    ("a === b", "a ===b "),
    ("a !== (b + 1)", "a !==b +1 "),
    ("(a === b) === c", "(a ===b )===c "),
    ("(a === b) + c", "(a ===b )+c "),
    ("a && b && c", "a &&b &&c "),
    ("a && (b && c)", "a &&(b &&c )"),
    ("(a && b) && c", "(a &&b )&&c "),
    ("a && (b === c)", "a &&b ===c "),
    ("a || b && c", "a ||b &&c "),
    ("(a || b) && c", "(a ||b )&&c "),
    ("a || (b || c)", "a ||(b ||c )"),
    ("a ? b : c", "a ?b :c "),
    ("a ? (b ? c : d) : e", "a ?b ?c :d :e "),
    ("a ? b : (c ? d : e)", "a ?b :c ?d :e "),
    ("(a ? b : c) ? d : e", "(a ?b :c )?d :e "),
    ("(a || b) ? c : d", "a ||b ?c :d "),
    ("(a ? b : c) || d", "(a ?b :c )||d "),
    ("!(a ? b : c).d", "! (a ?b :c ).d "),
];

#[test]
fn expressions_have_the_parentheses_that_they_need(rt: HostRuntime) -> Result<(), Fail> {
    let report = values_misprinted(rt.alloc(), &EXPRESSIONS)?;
    assert!(&rt; report.is_empty(), "{report}");
    Ok(())
}

/// Elements: texts stand in braces, elements among children don't, and values of attributes do.
static ELEMENTS: [Row; 24] = [
    ("<p/>", "<p />"),
    ("<p></p>", "<p />"),
    ("<p>{}</p>", "<p />"),
    ("<p>\n  </p>", "<p />"),
    ("(<p/>)", "<p />"),
    ("<></>", "<></>"),
    ("<>{}</>", "<></>"),
    ("<p>hi</p>", "<p >{\"hi\"}</p >"),
    ("<p>{\"hi\"}</p>", "<p >{\"hi\"}</p >"),
    ("<p>a {b} c</p>", "<p >{\"a \"}{b }{\" c\"}</p >"),
    ("<p>&lt;&amp;\"</p>", "<p >{\"<&\\\"\"}</p >"),
    ("<p>\n  x\n  y\n</p>", "<p >{\"x y\"}</p >"),
    (
        "<p><b/>{<i/>}{[1]}{a && <i/>}</p>",
        "<p ><b /><i />{[1 ]}{a &&<i />}</p >",
    ),
    ("<><p/>{<></>}</>", "<><p /><></></>"),
    ("<p a/>", "<p a = {true }/>"),
    ("<p a=\"x\"/>", "<p a = {\"x\"}/>"),
    ("<p a={\"x\"} b={(1)}/>", "<p a = {\"x\"}b = {1 }/>"),
    ("<p a='\"\\'/>", "<p a = {\"\\\"\\\\\"}/>"),
    ("<p data-a={a ? b : c}/>", "<p data-a = {a ?b :c }/>"),
    ("<br></br>", "<br />"),
    ("<Item n={1}></Item>", "<Item n = {1 }/>"),
    (
        "<Suspense fallback={<i>w</i>}><p/></Suspense>",
        "<Suspense fallback = {<i >{\"w\"}</i >}><p /></Suspense >",
    ),
    (
        "<Suspense fallback={(a && <i/>)} key=\"k\"/>",
        "<Suspense fallback = {a &&<i />}key = {\"k\"}/>",
    ),
    (
        "<Suspense fallback=\"w\"></Suspense>",
        "<Suspense fallback = {\"w\"}/>",
    ),
];

#[test]
fn elements_have_the_braces_that_they_need(rt: HostRuntime) -> Result<(), Fail> {
    let report = values_misprinted(rt.alloc(), &ELEMENTS)?;
    assert!(&rt; report.is_empty(), "{report}");
    Ok(())
}

/// Choices, chains, arrays and maps with elements in them.
static NODES: [Row; 22] = [
    ("a ? <p/> : b", "a ?<p />:b "),
    ("a ? b : <p/>", "a ?b :<p />"),
    (
        "a ? (b ? <p/> : c) : (d ? e : <p/>)",
        "a ?b ?<p />:c :d ?e :<p />",
    ),
    ("(a ? b : c) ? <p/> : d", "(a ?b :c )?<p />:d "),
    ("a && <p/>", "a &&<p />"),
    ("a && b && (<p/>)", "a &&b &&<p />"),
    ("a && (b && <p/>)", "a &&(b &&<p />)"),
    ("a && (b ? <p/> : c)", "a &&(b ?<p />:c )"),
    ("(a && b) && <p/>", "(a &&b )&&<p />"),
    ("(a || b) && <p/>", "(a ||b )&&<p />"),
    ("a || (b && <p/>)", "a ||b &&<p />"),
    ("a || b || <p/>", "a ||b ||<p />"),
    ("a || (b || <p/>)", "a ||(b ||<p />)"),
    ("a && (b || <p/>)", "a &&(b ||<p />)"),
    ("(a && b) || <p/>", "a &&b ||<p />"),
    ("[]", "[]"),
    ("[a, <p/>, [b],]", "[a ,<p />,[b ]]"),
    ("a && [b ? c : d]", "a &&[b ?c :d ]"),
    ("a.map((x) => x)", "a .map ((x )=>x )"),
    (
        "a.b.map((x, i) => x && <p/>)",
        "a .b .map ((x ,i )=>x &&<p />)",
    ),
    ("(a + b).map((x) => [x])", "(a +b ).map ((x )=>[x ])"),
    (
        "a && b.map((x) => x.map((y) => y))",
        "a &&b .map ((x )=>x .map ((y )=>y ))",
    ),
];

#[test]
fn nodes_have_the_parentheses_that_they_need(rt: HostRuntime) -> Result<(), Fail> {
    let report = values_misprinted(rt.alloc(), &NODES)?;
    assert!(&rt; report.is_empty(), "{report}");
    Ok(())
}
