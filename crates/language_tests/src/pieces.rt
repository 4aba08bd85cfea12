//! The pieces of pages from their text on. A piece is shown by its bytes and then by what was cut out of it: the byte
//! before which it stands, its path, and of a hole the resource and whether a text stands before it.

ghost use Rattle.std.specs.Prelude.{◌≡◌, ◌≤◌, length};
ghost use Rattle.fizz_piece.specs.Pieces.{IsGoodWork};
ghost use Rattle.fizz_piece.specs.Plans.{longest_prefix};

mod shown;

use super::pages::app_of;
use fizz_piece::{
    Flags, Kid, Options, Piece, PieceMemory, Plan, Work, laws_of_works, render_piece,
};
use fizz_text::{OutOfMemory, Path, Text};
use jsx_value::{Scope, Spot};
use settle_script::read_script;
use shown::piece_in_words;
use std::alloc::Global;
use std::test::Fail;

/// What a page's `App` returns, a script, whether a text stands before the page and whether it stands in another piece,
/// and what it comes to.
type Row = (&'static str, &'static str, bool, bool, &'static str);

/// `H` and `K` wait for `u` and `v`, `L` lists what waits for `r` and a number, and `F` fails. `E`, `G` and `S` return
/// nothing, another that waits and a boundary, once `u` is there. Then comes `App`, up to what it returns.
fn components() -> &'static str {
    "function H() { const u = use(\"u\"); return u; }\nfunction K() { const v = use(\"v\"); return <b>{v}</b>; }\nfunction R({ n }) { const r = use(\"r\" + n); return r; }\nfunction L() { const l = use(\"l\"); return <ul>{l.map((n) => <R n={n}/>)}</ul>; }\nfunction F({ d }) { if (1) throw d; return 1; }\nfunction E() { const u = use(\"u\"); return null; }\nfunction G() { const u = use(\"u\"); return <i>a<K/></i>; }\nfunction S() { const u = use(\"u\"); return <Suspense>{u}</Suspense>; }\nfunction App() { return "
}

/// The same of the last hole of a page on which nothing has settled, and whether the script has settled then.
type Filled = (&'static str, &'static str, bool, bool, bool, &'static str);

/// What stands behind what `App` returns.
const END: &str = "; }\n";

/// Texts, elements and fragments.
static TEXTS: [Row; 25] = [
    ("\"a\"", "[]", false, false, "a"),
    ("\"a\"", "[]", true, true, "<!-- -->a<!-- -->"),
    ("\"a\"", "[]", true, false, "<!-- -->a"),
    ("null", "[]", true, true, "<!-- -->"),
    ("null", "[]", true, false, ""),
    ("-5", "[]", false, true, "-5<!-- -->"),
    ("<p>a{\"b\"}</p>", "[]", false, false, "<p>a<!-- -->b</p>"),
    (
        "<p>{1}{2}{\"\"}{3}</p>",
        "[]",
        false,
        false,
        "<p>1<!-- -->2<!-- -->3</p>",
    ),
    ("<p>a{null}b</p>", "[]", false, false, "<p>a<!-- -->b</p>"),
    ("<p>{true}{false}{1}</p>", "[]", false, false, "<p>1</p>"),
    ("<p>a<br/>b</p>", "[]", false, false, "<p>a<br/>b</p>"),
    (
        "<p>a<i/>b<i>c</i>d</p>",
        "[]",
        false,
        false,
        "<p>a<i></i>b<i>c</i>d</p>",
    ),
    (
        "<><br/><hr></hr><wbr title=\"x\"/></>",
        "[]",
        true,
        true,
        "<br/><hr/><wbr title=\"x\"/>",
    ),
    ("<>a<p/>b</>", "[]", false, true, "a<p></p>b<!-- -->"),
    ("<>a<p>b</p></>", "[]", false, true, "a<p>b</p>"),
    ("<p>a</p>", "[]", true, true, "<p>a</p>"),
    ("<>a<></>b</>", "[]", false, false, "a<!-- -->b"),
    (
        "<>a<><>b</>c</>d</>",
        "[]",
        true,
        false,
        "<!-- -->a<!-- -->b<!-- -->c<!-- -->d",
    ),
    ("<></>", "[]", true, true, "<!-- -->"),
    (
        "[[\"a\"], [], [\"b\", [1]]]",
        "[]",
        false,
        false,
        "a<!-- -->b<!-- -->1",
    ),
    (
        "<p>{\"<&>\\\"'\"}</p>",
        "[]",
        false,
        false,
        "<p>&lt;&amp;&gt;&quot;&#x27;</p>",
    ),
    ("1 ? \"a\" : <p/>", "[]", false, false, "a"),
    ("0 && <p/>", "[]", false, false, "0"),
    ("\"\" || <p/>", "[]", false, false, "<p></p>"),
    ("\"\" && <p/>", "[]", true, true, "<!-- -->"),
];

#[test]
fn texts_and_elements(rt: HostRuntime) -> Result<(), Fail> {
    let report = differences(rt.alloc(), &TEXTS, "")?;
    assert!(&rt; report.is_empty(), "{report}");
    Ok(())
}

/// What waits, filled and not.
static HOLES: [Row; 28] = [
    ("<H/>", "[]", false, false, "waits for u"),
    ("<><H/></>", "[]", true, true, "waits for u"),
    (
        "<H/>",
        "[{\"resolve\":\"u\",\"value\":null}]",
        true,
        true,
        "<!-- -->",
    ),
    (
        "<H/>",
        "[{\"resolve\":\"u\",\"value\":\"x\"}]",
        true,
        true,
        "<!-- -->x<!-- -->",
    ),
    (
        "<p>a<H/></p>",
        "[]",
        false,
        false,
        "<p>a</p> hole 4 /1 u after a text",
    ),
    ("<p><H/>b</p>", "[]", false, false, "<p>b</p> hole 3 /0 u"),
    (
        "<p>a<H/>b</p>",
        "[]",
        false,
        false,
        "<p>ab</p> hole 4 /1 u after a text",
    ),
    (
        "<p>a<H/>b</p>",
        "[{\"resolve\":\"u\",\"value\":null}]",
        false,
        false,
        "<p>a<!-- -->b</p>",
    ),
    (
        "<p>a<H/>b</p>",
        "[{\"resolve\":\"u\",\"value\":\"x\"}]",
        false,
        false,
        "<p>a<!-- -->x<!-- -->b</p>",
    ),
    (
        "<p>a<K/>b</p>",
        "[{\"resolve\":\"v\",\"value\":\"x\"}]",
        false,
        false,
        "<p>a<b>x</b>b</p>",
    ),
    (
        "<p>a<H/><i/>b</p>",
        "[]",
        false,
        false,
        "<p>a<i></i>b</p> hole 4 /1 u after a text",
    ),
    (
        "<p><H/><K/></p>",
        "[]",
        false,
        false,
        "<p></p> hole 3 /0 u hole 3 /1 v",
    ),
    (
        "<p>a<H/><K/>b</p>",
        "[]",
        false,
        false,
        "<p>ab</p> hole 4 /1 u after a text hole 4 /2 v",
    ),
    (
        "<p>a<H/><K/></p>",
        "[{\"resolve\":\"u\",\"value\":\"x\"}]",
        false,
        false,
        "<p>a<!-- -->x</p> hole 13 /2 v after a text",
    ),
    (
        "<p>a<H/><K/></p>",
        "[{\"resolve\":\"u\",\"value\":null}]",
        false,
        false,
        "<p>a</p> hole 4 /2 v after a text",
    ),
    (
        "<><H/>a<K/></>",
        "[]",
        false,
        true,
        "a hole 0 /0 u hole 1 /2 v after a text",
    ),
    (
        "<><H/>a</>",
        "[]",
        true,
        true,
        "a<!-- --> hole 0 /0 u after a text",
    ),
    (
        "<p>é<H/></p>",
        "[]",
        false,
        false,
        "<p>é</p> hole 5 /1 u after a text",
    ),
    (
        "<p>{\"<\"}<H/></p>",
        "[]",
        false,
        false,
        "<p>&lt;</p> hole 7 /1 u after a text",
    ),
    (
        "<div><p>a</p><p>b<H/></p></div>",
        "[]",
        false,
        false,
        "<div><p>a</p><p>b</p></div> hole 17 /1/1 u after a text",
    ),
    (
        "<p>a<><H/>c</>b</p>",
        "[]",
        false,
        false,
        "<p>ac<!-- -->b</p> hole 4 /1/0 u after a text",
    ),
    (
        "<p>a<><H/></>b</p>",
        "[]",
        false,
        false,
        "<p>ab</p> hole 4 /1 u after a text",
    ),
    (
        "<><><H/><K/></><H/></>",
        "[]",
        true,
        true,
        " hole 0 /0/0 u after a text hole 0 /0/1 v hole 0 /1 u",
    ),
    (
        "<L/>",
        "[{\"resolve\":\"l\",\"value\":[1,2]}]",
        false,
        false,
        "<ul></ul> hole 4 /0/0 r1 hole 4 /0/1 r2",
    ),
    (
        "<L/>",
        "[{\"resolve\":\"l\",\"value\":[1,2]},{\"resolve\":\"r1\",\"value\":\"x\"}]",
        false,
        false,
        "<ul>x</ul> hole 5 /0/1 r2 after a text",
    ),
    (
        "<p><H/></p>",
        "[{\"resolve\":\"u\",\"value\":[\"a\",1,null,[true,\"b\"]]}]",
        false,
        false,
        "<p>a<!-- -->1<!-- -->b</p>",
    ),
    (
        "<p>a<E/>b</p>",
        "[]",
        false,
        false,
        "<p>ab</p> hole 4 /1 u after a text",
    ),
    (
        "<p>a<E/>b</p>",
        "[{\"resolve\":\"u\",\"value\":1}]",
        false,
        false,
        "<p>a<!-- -->b</p>",
    ),
];

#[test]
fn holes(rt: HostRuntime) -> Result<(), Fail> {
    let report = differences(rt.alloc(), &HOLES, "")?;
    assert!(&rt; report.is_empty(), "{report}");
    Ok(())
}

/// Boundaries are cut out, whatever they hold.
static BOUNDARIES: [Row; 11] = [
    (
        "<div><Suspense>a</Suspense>b<Suspense>c</Suspense></div>",
        "[]",
        false,
        false,
        "<div>b</div> boundary 5 /0 boundary 6 /2",
    ),
    (
        "<p>a<Suspense>b</Suspense>c</p>",
        "[]",
        false,
        false,
        "<p>ac</p> boundary 4 /1",
    ),
    (
        "<Suspense fallback={<i>w</i>}>a</Suspense>",
        "[]",
        true,
        true,
        " boundary 0 ",
    ),
    (
        "<><Suspense/>a</>",
        "[]",
        true,
        true,
        "a<!-- --> boundary 0 /0",
    ),
    ("<>a<Suspense/></>", "[]", false, true, "a boundary 1 /1"),
    (
        "<p><Suspense><Suspense>a</Suspense></Suspense></p>",
        "[]",
        false,
        false,
        "<p></p> boundary 3 /0",
    ),
    (
        "<p><Suspense><H/></Suspense><H/></p>",
        "[]",
        false,
        false,
        "<p></p> boundary 3 /0 hole 3 /1 u",
    ),
    (
        "<p>a<H/><Suspense/>b</p>",
        "[]",
        false,
        false,
        "<p>ab</p> hole 4 /1 u after a text boundary 4 /2",
    ),
    (
        "<p>a<Suspense/><H/>b</p>",
        "[]",
        false,
        false,
        "<p>ab</p> boundary 4 /1 hole 4 /2 u",
    ),
    (
        "<p><><Suspense/></>{[1, <Suspense/>]}</p>",
        "[]",
        false,
        false,
        "<p>1</p> boundary 3 /0 boundary 4 /1/1",
    ),
    (
        "<p>b<Suspense><F d=\"f\"/></Suspense></p>",
        "[]",
        false,
        false,
        "<p>b</p> boundary 4 /1",
    ),
];

#[test]
fn boundaries(rt: HostRuntime) -> Result<(), Fail> {
    let report = differences(rt.alloc(), &BOUNDARIES, "")?;
    assert!(&rt; report.is_empty(), "{report}");
    Ok(())
}

/// The first failure outside boundaries inside.
static FAILURES: [Row; 9] = [
    ("<F d=\"f\"/>", "[]", false, false, "fails with f"),
    ("<p>a<F d=\"f\"/></p>", "[]", false, false, "fails with f"),
    (
        "<p><H/><F d=\"f\"/></p>",
        "[]",
        false,
        false,
        "fails with f",
    ),
    (
        "<p><F d=\"f\"/><H/></p>",
        "[]",
        false,
        false,
        "fails with f",
    ),
    (
        "<p><F d=\"f\"/><F d=\"g\"/></p>",
        "[]",
        false,
        false,
        "fails with f",
    ),
    (
        "<p><i><b><F d=\"g\"/></b></i><F d=\"f\"/></p>",
        "[]",
        false,
        false,
        "fails with g",
    ),
    (
        "<p><Suspense><F d=\"f\"/></Suspense><F d=\"g\"/></p>",
        "[]",
        false,
        false,
        "fails with g",
    ),
    (
        "<p><H/></p>",
        "[{\"reject\":\"u\",\"digest\":\"e\"}]",
        false,
        false,
        "fails with e",
    ),
    (
        "<H/>",
        "[{\"reject\":\"u\",\"digest\":\"\"}]",
        true,
        true,
        "fails with ",
    ),
];

#[test]
fn failures(rt: HostRuntime) -> Result<(), Fail> {
    let report = differences(rt.alloc(), &FAILURES, "")?;
    assert!(&rt; report.is_empty(), "{report}");
    Ok(())
}

/// Attributes of every kind.
static ATTRIBUTES: [Row; 20] = [
    (
        "<p className=\"a\" htmlFor=\"b\" title={1} lang={null} dir={true} role=\"\" href=\"x&y\"/>",
        "[]",
        false,
        false,
        "<p class=\"a\" for=\"b\" title=\"1\" role=\"\" href=\"x&amp;y\"></p>",
    ),
    (
        "<p title={\"\\\"'<&>\"}/>",
        "[]",
        false,
        false,
        "<p title=\"&quot;&#x27;&lt;&amp;&gt;\"></p>",
    ),
    (
        "<p title={-7} lang={\"é\"} cite={undefined}/>",
        "[]",
        false,
        false,
        "<p title=\"-7\" lang=\"é\"></p>",
    ),
    (
        "<p hidden disabled={0} open={\"a\"}/>",
        "[]",
        false,
        false,
        "<p hidden=\"\" open=\"\"></p>",
    ),
    (
        "<p hidden={null} disabled={\"\"} open={false}/>",
        "[]",
        false,
        false,
        "<p></p>",
    ),
    (
        "<p data-a={true} aria-b={false} data-c={0} data-d={null} aria-e=\"x\" data-f=\"\"/>",
        "[]",
        false,
        false,
        "<p data-a=\"true\" aria-b=\"false\" data-c=\"0\" aria-e=\"x\" data-f=\"\"></p>",
    ),
    (
        "<p key=\"k\" id=\"a\"/>",
        "[]",
        false,
        false,
        "<p id=\"a\"></p>",
    ),
    (
        "<p title=\"a\" id=\"b\" className=\"c\"/>",
        "[]",
        false,
        false,
        "<p title=\"a\" id=\"b\" class=\"c\"></p>",
    ),
    (
        "<br title=\"a\" hidden/>",
        "[]",
        false,
        false,
        "<br title=\"a\" hidden=\"\"/>",
    ),
    ("<p id=\"B:0\"/>", "[]", false, false, "<p></p>"),
    ("<p id=\"S:\"/>", "[]", false, false, "<p></p>"),
    ("<p id=\"P:x y\"/>", "[]", false, false, "<p></p>"),
    ("<p id=\"b:0\"/>", "[]", false, false, "<p id=\"b:0\"></p>"),
    ("<p id=\"B\"/>", "[]", false, false, "<p id=\"B\"></p>"),
    (
        "<p id=\"xB:0\"/>",
        "[]",
        false,
        false,
        "<p id=\"xB:0\"></p>",
    ),
    (
        "<p id=\"x-B:0\"/>",
        "[]",
        false,
        false,
        "<p id=\"x-B:0\"></p>",
    ),
    ("<p id={5}/>", "[]", false, false, "<p id=\"5\"></p>"),
    ("<p id={true}/>", "[]", false, false, "<p></p>"),
    ("<p id=\"\"/>", "[]", false, false, "<p id=\"\"></p>"),
    (
        "<p title=\"B:0\"/>",
        "[]",
        false,
        false,
        "<p title=\"B:0\"></p>",
    ),
];

#[test]
fn attributes(rt: HostRuntime) -> Result<(), Fail> {
    let report = differences(rt.alloc(), &ATTRIBUTES, "")?;
    assert!(&rt; report.is_empty(), "{report}");
    Ok(())
}

/// Ids of a page whose own ids begin with `x-`.
static PREFIXED: [Row; 7] = [
    ("<p id=\"x-B:0\"/>", "[]", false, false, "<p></p>"),
    ("<p id=\"x-S:\"/>", "[]", false, false, "<p></p>"),
    ("<p id=\"x-P:1\"/>", "[]", false, false, "<p></p>"),
    ("<p id=\"B:0\"/>", "[]", false, false, "<p id=\"B:0\"></p>"),
    ("<p id=\"x-\"/>", "[]", false, false, "<p id=\"x-\"></p>"),
    (
        "<p id=\"x-b:0\"/>",
        "[]",
        false,
        false,
        "<p id=\"x-b:0\"></p>",
    ),
    (
        "<p id=\"yx-B:0\"/>",
        "[]",
        false,
        false,
        "<p id=\"yx-B:0\"></p>",
    ),
];

#[test]
fn ids_with_a_prefix(rt: HostRuntime) -> Result<(), Fail> {
    let report = differences(rt.alloc(), &PREFIXED, "x-")?;
    assert!(&rt; report.is_empty(), "{report}");
    Ok(())
}

/// The last hole of a page on which nothing has settled, before and after the script has settled.
static FILLED: [Filled; 12] = [
    (
        "<p>a<E/>b</p>",
        "[{\"resolve\":\"u\",\"value\":1}]",
        false,
        true,
        true,
        "waits for u",
    ),
    (
        "<p>a<E/>b</p>",
        "[{\"resolve\":\"u\",\"value\":1}]",
        true,
        true,
        true,
        "<!-- -->",
    ),
    (
        "<p><E/></p>",
        "[{\"resolve\":\"u\",\"value\":1}]",
        true,
        false,
        true,
        "",
    ),
    (
        "<p>a<H/>b</p>",
        "[{\"resolve\":\"u\",\"value\":\"x\"}]",
        true,
        true,
        true,
        "<!-- -->x<!-- -->",
    ),
    (
        "<p><H/></p>",
        "[{\"resolve\":\"u\",\"value\":\"x\"}]",
        true,
        false,
        true,
        "x<!-- -->",
    ),
    (
        "<p><H/></p>",
        "[{\"resolve\":\"w\",\"value\":\"x\"}]",
        true,
        false,
        true,
        "waits for u",
    ),
    (
        "<p><K/></p>",
        "[{\"resolve\":\"v\",\"value\":\"x\"}]",
        true,
        true,
        true,
        "<b>x</b>",
    ),
    (
        "<p><G/></p>",
        "[{\"resolve\":\"u\",\"value\":1}]",
        true,
        true,
        true,
        "<i>a</i> hole 4 /0/1 v after a text",
    ),
    (
        "<div><p/><p>b<G/></p></div>",
        "[{\"resolve\":\"u\",\"value\":1}]",
        true,
        true,
        true,
        "<i>a</i> hole 4 /1/1/1 v after a text",
    ),
    (
        "<p>a<S/></p>",
        "[{\"resolve\":\"u\",\"value\":1}]",
        true,
        true,
        true,
        " boundary 0 /1",
    ),
    (
        "<p>a<H/></p>",
        "[{\"reject\":\"u\",\"digest\":\"e\"}]",
        true,
        true,
        true,
        "fails with e",
    ),
    (
        "<p><H/></p>",
        "[{\"resolve\":\"u\",\"value\":[\"a\",[],\"b\"]}]",
        true,
        true,
        true,
        "<!-- -->a<!-- -->b<!-- -->",
    ),
];

#[test]
fn filled_holes(rt: HostRuntime) -> Result<(), Fail> {
    let report = unlike_holes(rt.alloc(), &FILLED)?;
    assert!(&rt; report.is_empty(), "{report}");
    Ok(())
}

/// A line for each page that comes to something else.
fn differences(alloc: Global, rows: &[Row], prefix: &'static str) -> Result<String, Fail>
    requires { length prefix.now ≤ longest_prefix }
{
    let mut report = String::new(alloc);
    for (node, script, lead, embedded, words) in rows {
        let flags = Flags {
            lead: *lead,
            embedded: *embedded,
        };
        let front = components();
        let text = format!(in alloc; "{front}{node}{END}")?;
        let found = whole_page_in_words(alloc, text.as_str(), script, prefix, flags)?;
        if found.as_str() != *words {
            let line = format!(in alloc; "{found} for {words}: {node} of {script}\n")?;
            report.push_str(line.as_str())?;
        }
    }
    Ok(report)
}

/// The work of a whole page.
fn root_work<'a>(alloc: Global, plan: &Plan<'a>, settled: u32, flags: Flags) -> Work<'a>
    requires { settled ≤ length plan.now.outcomes.now }
    ensures good { IsGoodWork plan.now result }
    ensures settled { result.settled ≡ settled }
{
    Work {
        task: 0,
        claim: 0,
        path: Path::new(alloc),
        spot: Spot::Root,
        scope: Scope::empty(alloc),
        settled,
        flags,
    }
}

fn whole_page_in_words(
    alloc: Global,
    text: &str,
    script: &str,
    prefix: &'static str,
    flags: Flags,
) -> Result<String, Fail>
    requires { length prefix.now ≤ longest_prefix }
{
    let app = app_of(alloc, text)?;
    let script = read_script(alloc, script.as_bytes())?;
    let options = Options {
        prefix: Text::fixed(prefix),
        progressive: 12_800,
        chunk: 2_048,
    };
    let Ok(plan) = Plan::new(alloc, &app, script.outcomes(), &options) else {
        return Err(OutOfMemory.into());
    };
    let work = root_work(alloc, &plan, script.outcomes().len(), flags);
    match render_piece(alloc, &plan, work) {
        Ok(piece) => piece_in_words(alloc, &piece),
        Err(PieceMemory { .. }) => Err(OutOfMemory.into()),
    }
}

/// A line for each hole that comes to something else.
fn unlike_holes(alloc: Global, rows: &[Filled]) -> Result<String, Fail> {
    let mut report = String::new(alloc);
    for (node, script, filled, lead, embedded, words) in rows {
        let flags = Flags {
            lead: *lead,
            embedded: *embedded,
        };
        let front = components();
        let text = format!(in alloc; "{front}{node}{END}")?;
        let found = last_hole_in_words(alloc, text.as_str(), script, *filled, flags)?;
        if found.as_str() != *words {
            let line = format!(in alloc; "{found} for {words}: {node} of {script}\n")?;
            report.push_str(line.as_str())?;
        }
    }
    Ok(report)
}

fn last_hole_in_words(
    alloc: Global,
    text: &str,
    script: &str,
    filled: bool,
    flags: Flags,
) -> Result<String, Fail> {
    let app = app_of(alloc, text)?;
    let script = read_script(alloc, script.as_bytes())?;
    let options = Options {
        prefix: Text::fixed(""),
        progressive: 12_800,
        chunk: 2_048,
    };
    let Ok(plan) = Plan::new(alloc, &app, script.outcomes(), &options) else {
        return Err(OutOfMemory.into());
    };
    let settled = if filled { script.outcomes().len() } else { 0 };
    hole_in_words(alloc, &plan, settled, flags)
}

/// A page behind no text, with none behind it.
fn alone() -> Flags {
    Flags {
        lead: false,
        embedded: false,
    }
}

fn hole_in_words<'a>(
    alloc: Global,
    plan: &Plan<'a>,
    settled: u32,
    flags: Flags,
) -> Result<String, Fail>
    requires { settled ≤ length plan.now.outcomes.now }
{
    let work = root_work(alloc, plan, 0, alone());
    let Ok(Piece::Done { mut kids, .. }) = render_piece(alloc, plan, work) else {
        return Err(OutOfMemory.into());
    };
    let Some(
        Kid::Hole {
            path,
            spot,
            scope,
            ..
        },
    ) = kids.pop()
    else {
        return Err(OutOfMemory.into());
    };
    laws_of_works();
    let work = Work {
        task: 1,
        claim: 0,
        path,
        spot,
        scope,
        settled,
        flags,
    };
    match render_piece(alloc, plan, work) {
        Ok(piece) => piece_in_words(alloc, &piece),
        Err(PieceMemory { .. }) => Err(OutOfMemory.into()),
    }
}
