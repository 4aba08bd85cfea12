use super::calls::{NEVER, RENDER, pair, run_fizz};
use std::alloc::{AllocError, Global};
use std::process::Abort;
use std::sync::Wait;
use std::test::Fail;
use std::thread::Threads;

/// Elements as a page has them in its source, with the bytes that are printed.
pub(super) const PAGES: [(&str, &str); 24] = [
    ("<div className=\"a\">Hi</div>", "<div class=\"a\">Hi</div>"),
    ("<p></p>", "<p></p>"),
    ("<p/>", "<p></p>"),
    ("<br/>", "<br/>"),
    ("<hr role=\"x\"/>", "<hr role=\"x\"/>"),
    (
        "<label htmlFor=\"a\">b</label>",
        "<label for=\"a\">b</label>",
    ),
    ("<p>it's \"so\"</p>", "<p>it&#x27;s &quot;so&quot;</p>"),
    (
        "<p title=\"a<b>'c'\"></p>",
        "<p title=\"a&lt;b&gt;&#x27;c&#x27;\"></p>",
    ),
    (
        "<a href=\"/x?a=1\" rel=\"next\" target=\"_top\">on</a>",
        "<a href=\"/x?a=1\" rel=\"next\" target=\"_top\">on</a>",
    ),
    (
        "<a rel=\"next\" href=\"/\">on</a>",
        "<a rel=\"next\" href=\"/\">on</a>",
    ),
    (
        "<ul><li>1</li><li>2</li></ul>",
        "<ul><li>1</li><li>2</li></ul>",
    ),
    ("<p>a<br/>b</p>", "<p>a<br/>b</p>"),
    ("<p>a<b>c</b>d</p>", "<p>a<b>c</b>d</p>"),
    ("<p> </p>", "<p> </p>"),
    ("<p title=\"\"></p>", "<p title=\"\"></p>"),
    ("<p title=\"a\nb\">c</p>", "<p title=\"a\nb\">c</p>"),
    ("<p>Grüße, 世界</p>", "<p>Grüße, 世界</p>"),
    (
        "<h1 lang=\"de\" dir=\"ltr\">x</h1>",
        "<h1 lang=\"de\" dir=\"ltr\">x</h1>",
    ),
    ("<q cite=\"/s\">x</q>", "<q cite=\"/s\">x</q>"),
    (
        "<div><div><div/></div></div>",
        "<div><div><div></div></div></div>",
    ),
    ("<p>a/b=c</p>", "<p>a/b=c</p>"),
    ("<p title=\"{x}\">]</p>", "<p title=\"{x}\">]</p>"),
    (
        "<main><section><br/><wbr/></section><footer>.</footer></main>",
        "<main><section><br/><wbr/></section><footer>.</footer></main>",
    ),
    ("<p>-- return --</p>", "<p>-- return --</p>"),
];

/// Files that are served in another spelling, or with more than one element, and what is printed.
const FILES: [(&str, &str); 22] = [
    ("function App() { return <p></p>; }", "<p></p>"),
    ("\n function App() { return <p></p>; } \n\n", "<p></p>"),
    ("function App() { return null; }", ""),
    ("function App() { return \"a\"; }", "a"),
    ("function App() { return <></>; }", ""),
    ("function App() { return <><p>a</p>b</>; }", "<p>a</p>b"),
    ("function App() { return <br></br>; }", "<br/>"),
    (
        "function App() { return <p id=\"a\"></p>; }",
        "<p id=\"a\"></p>",
    ),
    (
        "function App() { return <p data-a=\"a\"></p>; }",
        "<p data-a=\"a\"></p>",
    ),
    (
        "function App() { return <p hidden></p>; }",
        "<p hidden=\"\"></p>",
    ),
    (
        "function App() { return <p title=\"a&b\"></p>; }",
        "<p title=\"a&amp;b\"></p>",
    ),
    (
        "function App() { return <p  title='a' ></p>; }",
        "<p title=\"a\"></p>",
    ),
    ("function App() { return <p>a\nb</p>; }", "<p>a b</p>"),
    (
        "function App() { return <p>a&amp;b</p>; }",
        "<p>a&amp;b</p>",
    ),
    (
        "function App() { return <p>{\"a\"}{\"b\"}</p>; }",
        "<p>a<!-- -->b</p>",
    ),
    (
        "function App() { return <p>{\"a\"}{\"b\"}{\"\"}{3}</p>; }",
        "<p>a<!-- -->b<!-- -->3</p>",
    ),
    (
        "function App() { return [<b>a</b>, null, \"b\"]; }",
        "<b>a</b>b",
    ),
    (
        "function App() { return <div><p id=\"B:0\">x</p><p id=\"B\">y</p></div>; }",
        "<div><p>x</p><p id=\"B\">y</p></div>",
    ),
    (
        "function App() { return <p title={\"\\\"&'<>\"}></p>; }",
        "<p title=\"&quot;&amp;&#x27;&lt;&gt;\"></p>",
    ),
    (
        "function Item({ n, last }) { return <li title={n}>{last ? \"last\" : \"no \" + n}</li>; } function App() { return <ul><Item n={1}/><Item n={2} last/></ul>; }",
        "<ul><li title=\"1\">no 1</li><li title=\"2\">last</li></ul>",
    ),
    (
        "function Item({ name, last }) { return <li className={last && \"last\"}>{name}{last ? \".\" : \",\"}</li>; }\nfunction List() { return <ul><Item name=\"kettles\"/><Item name=\"cups\" last/></ul>; }\nfunction App() { return <main><h1 title=\"it's so\">Needed</h1><List/></main>; }\n",
        "<main><h1 title=\"it&#x27;s so\">Needed</h1><ul><li>kettles<!-- -->,</li><li class=\"last\">cups<!-- -->.</li></ul></main>",
    ),
    (
        "function Empty() { return null; } function App() { return <p>a<Empty/>b</p>; }",
        "<p>a<!-- -->b</p>",
    ),
];

/// Files that are refused, each with what the note says of it.
const REFUSED: [(&str, &str); 17] = [
    ("", "NoApp"),
    ("function App() { return text; }\n", "UnknownName at=24"),
    (
        "function App() { return <p></p><p></p>; }\n",
        "SyntaxFault at=31 wanted=Token",
    ),
    (
        "function App() { return <p></p>x; }\n",
        "SyntaxFault at=31 wanted=Token",
    ),
    (
        "function App() { return ; }\n",
        "SyntaxFault at=24 wanted=Token",
    ),
    (
        "function App() { return <p>; }\n",
        "LexFault at=29 kind=Bare",
    ),
    (
        "function App() { return </p>; }\n",
        "LexFault at=25 kind=Char",
    ),
    (
        "function App() { return <br>x</br>; }\n",
        "SyntaxFault at=28 wanted=NoChildren",
    ),
    (
        "function App() { return <p></b>; }\n",
        "SyntaxFault at=29 wanted=CloseName",
    ),
    (
        "function App() { return <p><b></p></b>; }\n",
        "SyntaxFault at=32 wanted=CloseName",
    ),
    (
        "function App() { return <nav2></nav2>; }\n",
        "UnknownElement at=25",
    ),
    (
        "function App() { return <P></P>; }\n",
        "UnknownElement at=25",
    ),
    (
        "function App() { return <p title=\"a\" title=\"b\"></p>; }\n",
        "TwiceDefined at=37",
    ),
    (
        "function App() { return <p class=\"a\"></p>; }\n",
        "UnknownAttribute at=27",
    ),
    (
        "function App() { return <p>{a}</p>; }\n",
        "UnknownName at=28",
    ),
    (
        "function App() { return <p>a>b</p>; }\n",
        "LexFault at=28 kind=Bare",
    ),
    (
        "function App() { return <B/>; }\nfunction B() { return null; }\n",
        "UsedBeforeDefined at=25",
    ),
];

/// Renders a file under a script without lines.
fn check_page<R: Abort + Threads + Wait + Sync>(
    rt: &R,
    alloc: Global,
    file: &str,
    html: &str,
) -> Result<(), Fail> {
    let entries = pair(alloc, file.as_bytes().to_vec(alloc)?, b"[]".to_vec(alloc)?)?;
    let (status, out, notes) = run_fizz(rt, alloc, RENDER, entries, &NEVER)?;
    assert_eq!(rt; notes.bytes(), b"".as_slice(), "{file}");
    assert_eq!(rt; out.bytes(), html.as_bytes(), "{file}");
    assert_eq!(rt; status, 0, "{file}");
    Ok(())
}

#[test]
fn pages_are_printed(rt: HostRuntime) -> Result<(), Fail> {
    let alloc = rt.alloc();
    for (source, html) in PAGES.iter() {
        let file = format!(in alloc; "function App() {{ return {source}; }}\n")?;
        check_page(&rt, alloc, file.as_str(), html)?;
    }
    Ok(())
}

#[test]
fn files_are_printed(rt: HostRuntime) -> Result<(), Fail> {
    let alloc = rt.alloc();
    for (file, html) in FILES.iter() {
        check_page(&rt, alloc, file, html)?;
    }
    Ok(())
}

#[test]
fn other_files_are_refused(rt: HostRuntime) -> Result<(), Fail> {
    let alloc = rt.alloc();
    for (file, fault) in REFUSED.iter() {
        let entries = pair(alloc, file.as_bytes().to_vec(alloc)?, b"[]".to_vec(alloc)?)?;
        let (status, out, notes) = run_fizz(&rt, alloc, RENDER, entries, &NEVER)?;
        let note = format!(in alloc; "a.jsx: {fault}\n")?;
        assert_eq!(rt; notes.bytes(), note.as_bytes(), "{file}");
        assert_eq!(rt; out.bytes(), b"".as_slice(), "{file}");
        assert_eq!(rt; status, 4, "{file}");
    }
    Ok(())
}

/// A page of 41 calls of a component that returns a text of 200,000 bytes.
fn heavy(alloc: Global) -> Result<String, AllocError> {
    let mut file = String::from_str(alloc, "function A() { return \"")?;
    for _ in 0..200_000 {
        file.push_str("a")?;
    }
    file.push_str("\"; } function App() { return <>")?;
    for _ in 0..41 {
        file.push_str("<A/>")?;
    }
    file.push_str("</>; }")?;
    Ok(file)
}

#[test]
fn heavy_pages_are_refused(rt: HostRuntime) -> Result<(), Fail> {
    let alloc = rt.alloc();
    let entries = pair(
        alloc,
        heavy(alloc)?.as_bytes().to_vec(alloc)?,
        b"[]".to_vec(alloc)?,
    )?;
    let (status, out, notes) = run_fizz(&rt, alloc, RENDER, entries, &NEVER)?;
    assert_eq!(rt;
        notes.bytes(),
        b"a.jsx: TooLarge limit=8000000\n".as_slice()
    );
    assert_eq!(rt; out.bytes(), b"".as_slice());
    assert_eq!(rt; status, 4);
    Ok(())
}
