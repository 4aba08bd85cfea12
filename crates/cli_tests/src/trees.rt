use super::calls::{NEVER, pair, run_fizz};
use std::alloc::Global;
use std::test::Fail;

/// A boundary that waits for `u`.
const ONE: &str =
    "function Body() { const u = use(\"u\"); return <p>{u}</p>; }\nfunction App() { return <Suspense fallback={<i>wait</i>}><Body/></Suspense>; }\n";

/// A boundary that waits for `u` and then for `v`.
const TWO: &str =
    "function Inner() { const v = use(\"v\"); return <em>{v}</em>; }\nfunction Outer() { const u = use(\"u\"); return <section><b>{u}</b><Inner/></section>; }\nfunction App() { return <Suspense fallback={<i>wait</i>}><Outer/></Suspense>; }\n";

/// A page as users have it.
const BLOG: &str =
    "function Comment({ c }) { return <li data-id={c.id}><b>{c.author}</b>: {c.text}</li>; }\nfunction Comments({ post }) { const list = use(\"comments:\" + post); return list.length === 0 ? <p>No comments yet.</p> : <ul>{list.map((c) => <Comment key={c.id} c={c}/>)}</ul>; }\nfunction Article() { const a = use(\"post:42\"); return <article><h1>{a.title}</h1><p>{a.body}</p><Suspense fallback={<p className=\"wait\">Loading comments</p>}><Comments post={42}/></Suspense></article>; }\nfunction App() { return <main id=\"page\"><header>Blog &amp; News</header><Suspense fallback={<p className=\"wait\">Loading</p>}><Article/></Suspense></main>; }\n";

/// A call of `fizz tree a.jsx s.json`, and how it ends.
struct Tree {
    app: &'static str,
    script: &'static str,
    status: u8,
    out: &'static str,
    notes: &'static str,
}

const TREES: [Tree; 21] = [
    Tree {
        app: "function App() { return <div className=\"a\">Hi</div>; }\n",
        script: "[]",
        status: 0,
        out: "<div class=\"a\">Hi</div>",
        notes: "",
    },
    Tree {
        app: "function App() { return <p>{\"a\"}{\"b\"}{\"\"}{3}</p>; }\n",
        script: "[]",
        status: 0,
        out: "<p>a<!-- -->b<!-- -->3</p>",
        notes: "",
    },
    Tree {
        app: "function App() { return null; }\n",
        script: "[]",
        status: 0,
        out: "",
        notes: "",
    },
    Tree {
        app: ONE,
        script: "[{\"resolve\":\"u\",\"value\":\"x\"}]",
        status: 0,
        out: "<p>x</p>",
        notes: "",
    },
    Tree {
        app: ONE,
        script: "[{\"work\":0},{\"flush\":0},{\"resolve\":\"u\",\"value\":\"x\"}]",
        status: 0,
        out: "<p>x</p>",
        notes: "",
    },
    Tree {
        app: TWO,
        script: "[{\"resolve\":\"u\",\"value\":\"1\"},{\"resolve\":\"v\",\"value\":\"2\"}]",
        status: 0,
        out: "<section><b>1</b><em>2</em></section>",
        notes: "",
    },
    Tree {
        app: "function Empty() { const u = use(\"u\"); return null; }\nfunction App() { return <p>a<Empty/>b</p>; }\n",
        script: "[{\"resolve\":\"u\",\"value\":1}]",
        status: 0,
        out: "<p>a<!-- -->b</p>",
        notes: "",
    },
    Tree {
        app: "function Empty() { const u = use(\"u\"); return \"x\"; }\nfunction App() { return <p>a<Empty/>b</p>; }\n",
        script: "[{\"resolve\":\"u\",\"value\":1}]",
        status: 0,
        out: "<p>a<!-- -->x<!-- -->b</p>",
        notes: "",
    },
    Tree {
        app: "function App() { return <div><p id=\"B:0\">x</p><p id=\"B\">y</p></div>; }\n",
        script: "[]",
        status: 0,
        out: "<div><p>x</p><p id=\"B\">y</p></div>",
        notes: "",
    },
    Tree {
        app: "function App() { return <p title={\"\\\"&'<>\"}></p>; }\n",
        script: "[]",
        status: 0,
        out: "<p title=\"&quot;&amp;&#x27;&lt;&gt;\"></p>",
        notes: "",
    },
    Tree {
        app: ONE,
        script: "[{\"reject\":\"u\",\"digest\":\"e1\"}]",
        status: 0,
        out: "<i>wait</i>",
        notes: "",
    },
    Tree {
        app: TWO,
        script: "[{\"resolve\":\"u\",\"value\":\"1\"},{\"reject\":\"v\",\"digest\":\"e2\"}]",
        status: 0,
        out: "<i>wait</i>",
        notes: "",
    },
    Tree {
        app: ONE,
        script: "[]",
        status: 0,
        out: "<i>wait</i>",
        notes: "",
    },
    Tree {
        app: "function Bad() { const u = use(\"u\"); if (true) throw \"s1\"; return null; }\nfunction App() { return <div><Suspense fallback={null}><p>x</p></Suspense><Bad/></div>; }\n",
        script: "[{\"resolve\":\"u\",\"value\":1}]",
        status: 5,
        out: "",
        notes: "shell failed: s1\n",
    },
    Tree {
        app: "function Bad() { const u = use(\"u\"); if (true) throw \"s1\"; return null; }\nfunction App() { return <div><Suspense fallback={null}><p>x</p></Suspense><Bad/></div>; }\n",
        script: "[]",
        status: 5,
        out: "",
        notes: "shell failed: unsettled\n",
    },
    Tree {
        app: "function Part({ n }) { const x = use(n); return <p>{x}</p>; }\nfunction App() { return <><Suspense fallback={<i>1</i>}><Part n=\"u\"/></Suspense><Suspense fallback={<i>2</i>}><Part n=\"v\"/></Suspense></>; }\n",
        script: "[{\"resolve\":\"u\",\"value\":\"x\"},{\"resolve\":\"v\",\"value\":\"y\"}]",
        status: 0,
        out: "<p>x</p><p>y</p>",
        notes: "",
    },
    Tree {
        app: BLOG,
        script: "[{\"resolve\":\"post:42\",\"value\":{\"title\":\"Fizz\",\"body\":\"It's out.\"}},{\"resolve\":\"comments:42\",\"value\":[{\"id\":1,\"author\":\"Ann\",\"text\":\"<3\"}]}]",
        status: 0,
        out: "<main id=\"page\"><header>Blog &amp; News</header><article><h1>Fizz</h1><p>It&#x27;s out.</p><ul><li data-id=\"1\"><b>Ann</b>: <!-- -->&lt;3</li></ul></article></main>",
        notes: "",
    },
    Tree {
        app: "function App() { return <p>; }\n",
        script: "[]",
        status: 4,
        out: "",
        notes: "a.jsx: LexFault at=29 kind=Bare\n",
    },
    Tree {
        app: "function App() { return <p>{x}</p>; }\n",
        script: "[]",
        status: 4,
        out: "",
        notes: "a.jsx: UnknownName at=28\n",
    },
    Tree {
        app: "function App() { return <B/>; }\nfunction B() { return null; }\n",
        script: "[]",
        status: 4,
        out: "",
        notes: "a.jsx: UsedBeforeDefined at=25\n",
    },
    Tree {
        app: "",
        script: "[]",
        status: 4,
        out: "",
        notes: "a.jsx: NoApp\n",
    },
];

#[test]
fn trees_are_shown(rt: HostRuntime) -> Result<(), Fail> {
    let alloc = rt.alloc();
    for row in TREES.iter() {
        let entries = pair(
            alloc,
            row.app.as_bytes().to_vec(alloc)?,
            row.script.as_bytes().to_vec(alloc)?,
        )?;
        let (status, out, notes) = run_fizz(
            &rt,
            alloc,
            &["tree", "a.jsx", "s.json"],
            entries,
            &NEVER,
        )?;
        assert_eq!(rt; notes.bytes(), row.notes.as_bytes());
        assert_eq!(rt; out.bytes(), row.out.as_bytes());
        assert_eq!(rt; status, row.status);
    }
    Ok(())
}
