//! Whole files.

use crate::{LexFault, LexKind, lex};

/// Whole files, with the number of their tokens.
static FILES: [(&str, usize); 6] = [
    (
        "function App() { return <div className=\"a\">Hi</div>; }\n",
        18,
    ),
    (
        "function App() { return <p>{\"a\"}{\"b\"}{\"\"}{3}</p>; }\n",
        26,
    ),
    (
        "function App() { return <p title={\"\\\"&'<>\"}></p>; }\n",
        19,
    ),
    (
        "function Comment({ c }) { return <li data-id={c.id}><b>{c.author}</b>: {c.text}</li>; }\nfunction Comments({ post }) { const list = use(\"comments:\" + post); return list.length === 0 ? <p>No comments yet.</p> : <ul>{list.map((c) => <Comment key={c.id} c={c}/>)}</ul>; }\nfunction Article() { const a = use(\"post:42\"); return <article><h1>{a.title}</h1><p>{a.body}</p><Suspense fallback={<p className=\"wait\">Loading comments</p>}><Comments post={42}/></Suspense></article>; }\nfunction App() { return <main id=\"page\"><header>Blog &amp; News</header><Suspense fallback={<p className=\"wait\">Loading</p>}><Article/></Suspense></main>; }\n",
        227,
    ),
    ("function App() { return <p>{x}</p>; }\n", 17),
    (
        "function App() { return <B/>; }\nfunction B() { return null; }\n",
        20,
    ),
];

#[test]
fn whole_files(rt: HostRuntime) {
    for (text, count) in FILES {
        match lex(rt.alloc(), text.as_bytes()) {
            Ok(tokens) => assert_eq!(rt; tokens.len(), count, "tokens of {text}"),
            Err(fault) => assert!(rt; false, "{fault:?} of {text}"),
        }
    }
    match lex(rt.alloc(), b"function App() { return <p>; }\n") {
        Err(LexFault::Bad { at, kind }) => assert!(rt; at == 29 && kind == LexKind::Bare),
        _ => assert!(rt; false, "a brace in the text"),
    }
}
