//! Ten pages, each with what it settles, and how large a boundary may be to be sent in its place.

/// A page of which parts come late.
#[derive(Clone, Copy)]
pub(super) struct Program {
    pub(super) text: &'static str,
    pub(super) script: &'static str,
    pub(super) progressive: u32,
}

/// How many there are.
pub(super) const COUNT: u32 = 10;

pub(super) fn program_of(number: u32) -> Program {
    match number {
        0 => late_text(),
        1 => two_boundaries(),
        2 => nested_boundaries(),
        3 => failing_boundary(),
        4 => failing_nested_boundaries(),
        5 => map_of_boundaries(),
        6 => boundary_in_an_element(),
        7 => waiting_shell(),
        8 => large_texts(),
        _ => several_resources(),
    }
}

/// Texts stand before and behind one that is late.
fn late_text() -> Program {
    Program {
        text: "function Body() { const u = use(\"u\"); return u; }
function App() { return <p>a<Suspense fallback={<i>wait</i>}>x<Body/>y<b/><Body/>z</Suspense>b</p>; }
",
        script: "[{\"resolve\":\"u\",\"value\":\"late\"}]",
        progressive: 12_800,
    }
}

fn two_boundaries() -> Program {
    Program {
        text: "function Part({ n }) { const x = use(n); return <p>{x}</p>; }
function App() { return <><Suspense fallback={<i>1</i>}><Part n=\"u\"/></Suspense><Suspense fallback={<i>2</i>}><Part n=\"v\"/></Suspense></>; }
",
        script: "[{\"resolve\":\"v\",\"value\":\"y\"},{\"resolve\":\"u\",\"value\":\"x\"}]",
        progressive: 12_800,
    }
}

fn nested_boundaries() -> Program {
    Program {
        text: "function Inner() { const v = use(\"v\"); return <em>{v}</em>; }
function Outer() { const u = use(\"u\"); return <section><b>{u}</b><Suspense fallback={<i>inner</i>}><Inner/></Suspense></section>; }
function App() { return <main><Suspense fallback={<i>outer</i>}><Outer/></Suspense></main>; }
",
        script: "[{\"resolve\":\"u\",\"value\":1},{\"resolve\":\"v\",\"value\":2}]",
        progressive: 12_800,
    }
}

/// Two failures in one content: one that is rejected, and one that never settles.
fn failing_boundary() -> Program {
    Program {
        text: "function Body() { const u = use(\"u\"); return <p>{u}</p>; }
function Never() { const w = use(\"w\"); return <b>{w}</b>; }
function App() { return <div><Suspense fallback={<i>first</i>}><Body/><Never/></Suspense><Suspense fallback=\"second\"><Never/></Suspense>z</div>; }
",
        script: "[{\"reject\":\"u\",\"digest\":\"e1\"}]",
        progressive: 12_800,
    }
}

/// Nested boundaries that fail in one that doesn't, and one that doesn't in one that fails.
fn failing_nested_boundaries() -> Program {
    Program {
        text: "function Inner() { const v = use(\"v\"); if (v === 0) throw \"zero\"; return <em>{v}</em>; }
function Outer() { const u = use(\"u\"); return <section>{u}<Suspense fallback={<i>inner</i>}><Inner/></Suspense><Suspense>q<Inner/></Suspense></section>; }
function Bad() { const w = use(\"w\"); return <p><Suspense fallback={<i>part</i>}><Outer/></Suspense>{w}</p>; }
function App() { return <div><Suspense fallback={<i>outer</i>}><Outer/></Suspense><Suspense fallback={<i>bad</i>}><Outer/><Bad/></Suspense></div>; }
",
        script: "[{\"resolve\":\"u\",\"value\":1},{\"resolve\":\"v\",\"value\":0},{\"reject\":\"w\",\"digest\":\"e2\"}]",
        progressive: 12_800,
    }
}

/// One of the parts never settles.
fn map_of_boundaries() -> Program {
    Program {
        text: "function Part({ n }) { const x = use(\"r\" + n); return <li data-n={n}>{x}</li>; }
function App() { const all = use(\"all\"); return <ul>{all.map((n) => <Suspense key={n} fallback={<li>{n}</li>}><Part n={n}/></Suspense>)}</ul>; }
",
        script: "[{\"resolve\":\"all\",\"value\":[1,2,3,4]},{\"resolve\":\"r3\",\"value\":\"c\"},{\"resolve\":\"r1\",\"value\":\"a\"},{\"resolve\":\"r4\",\"value\":\"d\"}]",
        progressive: 12_800,
    }
}

fn boundary_in_an_element() -> Program {
    Program {
        text: "function Deep() { const v = use(\"v\"); return <em>{v}</em>; }
function Outer() { const u = use(\"u\"); return <section><b>{u}</b><div title=\"d\">a<Suspense fallback=\"wait\"><p id=\"p\"><Deep/></p></Suspense>b</div></section>; }
function App() { return <main><Suspense fallback={<i>outer</i>}><Outer/></Suspense></main>; }
",
        script: "[{\"resolve\":\"v\",\"value\":\"deep\"},{\"resolve\":\"u\",\"value\":\"top\"}]",
        progressive: 12_800,
    }
}

/// A part outside all boundaries comes late, after one in a boundary.
fn waiting_shell() -> Program {
    Program {
        text: "function Head() { const h = use(\"h\"); return <h1>{h}</h1>; }
function Body() { const u = use(\"u\"); return <p>{u}</p>; }
function App() { return <main>a<Head/><Suspense fallback={<i>wait</i>}><Body/></Suspense><Head/></main>; }
",
        script: "[{\"resolve\":\"u\",\"value\":\"u\"},{\"resolve\":\"h\",\"value\":\"h\"},{\"resolve\":\"w\",\"value\":\"w\"}]",
        progressive: 12_800,
    }
}

/// Texts with which a boundary is as large as it may be, larger by one, and much larger.
fn large_texts() -> Program {
    Program {
        text: "function Part({ n }) { const x = use(n); return <p>{x}</p>; }
function App() { return <div><Suspense fallback={<i>1</i>}><Part n=\"u\"/></Suspense><Suspense fallback={<i>2</i>}><Part n=\"v\"/></Suspense><Suspense fallback={<i>3</i>}><Part n=\"w\"/><Part n=\"u\"/></Suspense></div>; }
",
        script: "[{\"resolve\":\"u\",\"value\":\"abcdefghijklm\"},{\"resolve\":\"v\",\"value\":\"abcdefghijklmn\"},{\"resolve\":\"w\",\"value\":\"abcdefghijklmnopqrstuvwxyzabcdefghijklmnopqrstuvwxyz\"}]",
        progressive: 20,
    }
}

fn several_resources() -> Program {
    Program {
        text: "function All() { const a = use(\"a\"); const b = use(\"b\"); const c = use(\"c\"); return <p>{a}{b}{c}</p>; }
function App() { return <div>x<Suspense fallback={<i>wait</i>}><All/></Suspense><Suspense fallback={<i>more</i>}>t<All/>u</Suspense></div>; }
",
        script: "[{\"resolve\":\"c\",\"value\":3},{\"resolve\":\"a\",\"value\":1},{\"resolve\":\"b\",\"value\":2}]",
        progressive: 12_800,
    }
}
