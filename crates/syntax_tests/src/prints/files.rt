//! Whole files.

use crate::prints::{Row, files_misprinted};
use std::test::Fail;

static FILES: [Row; 7] = [
    ("", ""),
    ("// no component", ""),
    (
        "function/**/App() { return 1; }",
        "function App (){return 1 ;}",
    ),
    (
        "function App({}) { return (1); }",
        "function App (){return 1 ;}",
    ),
    (
        "function A({ a, b }) { const c = use(a || b); const d = (b + 1); return c; }",
        "function A ({a ,b }){const c = use (a ||b );const d = b +1 ;return c ;}",
    ),
    (
        "function A({ a }) { if ((a) === 0) throw (\"z\"); return <p>{a}</p>; }",
        "function A ({a }){if (a ===0 )throw \"z\";return <p >{a }</p >;}",
    ),
    (
        "function A({ a }) { return a; } function App() { return <A a=\"1\"/>; }",
        "function A ({a }){return a ;}function App (){return <A a = {\"1\"}/>;}",
    ),
];

#[test]
fn files_print(rt: HostRuntime) -> Result<(), Fail> {
    let report = files_misprinted(rt.alloc(), &FILES)?;
    assert!(&rt; report.is_empty(), "{report}");
    Ok(())
}
