ghost use Rattle.std.specs.Prelude.{◌≡◌, ◌≤◌, IfOk};
ghost use Rattle.page_generator.specs.Pages.{program, script_of};

use crate::draws::Draws;
use crate::groups::push_groups_line;
use crate::leaves::{picks_of, push_leaf_lines};
use fizz_text::{OutOfMemory, Text};
use std::alloc::Global;

/// The component file of every page.
const PROGRAM: &str =
    r#"function Leaf({ n }) { const v = use("r" + n); if (v === 0) throw "zero"; return <li data-n={n}>{v}</li>; }
function Group({ g }) { return <Suspense fallback={<i>wait</i>}><ul>{g.items.map((n) => <Leaf n={n}/>)}</ul></Suspense>; }
function App() { const all = use("all"); return <main>{all.map((g) => <Group g={g}/>)}</main>; }
"#;

/// A page: the component file, and the settling script.
#[derive(Debug, Drop)]
pub struct Generated {
    pub app: Text,
    pub script: Vec<u8>,
}

/// The page of this seed that has `size` leaves. The time that it takes is in proportion to its size.
pub fn generate(alloc: Global, seed: u64, size: u32) -> Result<Generated, OutOfMemory>
    requires some { 1 ≤ size }
    requires few { size ≤ 50000 }
    ensures app { IfOk result (λ page. page.app ≡ program) }
    ensures script { IfOk result (λ page. page.script.items ≡ script_of seed size) }
{
    let script = script_bytes(alloc, seed, size)?;
    Ok(Generated {
        app: program_text(),
        script,
    })
}

#[tactic(auto, unfolding(crate::specs::Pages::program))]
fn program_text() -> Text
    ensures { result ≡ program }
{
    Text::fixed(PROGRAM)
}

#[tactic(auto, unfolding(crate::specs::Pages::script_of))]
fn script_bytes(alloc: Global, seed: u64, size: u32) -> Result<Vec<u8>, OutOfMemory>
    requires some { 1 ≤ size }
    requires few { size ≤ 50000 }
    ensures { IfOk result (λ script. script.items ≡ script_of seed size) }
{
    let mut draws = Draws::from_seed(seed);
    let mut script = Vec::from_slice(alloc, b"[")?;
    push_groups_line(&mut script, &mut draws, size)?;
    let picks = picks_of(alloc, &mut draws, size)?;
    push_leaf_lines(&mut script, &picks)?;
    script.push(b']')?;
    Ok(script)
}
