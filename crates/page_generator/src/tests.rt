ghost use Rattle.std.specs.Prelude.{◌≤◌};

use crate::draws::Draws;
use crate::generate;
use fizz_text::OutOfMemory;
use std::alloc::Global;
use std::test::Fail;

#[test]
fn draws_of_two_seeds(rt: HostRuntime) {
    let mut draws = Draws::from_seed(0);
    for draw in [167_951_807, 218_396_424, 1_299_921_937, 861_605_236] {
        assert_eq!(rt; draws.next(), draw);
    }
    let mut others = Draws::from_seed(7);
    for draw in [1_059_165_278, 2_052_263_231, 1_946_856_753, 585_718_673] {
        assert_eq!(rt; others.next(), draw);
    }
}

#[test]
fn the_component_file(rt: HostRuntime) -> Result<(), Fail> {
    let page = generate(rt.alloc(), 0, 1)?;
    assert_eq!(rt; page.app.as_bytes().len(), 328);
    assert_eq!(rt; page.app.as_str(), component_file());
    Ok(())
}

#[test]
fn a_page_of_one_leaf(rt: HostRuntime) -> Result<(), Fail> {
    assert!(rt; is_script(rt.alloc(), 0, 1, script_of_one())?);
    Ok(())
}

#[test]
fn a_page_of_three_leaves(rt: HostRuntime) -> Result<(), Fail> {
    assert!(rt; is_script(rt.alloc(), 7, 3, script_of_three())?);
    Ok(())
}

#[test]
fn a_page_of_seventeen_leaves(rt: HostRuntime) -> Result<(), Fail> {
    assert!(rt; is_script(rt.alloc(), 1, 17, script_of_seventeen())?);
    Ok(())
}

/// Of 2,000 leaves 32 have no line.
#[test]
fn a_page_of_two_thousand_leaves(rt: HostRuntime) -> Result<(), Fail> {
    let counts = counts_of(rt.alloc(), 7, 2_000)?;
    assert_eq!(rt; counts.bytes, 76_460);
    assert_eq!(rt; counts.hash, 12_958_668_662_825_001_484);
    assert_eq!(rt; counts.leaves, 1_968);
    assert_eq!(rt; counts.works, 123);
    assert_eq!(rt; counts.flushes, 123);
    Ok(())
}

/// Of 50,000 leaves 758 have no line. The hash was computed apart from this crate.
#[test]
fn the_largest_page(rt: HostRuntime) -> Result<(), Fail> {
    let page = generate(rt.alloc(), 1, 50_000)?;
    assert_eq!(rt; page.script.len(), 2_042_534);
    assert_eq!(rt; hash_of(&page.script), 2_428_426_903_682_534_618);
    Ok(())
}

fn component_file() -> &'static str {
    r#"function Leaf({ n }) { const v = use("r" + n); if (v === 0) throw "zero"; return <li data-n={n}>{v}</li>; }
function Group({ g }) { return <Suspense fallback={<i>wait</i>}><ul>{g.items.map((n) => <Leaf n={n}/>)}</ul></Suspense>; }
function App() { const all = use("all"); return <main>{all.map((g) => <Group g={g}/>)}</main>; }
"#
}

fn script_of_one() -> &'static str {
    r#"[{"resolve":"all","value":[{"items":[0]}]},{"resolve":"r0","value":8}]"#
}

fn script_of_three() -> &'static str {
    r#"[{"resolve":"all","value":[{"items":[0,1,2]}]},{"resolve":"r1","value":49},{"resolve":"r2","value":17}]"#
}

fn script_of_seventeen() -> &'static str {
    r#"[{"resolve":"all","value":[{"items":[0,1,2,3,4,5,6]},{"items":[7,8]},{"items":[9,10,11,12,13]},{"items":[14,15,16]}]},{"resolve":"r1","value":1},{"resolve":"r3","value":4},{"resolve":"r5","value":8},{"resolve":"r7","value":0},{"resolve":"r9","value":32},{"resolve":"r11","value":12},{"resolve":"r13","value":31},{"resolve":"r15","value":3},{"resolve":"r0","value":26},{"resolve":"r2","value":26},{"resolve":"r4","value":41},{"resolve":"r6","value":9},{"resolve":"r8","value":10},{"resolve":"r10","value":8},{"resolve":"r12","value":26},{"resolve":"r14","value":20},{"work":0},{"flush":0},{"resolve":"r16","value":43}]"#
}

fn is_script(alloc: Global, seed: u64, size: u32, wanted: &str) -> Result<bool, OutOfMemory>
    requires some { 1 ≤ size }
    requires few { size ≤ 50000 }
{
    let page = generate(alloc, seed, size)?;
    Ok(page.script.as_slice() == wanted.as_bytes())
}

/// How many bytes a script has, and a hash of them, and how many lines of leaves, calls for work and flushes.
#[derive(Clone, Copy, Debug)]
struct Counts {
    bytes: usize,
    hash: u64,
    leaves: u64,
    works: u64,
    flushes: u64,
}

fn counts_of(alloc: Global, seed: u64, size: u32) -> Result<Counts, OutOfMemory>
    requires some { 1 ≤ size }
    requires few { size ≤ 50000 }
{
    let page = generate(alloc, seed, size)?;
    let script = page.script.as_slice();
    Ok(Counts {
        bytes: script.len(),
        hash: hash_of(script),
        leaves: times(script, b"{\"resolve\":\"r"),
        works: times(script, b"{\"work\":0}"),
        flushes: times(script, b"{\"flush\":0}"),
    })
}

fn hash_of(bytes: &[u8]) -> u64 {
    let mut hash = 0_u64;
    for byte in bytes {
        hash = hash.wrapping_mul(31).wrapping_add(u64::from(*byte));
    }
    hash
}

fn times(bytes: &[u8], part: &[u8]) -> u64 {
    let mut count = 0_u64;
    for at in 0..bytes.len() {
        if bytes[at..].starts_with(part) {
            count = count.wrapping_add(1);
        }
    }
    count
}
