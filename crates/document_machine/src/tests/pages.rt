//! Pages as bytes: cut at each place, seen before they end, and refused.

ghost use Rattle.std.specs.Prelude.{◌+◌, ◌<◌, ◌≤◌, ◌^◌, length};
ghost use Rattle.document_machine.specs.MachineState.{bytes_fed};

use super::views::push_parts;
use crate::{Machine, MachineFault, View};
use fizz_text::Text;
use std::alloc::{AllocError, Global};
use std::process::Abort;
use std::test::Fail;

/// A segment comes late, and a part of it later still.
const LATE: &str =
    r#"<!--$?--><template id="B:0"></template><i>wait</i><!--/$--><div hidden id="S:0"><section><b>1</b><template id="P:1"></template></section></div><div hidden id="S:1"><em>2</em></div><script>$RS=function(s,p){s=document.getElementById(s);p=document.getElementById(p);for(s.parentNode.removeChild(s);s.firstChild;)p.parentNode.insertBefore(s.firstChild,p);p.parentNode.removeChild(p)};$RS("S:1","P:1")</script><script>$RC=function(b,s){s=document.getElementById(s);s.parentNode.removeChild(s);b=document.getElementById(b);if(b){var o=b.previousSibling,p=o.parentNode,n=b,d=0,t;for(;n;n=t){t=n.nextSibling;if(n.nodeType===8){var x=n.data;if(x==="/$"){if(d===0)break;d--}else if(x==="$"||x==="$?"||x==="$!")d++}p.removeChild(n)}for(;s.firstChild;)p.insertBefore(s.firstChild,n);o.data="$"}};$RC("B:0","S:0")</script>"#;

/// The content of a boundary fails after a part of it came.
const FAILED: &str =
    r#"<!--$?--><template id="B:0"></template><i>wait</i><!--/$--><div hidden id="S:0"><section><b>1</b><template id="P:1"></template></section></div><script>$RX=function(b,d){b=document.getElementById(b);if(b){b.previousSibling.data="$!";if(d)b.dataset.dgst=d}};$RX("B:0","e2")</script>"#;

/// What a page has before late content comes.
const SHELL: &str = r#"<!--$?--><template id="B:0"></template><i>wait</i><!--/$-->"#;

/// Runs a page in two pieces.
fn run(alloc: Global, first: &[u8], second: &[u8]) -> Result<View, MachineFault> {
    let mut machine = Machine::new(alloc, Text::fixed(""));
    if first.len() < 65_536 && second.len() < 65_536 {
        machine.feed(first)?;
        machine.feed(second)?;
    }
    machine.finish()
}

/// A view in one line, or a fault as its name and fields.
fn told(alloc: Global, outcome: Result<View, MachineFault>) -> Result<String, Fail> {
    match outcome {
        Ok(view) => outline(alloc, &view),
        Err(fault) => Ok(fault_text(alloc, &fault)?),
    }
}

fn outline(alloc: Global, view: &View) -> Result<String, Fail> {
    let mut out = Vec::new(alloc);
    push_parts(&mut out, view.parts.as_slice())?;
    match String::from_utf8(out) {
        Ok(text) => Ok(text),
        Err(_) => Err(Fail::from("no text")),
    }
}

fn fault_text(alloc: Global, fault: &MachineFault) -> Result<String, AllocError> {
    match fault {
        MachineFault::Html { at } => format!(in alloc; "Html {at}"),
        MachineFault::UnknownFunction { at } => format!(in alloc; "UnknownFunction {at}"),
        MachineFault::NoSuchId { at, id } => format!(in alloc; "NoSuchId {at} {}", id.as_str()),
        MachineFault::NotBoundary { at } => format!(in alloc; "NotBoundary {at}"),
        MachineFault::OutOfMemory => format!(in alloc; "OutOfMemory"),
    }
}

#[test]
fn a_page_may_be_cut_anywhere(rt: HostRuntime) -> Result<(), Fail> {
    check_cuts(&rt, rt.alloc(), LATE.as_bytes(), "$[section(b('1) em('2))]")?;
    check_cuts(&rt, rt.alloc(), FAILED.as_bytes(), "!e2[i('wait)]")
}

fn check_cuts(rt: &impl Abort, alloc: Global, page: &[u8], wanted: &str) -> Result<(), Fail> {
    for cut in 0..page.len() {
        let (first, second) = page.split_at(cut);
        let seen = told(alloc, run(alloc, first, second))?;
        assert_eq!(rt; seen.as_str(), wanted, "cut at {cut}");
    }
    Ok(())
}

/// Each page with what is seen of it, or with its fault.
static PAGES: [(&str, &str); 24] = [
    ("", ""),
    ("a&amp;b", "'a&b"),
    ("<p>a<!-- -->b</p>", "p('a 'b)"),
    ("<br></br><hr/>", "br() hr()"),
    (SHELL, "?[i('wait)]"),
    ("<p>x", "Html 4"),
    ("<p>x</p", "Html 4"),
    ("<p>x</p><", "Html 8"),
    ("abc&am", "Html 0"),
    ("<p>x</b>", "Html 4"),
    ("x</p>", "Html 1"),
    ("<p>x</blink>", "Html 8"),
    ("<p>\u{e9}</p>>", "Html 9"),
    ("<script>alert(1)</script>", "Html 0"),
    (
        "<p></p><script>$RC(\"B:0\",\"S:0\")</script>",
        "UnknownFunction 7",
    ),
    (
        r#"<script>$RC=function(b,s){s=document.getElementById(s);s.parentNode.removeChild(s);b=document.getElementById(b);if(b){var o=b.previousSibling,p=o.parentNode,n=b,d=0,t;for(;n;n=t){t=n.nextSibling;if(n.nodeType===8){var x=n.data;if(x==="/$"){if(d===0)break;d--}else if(x==="$"||x==="$?"||x==="$!")d++}p.removeChild(n)}for(;s.firstChild;)p.insertBefore(s.firstChild,n);o.data="$"}};$RC("B:0","S:0")</script>"#,
        "NoSuchId 0 S:0",
    ),
    (
        r#"<div id="S:1"></div><script>$RS=function(s,p){s=document.getElementById(s);p=document.getElementById(p);for(s.parentNode.removeChild(s);s.firstChild;)p.parentNode.insertBefore(s.firstChild,p);p.parentNode.removeChild(p)};$RS("S:1","P:1")</script>"#,
        "NoSuchId 20 P:1",
    ),
    (
        r#"<i></i><template id="B:0"></template><div id="S:0"></div><script>$RC=function(b,s){s=document.getElementById(s);s.parentNode.removeChild(s);b=document.getElementById(b);if(b){var o=b.previousSibling,p=o.parentNode,n=b,d=0,t;for(;n;n=t){t=n.nextSibling;if(n.nodeType===8){var x=n.data;if(x==="/$"){if(d===0)break;d--}else if(x==="$"||x==="$?"||x==="$!")d++}p.removeChild(n)}for(;s.firstChild;)p.insertBefore(s.firstChild,n);o.data="$"}};$RC("B:0","S:0")</script>"#,
        "NotBoundary 57",
    ),
    (
        r#"<i></i><template id="B:0"></template><script>$RX=function(b,d){b=document.getElementById(b);if(b){b.previousSibling.data="$!";if(d)b.dataset.dgst=d}};$RX("B:0")</script>"#,
        "NotBoundary 37",
    ),
    (
        r#"<script>$RX=function(b,d){b=document.getElementById(b);if(b){b.previousSibling.data="$!";if(d)b.dataset.dgst=d}};$RX("B:0","d")</script>a"#,
        "'a",
    ),
    (
        r#"<div hidden id="S:0">x</div><script>$RC=function(b,s){s=document.getElementById(s);s.parentNode.removeChild(s);b=document.getElementById(b);if(b){var o=b.previousSibling,p=o.parentNode,n=b,d=0,t;for(;n;n=t){t=n.nextSibling;if(n.nodeType===8){var x=n.data;if(x==="/$"){if(d===0)break;d--}else if(x==="$"||x==="$?"||x==="$!")d++}p.removeChild(n)}for(;s.firstChild;)p.insertBefore(s.firstChild,n);o.data="$"}};$RC("B:0","S:0")</script>"#,
        "",
    ),
    (
        r#"<div hidden id="S:0">x<script>$RC=function(b,s){s=document.getElementById(s);s.parentNode.removeChild(s);b=document.getElementById(b);if(b){var o=b.previousSibling,p=o.parentNode,n=b,d=0,t;for(;n;n=t){t=n.nextSibling;if(n.nodeType===8){var x=n.data;if(x==="/$"){if(d===0)break;d--}else if(x==="$"||x==="$?"||x==="$!")d++}p.removeChild(n)}for(;s.firstChild;)p.insertBefore(s.firstChild,n);o.data="$"}};$RC("B:0","S:0")</script></div>"#,
        "NoSuchId 22 S:0",
    ),
    (
        r#"<!--$?--><template id="B:0"></template>a<!--/$--><script>$RX=function(b,d){b=document.getElementById(b);if(b){b.previousSibling.data="$!";if(d)b.dataset.dgst=d}};$RX("B:0")</script><script>$RX("B:0","d")</script>"#,
        "!d['a]",
    ),
    (
        r#"<div hidden id="S:0"><b></b></div><!--$!--><template data-dgst="e" id="B:0"></template>a<!--/$-->b<script>$RC=function(b,s){s=document.getElementById(s);s.parentNode.removeChild(s);b=document.getElementById(b);if(b){var o=b.previousSibling,p=o.parentNode,n=b,d=0,t;for(;n;n=t){t=n.nextSibling;if(n.nodeType===8){var x=n.data;if(x==="/$"){if(d===0)break;d--}else if(x==="$"||x==="$?"||x==="$!")d++}p.removeChild(n)}for(;s.firstChild;)p.insertBefore(s.firstChild,n);o.data="$"}};$RC("B:0","S:0")</script>"#,
        "$[b()] 'b",
    ),
];

#[test]
fn pages_are_seen_or_refused(rt: HostRuntime) -> Result<(), Fail> {
    check_pages(&rt, rt.alloc(), &PAGES)
}

fn check_pages(rt: &impl Abort, alloc: Global, pages: &[(&str, &str)]) -> Result<(), Fail> {
    for (page, wanted) in pages {
        let seen = told(alloc, run(alloc, page.as_bytes(), b""))?;
        assert_eq!(rt; seen.as_str(), *wanted, "{page}");
    }
    Ok(())
}

/// Each beginning of a page with what is seen of it then.
static BEGINNINGS: [(&str, &str); 5] = [
    ("<p>x", "p('x)"),
    ("<p>x<", "p('x)"),
    ("<p>x&am", "p()"),
    ("<p>x</p", "p('x)"),
    ("a<!-- -->", "'a"),
];

#[test]
fn pages_are_seen_before_they_end(rt: HostRuntime) -> Result<(), Fail> {
    check_beginnings(&rt, rt.alloc(), &BEGINNINGS)
}

fn check_beginnings(
    rt: &impl Abort,
    alloc: Global,
    beginnings: &[(&str, &str)],
) -> Result<(), Fail> {
    for (page, wanted) in beginnings {
        let mut machine = Machine::new(alloc, Text::fixed(""));
        let piece = page.as_bytes();
        if piece.len() < 65_536 && machine.feed(piece).is_ok() {
            assert_eq!(rt;
                outline(alloc, &machine.view()?)?.as_str(),
                *wanted,
                "{page}"
            );
        }
    }
    Ok(())
}

/// Names a container that is not there, in a page with a prefix.
const LOST: &str =
    r#"<p></p><script>$RC=function(b,s){s=document.getElementById(s);s.parentNode.removeChild(s);b=document.getElementById(b);if(b){var o=b.previousSibling,p=o.parentNode,n=b,d=0,t;for(;n;n=t){t=n.nextSibling;if(n.nodeType===8){var x=n.data;if(x==="/$"){if(d===0)break;d--}else if(x==="$"||x==="$?"||x==="$!")d++}p.removeChild(n)}for(;s.firstChild;)p.insertBefore(s.firstChild,n);o.data="$"}};$RC("r-B:0","r-S:a")</script>"#;

/// The fault of a piece.
fn refusal(alloc: Global, machine: &mut Machine, piece: &[u8]) -> Result<String, Fail>
    requires { bytes_fed machine.old + length piece.now < 2 ^ 63 }
    ensures { bytes_fed machine.new ≤ bytes_fed machine.old + length piece.now }
{
    match machine.feed(piece) {
        Ok(()) => Err(Fail::from("taken")),
        Err(fault) => Ok(fault_text(alloc, &fault)?),
    }
}

#[test]
fn a_fault_is_answered_again(rt: HostRuntime) -> Result<(), Fail> {
    let alloc = rt.alloc();
    let mut machine = Machine::new(alloc, Text::fixed("r-"));
    let lost = LOST.as_bytes();
    if lost.len() < 65_536 {
        let first = refusal(alloc, &mut machine, lost)?;
        let again = refusal(alloc, &mut machine, lost)?;
        assert_eq!(rt; first.as_str(), "NoSuchId 7 r-S:a");
        assert_eq!(rt; again.as_str(), "NoSuchId 7 r-S:a");
    }
    let end = told(alloc, machine.finish())?;
    assert_eq!(rt; end.as_str(), "NoSuchId 7 r-S:a");
    Ok(())
}

/// So many elements in one another.
fn nested(alloc: Global, depth: usize) -> Result<Vec<u8>, Fail> {
    let mut page = Vec::new(alloc);
    for _ in 0..depth {
        page.extend_from_slice(b"<b>")?;
    }
    for _ in 0..depth {
        page.extend_from_slice(b"</b>")?;
    }
    Ok(page)
}

#[test]
fn elements_nest_to_512(rt: HostRuntime) -> Result<(), Fail> {
    let alloc = rt.alloc();
    assert!(rt; run(alloc, &nested(alloc, 512)?, b"").is_ok());
    let seen = told(alloc, run(alloc, &nested(alloc, 513)?, b""))?;
    assert_eq!(rt; seen.as_str(), "Html 1536");
    Ok(())
}
