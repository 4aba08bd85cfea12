use crate::Queues;
use fizz_boundary::{Boundaries, Part, Status};
use fizz_segment::{Flags, SegId, Segments};
use fizz_text::{Path, Text};
use std::alloc::Global;
use std::test::Fail;

fn rc() -> &'static str {
    "$RC=function(b,s){s=document.getElementById(s);s.parentNode.removeChild(s);b=document.getElementById(b);if(b){var o=b.previousSibling,p=o.parentNode,n=b,d=0,t;for(;n;n=t){t=n.nextSibling;if(n.nodeType===8){var x=n.data;if(x===\"/$\"){if(d===0)break;d--}else if(x===\"$\"||x===\"$?\"||x===\"$!\")d++}p.removeChild(n)}for(;s.firstChild;)p.insertBefore(s.firstChild,n);o.data=\"$\"}};"
}

fn rs() -> &'static str {
    "$RS=function(s,p){s=document.getElementById(s);p=document.getElementById(p);for(s.parentNode.removeChild(s);s.firstChild;)p.parentNode.insertBefore(s.firstChild,p);p.parentNode.removeChild(p)};"
}

const CLEAR: Flags = Flags {
    lead: false,
    embedded: false,
};

fn bytes(alloc: Global, text: &str) -> Result<Vec<u8>, Fail> {
    Ok(Vec::from_slice(alloc, text.as_bytes())?)
}

/// A page whose shell is one boundary with the fallback `<i>wait</i>`, and the segment of its content.
fn streamed_page(alloc: Global) -> Result<(Segments, Boundaries, Queues, SegId), Fail> {
    let mut segments = Segments::new(alloc);
    segments.reserve(4)?;
    let mut boundaries = Boundaries::new(alloc);
    boundaries.reserve(1)?;
    let shell = segments.add_root(None);
    let content = segments.add_root(Some(0));
    let site = segments.add_site(shell, 0, 0);
    boundaries.add(Path::new(alloc), None, content, Some(site));
    segments.complete(shell, CLEAR, Vec::new(alloc));
    segments.complete(site, CLEAR, bytes(alloc, "<i>wait</i>")?);
    let mut queues = Queues::new(alloc, 0, Some(shell));
    queues.make_queues()?;
    queues.reserve(4, 1)?;
    queues.add_segment();
    queues.add_segment();
    queues.add_segment();
    queues.add_segment();
    queues.add_boundary();
    Ok((segments, boundaries, queues, content))
}

/// What one flush writes.
fn flushed(
    alloc: Global,
    segments: &mut Segments,
    boundaries: &mut Boundaries,
    queues: &mut Queues,
    progressive: u32,
) -> Result<Vec<u8>, Fail> {
    let mut out = Vec::new(alloc);
    queues.flush(
        alloc,
        segments,
        boundaries,
        &Text::fixed(""),
        progressive,
        0,
        &mut out,
    )?;
    Ok(out)
}

/// Gives a segment of the boundary its bytes, and counts its task. `None` where the page can't take them.
fn complete(
    alloc: Global,
    segments: &mut Segments,
    boundaries: &mut Boundaries,
    queues: &mut Queues,
    segment: SegId,
    html: &str,
) -> Result<Option<Part>, Fail> {
    let html = bytes(alloc, html)?;
    let size = html.len() as u64;
    if !queues.has_places(segment, 0) {
        return Ok(None);
    }
    if !segments.is_live(segment) {
        return Ok(None);
    }
    if segments.look(segment).bytes.is_some() {
        return Ok(None);
    }
    if boundaries.next() == 0 {
        return Ok(None);
    }
    let Status::Pending { tasks: _ } = boundaries.status(0) else {
        return Ok(None);
    };
    segments.complete(segment, CLEAR, html);
    let part = boundaries.part_done(0, size);
    queues.segment_done(segments, boundaries, segment, Some(0));
    Ok(Some(part))
}

/// A hole at a place of the content, with a task of its own.
fn with_hole(
    segments: &mut Segments,
    boundaries: &mut Boundaries,
    content: SegId,
    place: usize,
) -> Option<SegId> {
    if !segments.is_live(content) {
        return None;
    }
    if segments.spare() == 0 {
        return None;
    }
    if boundaries.next() == 0 {
        return None;
    }
    let Status::Pending { tasks } = boundaries.status(0) else {
        return None;
    };
    if tasks == u32::MAX {
        return None;
    }
    boundaries.part_added(0);
    Some(segments.add_child(content, place, CLEAR))
}

fn fail(boundaries: &mut Boundaries, digest: &'static str) {
    if boundaries.next() == 0 {
        return;
    }
    let Status::Pending { tasks: _ } = boundaries.status(0) else {
        return;
    };
    boundaries.fail(0, Text::fixed(digest));
}

fn waiting() -> &'static str {
    "<!--$?--><template id=\"B:0\"></template><i>wait</i><!--/$-->"
}

#[test]
fn late_content_comes_in_a_container_and_is_revealed(rt: HostRuntime) -> Result<(), Fail> {
    let alloc = rt.alloc();
    let (mut segments, mut boundaries, mut queues, content) = streamed_page(alloc)?;
    let first = flushed(alloc, &mut segments, &mut boundaries, &mut queues, 12_800)?;
    assert_eq!(rt; first.as_slice(), waiting().as_bytes());
    let part = complete(
        alloc,
        &mut segments,
        &mut boundaries,
        &mut queues,
        content,
        "<p>x</p>",
    )?;
    assert_eq!(rt; part, Some(Part::Complete));
    let second = flushed(alloc, &mut segments, &mut boundaries, &mut queues, 12_800)?;
    let wanted = format!(in alloc;
        "<div hidden id=\"S:0\"><p>x</p></div><script>{}$RC(\"B:0\",\"S:0\")</script>",
        rc()
    )?;
    assert_eq!(rt; second.as_slice(), wanted.as_bytes());
    assert!(rt; queues.is_empty());
    assert_eq!(rt; queues.next(), 1);
    Ok(())
}

#[test]
fn content_that_is_there_stands_in_its_place(rt: HostRuntime) -> Result<(), Fail> {
    let alloc = rt.alloc();
    let (mut segments, mut boundaries, mut queues, content) = streamed_page(alloc)?;
    complete(
        alloc,
        &mut segments,
        &mut boundaries,
        &mut queues,
        content,
        "<p>x</p>",
    )?;
    let out = flushed(alloc, &mut segments, &mut boundaries, &mut queues, 8)?;
    assert_eq!(rt; out.as_slice(), b"<!--$--><p>x</p><!--/$-->".as_slice());
    Ok(())
}

#[test]
fn larger_content_comes_after_its_fallback(rt: HostRuntime) -> Result<(), Fail> {
    let alloc = rt.alloc();
    let (mut segments, mut boundaries, mut queues, content) = streamed_page(alloc)?;
    complete(
        alloc,
        &mut segments,
        &mut boundaries,
        &mut queues,
        content,
        "<p>x</p>",
    )?;
    let out = flushed(alloc, &mut segments, &mut boundaries, &mut queues, 7)?;
    let wanted = format!(in alloc;
        "{}<div hidden id=\"S:0\"><p>x</p></div><script>{}$RC(\"B:0\",\"S:0\")</script>",
        waiting(),
        rc()
    )?;
    assert_eq!(rt; out.as_slice(), wanted.as_bytes());
    Ok(())
}

#[test]
fn a_placeholder_is_filled_by_its_segment(rt: HostRuntime) -> Result<(), Fail> {
    let alloc = rt.alloc();
    let (mut segments, mut boundaries, mut queues, content) = streamed_page(alloc)?;
    flushed(alloc, &mut segments, &mut boundaries, &mut queues, 12_800)?;
    let inner = with_hole(&mut segments, &mut boundaries, content, 17).unwrap_or(SegId(9));
    let html = "<section><b>1</b></section>";
    let part = complete(
        alloc,
        &mut segments,
        &mut boundaries,
        &mut queues,
        content,
        html,
    )?;
    assert_eq!(rt; part, Some(Part::Waiting));
    let second = flushed(alloc, &mut segments, &mut boundaries, &mut queues, 12_800)?;
    assert_eq!(rt;
        second.as_slice(),
        b"<div hidden id=\"S:0\"><section><b>1</b><template id=\"P:1\"></template></section></div>".as_slice()
    );
    complete(
        alloc,
        &mut segments,
        &mut boundaries,
        &mut queues,
        inner,
        "<em>2</em>",
    )?;
    let third = flushed(alloc, &mut segments, &mut boundaries, &mut queues, 12_800)?;
    let wanted = format!(in alloc;
        "<div hidden id=\"S:1\"><em>2</em></div><script>{}$RS(\"S:1\",\"P:1\")</script><script>{}$RC(\"B:0\",\"S:0\")</script>",
        rs(),
        rc()
    )?;
    assert_eq!(rt; third.as_slice(), wanted.as_bytes());
    Ok(())
}

#[test]
fn failed_content_leaves_its_fallback(rt: HostRuntime) -> Result<(), Fail> {
    let alloc = rt.alloc();
    let (mut segments, mut boundaries, mut queues, _) = streamed_page(alloc)?;
    fail(&mut boundaries, "e1");
    let out = flushed(alloc, &mut segments, &mut boundaries, &mut queues, 12_800)?;
    assert_eq!(rt;
        out.as_slice(),
        b"<!--$!--><template data-dgst=\"e1\"></template><i>wait</i><!--/$-->".as_slice()
    );
    Ok(())
}

#[test]
fn content_that_fails_late_gets_its_instruction(rt: HostRuntime) -> Result<(), Fail> {
    let alloc = rt.alloc();
    let (mut segments, mut boundaries, mut queues, _) = streamed_page(alloc)?;
    let out = flushed(alloc, &mut segments, &mut boundaries, &mut queues, 12_800)?;
    assert_eq!(rt; out.as_slice(), waiting().as_bytes());
    fail(&mut boundaries, "e2");
    queues.drop_boundary(0);
    queues.boundary_failed(&boundaries, 0);
    let out = flushed(alloc, &mut segments, &mut boundaries, &mut queues, 12_800)?;
    assert!(rt; out.as_slice().starts_with(b"<script>$RX=function(b,d){"));
    assert!(rt; out.as_slice().ends_with(b"};$RX(\"B:0\",\"e2\")</script>"));
    Ok(())
}

#[test]
fn a_budget_ends_a_flush_after_a_unit(rt: HostRuntime) -> Result<(), Fail> {
    let alloc = rt.alloc();
    let (mut segments, mut boundaries, mut queues, content) = streamed_page(alloc)?;
    complete(
        alloc,
        &mut segments,
        &mut boundaries,
        &mut queues,
        content,
        "<p>x</p>",
    )?;
    let mut out = Vec::new(alloc);
    let prefix = Text::fixed("r-");
    let more = queues.flush(
        alloc,
        &mut segments,
        &mut boundaries,
        &prefix,
        0,
        1,
        &mut out,
    )?;
    assert!(rt; more);
    assert_eq!(rt;
        out.as_slice(),
        b"<!--$?--><template id=\"r-B:0\"></template><i>wait</i><!--/$-->".as_slice()
    );
    Ok(())
}

/// So many segments, each in the one before, with one byte each.
fn nested(alloc: Global, count: u32) -> Result<(Segments, SegId), Fail> {
    let mut segments = Segments::new(alloc);
    segments.reserve(count)?;
    if segments.spare() == 0 {
        return Ok((segments, SegId(0)));
    }
    let shell = segments.add_root(None);
    let mut last = shell;
    for _ in 1..count {
        if segments.spare() > 0 {
            if segments.is_live(last) {
                last = segments.add_child(last, 0, CLEAR);
            }
        }
    }
    Ok((segments, shell))
}

fn complete_all(alloc: Global, segments: &mut Segments, count: u32) -> Result<(), Fail> {
    for number in 0..count {
        let id = SegId(number);
        if segments.is_live(id) {
            if segments.look(id).bytes.is_none() {
                segments.complete(id, CLEAR, bytes(alloc, "a")?);
            }
        }
    }
    Ok(())
}

#[test]
fn segments_nest_deep_without_recursion(rt: HostRuntime) -> Result<(), Fail> {
    let alloc = rt.alloc();
    let (mut segments, shell) = nested(alloc, 100_000)?;
    complete_all(alloc, &mut segments, 100_000)?;
    let mut boundaries = Boundaries::new(alloc);
    let mut queues = Queues::new(alloc, 0, Some(shell));
    let out = flushed(alloc, &mut segments, &mut boundaries, &mut queues, 0)?;
    assert_eq!(rt; out.len(), 100_000);
    Ok(())
}
