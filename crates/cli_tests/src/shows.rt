ghost use Rattle.std.specs.Prelude.{◌≤◌, None, length};

use super::calls::run_fizz;
use super::pages::PAGES;
use fizz_cli::{Command, fizz_inline};
use fizz_outside::{FileBytes, Files, FilesRefused, MemoryFiles, MemorySink};
use fizz_text::Text;
use std::alloc::{AllocError, Global};
use std::test::Fail;

/// The text of the function that puts late content into its place.
const RC: &str =
    "$RC=function(b,s){s=document.getElementById(s);s.parentNode.removeChild(s);b=document.getElementById(b);if(b){var o=b.previousSibling,p=o.parentNode,n=b,d=0,t;for(;n;n=t){t=n.nextSibling;if(n.nodeType===8){var x=n.data;if(x===\"/$\"){if(d===0)break;d--}else if(x===\"$\"||x===\"$?\"||x===\"$!\")d++}p.removeChild(n)}for(;s.firstChild;)p.insertBefore(s.firstChild,n);o.data=\"$\"}};";

/// The text of the function that puts a segment into its place.
const RS: &str =
    "$RS=function(s,p){s=document.getElementById(s);p=document.getElementById(p);for(s.parentNode.removeChild(s);s.firstChild;)p.parentNode.insertBefore(s.firstChild,p);p.parentNode.removeChild(p)};";

/// The text of the function that marks content that failed.
const RX: &str =
    "$RX=function(b,d){b=document.getElementById(b);if(b){b.previousSibling.data=\"$!\";if(d)b.dataset.dgst=d}};";

/// A shell with one boundary that is pending.
const WAITS: &str = "<!--$?--><template id=\"B:0\"></template><i>wait</i><!--/$-->";

/// A call of `fizz show f.html`, and how it ends.
struct Show {
    /// The page, in parts.
    page: &'static [&'static str],
    status: u8,
    out: &'static str,
    notes: &'static str,
}

const SHOWS: [Show; 13] = [
    Show {
        page: &["<div class=\"a\">Hi</div>"],
        status: 0,
        out: "<div class=\"a\">Hi</div>",
        notes: "",
    },
    Show {
        page: &[],
        status: 0,
        out: "",
        notes: "",
    },
    Show {
        page: &["<p>a<!-- -->b<!-- -->3</p>"],
        status: 0,
        out: "<p>a<!-- -->b<!-- -->3</p>",
        notes: "",
    },
    Show {
        page: &[
            WAITS,
            "<div hidden id=\"S:0\"><p>x</p></div><script>",
            RC,
            "$RC(\"B:0\",\"S:0\")</script>",
        ],
        status: 0,
        out: "<p>x</p>",
        notes: "",
    },
    Show {
        page: &[
            WAITS,
            "<div hidden id=\"S:0\"><section><b>1</b><template id=\"P:1\"></template></section></div>",
            "<div hidden id=\"S:1\"><em>2</em></div><script>",
            RS,
            "$RS(\"S:1\",\"P:1\")</script><script>",
            RC,
            "$RC(\"B:0\",\"S:0\")</script>",
        ],
        status: 0,
        out: "<section><b>1</b><em>2</em></section>",
        notes: "",
    },
    Show {
        page: &[
            WAITS,
            "<div hidden id=\"S:0\"><section><b>1</b><template id=\"P:1\"></template></section></div><script>",
            RX,
            "$RX(\"B:0\",\"e2\")</script>",
        ],
        status: 0,
        out: "<i>wait</i>",
        notes: "",
    },
    Show {
        page: &[
            "<main id=\"page\"><header>Blog &amp; News</header><!--$?--><template id=\"B:0\"></template><p class=\"wait\">Loading</p><!--/$--></main>",
            "<div hidden id=\"S:0\"><article><h1>Fizz</h1><p>It&#x27;s out.</p><!--$?--><template id=\"B:1\"></template>",
            "<p class=\"wait\">Loading comments</p><!--/$--></article></div><script>",
            RC,
            "$RC(\"B:0\",\"S:0\")</script>",
            "<div hidden id=\"S:1\"><ul><li data-id=\"1\"><b>Ann</b>: <!-- -->&lt;3</li></ul></div><script>$RC(\"B:1\",\"S:1\")</script>",
        ],
        status: 0,
        out: "<main id=\"page\"><header>Blog &amp; News</header><article><h1>Fizz</h1><p>It&#x27;s out.</p><ul><li data-id=\"1\"><b>Ann</b>: <!-- -->&lt;3</li></ul></article></main>",
        notes: "",
    },
    Show {
        page: &["<p>x"],
        status: 4,
        out: "",
        notes: "f.html: Html at=4\n",
    },
    Show {
        page: &["<p>x</b>"],
        status: 4,
        out: "",
        notes: "f.html: Html at=4\n",
    },
    Show {
        page: &[WAITS],
        status: 4,
        out: "",
        notes: "f.html: StillPending count=1\n",
    },
    Show {
        page: &["<script>$RC(\"B:0\",\"S:0\")</script>"],
        status: 4,
        out: "",
        notes: "f.html: UnknownFunction at=0\n",
    },
    Show {
        page: &["<script>", RC, "$RC(\"B:0\",\"S:0\")</script>"],
        status: 4,
        out: "",
        notes: "f.html: NoSuchId at=0 id=S:0\n",
    },
    Show {
        page: &[
            "<template id=\"B:0\"></template><div hidden id=\"S:0\"></div><script>",
            RC,
            "$RC(\"B:0\",\"S:0\")</script>",
        ],
        status: 4,
        out: "",
        notes: "f.html: NotBoundary at=57\n",
    },
];

const NEVER: [&'static [u32]; 3] = [&[], &[], &[]];

fn joined(alloc: Global, parts: &[&'static str]) -> Result<Vec<u8>, AllocError> {
    let mut bytes = Vec::new(alloc);
    for part in parts {
        bytes.extend_from_slice(part.as_bytes())?;
    }
    Ok(bytes)
}

/// The page file `f.html`.
fn page_file(alloc: Global, page: Vec<u8>) -> Result<Vec<(Text, Vec<u8>)>, AllocError> {
    let mut entries = Vec::new(alloc);
    entries.push((Text::fixed("f.html"), page))?;
    Ok(entries)
}

#[test]
fn pages_are_shown_or_refused(rt: HostRuntime) -> Result<(), Fail> {
    let alloc = rt.alloc();
    for row in SHOWS.iter() {
        let entries = page_file(alloc, joined(alloc, row.page)?)?;
        let (status, out, notes) = run_fizz(&rt, alloc, &["show", "f.html"], entries, &NEVER)?;
        assert_eq!(rt; notes.bytes(), row.notes.as_bytes());
        assert_eq!(rt; out.bytes(), row.out.as_bytes());
        assert_eq!(rt; status, row.status);
    }
    Ok(())
}

#[test]
fn rendered_pages_are_shown_as_they_are(rt: HostRuntime) -> Result<(), Fail> {
    let alloc = rt.alloc();
    for (_, html) in PAGES.iter() {
        let entries = page_file(alloc, html.as_bytes().to_vec(alloc)?)?;
        let (status, out, _) = run_fizz(&rt, alloc, &["show", "f.html"], entries, &NEVER)?;
        assert_eq!(rt; status, 0);
        assert_eq!(rt; out.bytes(), html.as_bytes());
    }
    Ok(())
}

/// A page of several pieces, one of which ends within a character.
fn long_page(alloc: Global) -> Result<Vec<u8>, AllocError> {
    let mut page = Vec::new(alloc);
    for _ in 0..50 {
        page.extend_from_slice(b"<p>")?;
        for _ in 0..2_000 {
            page.extend_from_slice("é".as_bytes())?;
        }
        page.extend_from_slice(b"</p>")?;
    }
    Ok(page)
}

#[test]
fn a_long_page_is_shown(rt: HostRuntime) -> Result<(), Fail> {
    let alloc = rt.alloc();
    let page = long_page(alloc)?;
    let entries = page_file(alloc, long_page(alloc)?)?;
    let (status, out, _) = run_fizz(&rt, alloc, &["show", "f.html"], entries, &NEVER)?;
    assert_eq!(rt; status, 0);
    assert_eq!(rt; out.bytes(), page.as_slice());
    Ok(())
}

#[test]
fn a_page_needs_its_file_and_a_sink(rt: HostRuntime) -> Result<(), Fail> {
    let alloc = rt.alloc();
    let entries = page_file(alloc, joined(alloc, &["<p></p>"])?)?;
    let (status, out, notes) = run_fizz(&rt, alloc, &["show", "g.html"], entries, &NEVER)?;
    assert_eq!(rt; status, 3);
    assert_eq!(rt; out.bytes(), b"".as_slice());
    assert_eq!(rt; notes.bytes(), b"cannot read g.html\n".as_slice());
    let fails: [&'static [u32]; 3] = [&[], &[0], &[]];
    let entries = page_file(alloc, joined(alloc, &["<p></p>"])?)?;
    let (status, out, notes) = run_fizz(&rt, alloc, &["show", "f.html"], entries, &fails)?;
    assert_eq!(rt; status, 7);
    assert_eq!(rt; out.bytes(), b"".as_slice());
    assert_eq!(rt; notes.bytes(), b"".as_slice());
    Ok(())
}
