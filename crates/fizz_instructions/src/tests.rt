use crate::{BodyFault, Instruction, SentFunctions, push_script, read_script_body};
use fizz_text::Text;
use std::test::Fail;

const RC: &str =
    r#"$RC=function(b,s){s=document.getElementById(s);s.parentNode.removeChild(s);b=document.getElementById(b);if(b){var o=b.previousSibling,p=o.parentNode,n=b,d=0,t;for(;n;n=t){t=n.nextSibling;if(n.nodeType===8){var x=n.data;if(x==="/$"){if(d===0)break;d--}else if(x==="$"||x==="$?"||x==="$!")d++}p.removeChild(n)}for(;s.firstChild;)p.insertBefore(s.firstChild,n);o.data="$"}};"#;

const RS: &str =
    r#"$RS=function(s,p){s=document.getElementById(s);p=document.getElementById(p);for(s.parentNode.removeChild(s);s.firstChild;)p.parentNode.insertBefore(s.firstChild,p);p.parentNode.removeChild(p)};"#;

const RX: &str =
    r#"$RX=function(b,d){b=document.getElementById(b);if(b){b.previousSibling.data="$!";if(d)b.dataset.dgst=d}};"#;

const NONE: SentFunctions = SentFunctions {
    rc: false,
    rs: false,
    rx: false,
};

const ALL: SentFunctions = SentFunctions {
    rc: true,
    rs: true,
    rx: true,
};

const ONLY_RC: SentFunctions = SentFunctions {
    rc: true,
    rs: false,
    rx: false,
};

const ONLY_RS: SentFunctions = SentFunctions {
    rc: false,
    rs: true,
    rx: false,
};

const ONLY_RX: SentFunctions = SentFunctions {
    rc: false,
    rs: false,
    rx: true,
};

fn complete(boundary: u32, segment: u32) -> Instruction {
    Instruction::Complete { boundary, segment }
}

fn segment(segment: u32) -> Instruction {
    Instruction::Segment { segment }
}

fn client_render(boundary: u32, digest: &'static str) -> Instruction {
    Instruction::ClientRender {
        boundary,
        digest: Text::fixed(digest),
    }
}

fn same(a: &Instruction, b: &Instruction) -> bool {
    match (a, b) {
        (
            Instruction::Complete { boundary, segment },
            Instruction::Complete {
                boundary: other,
                segment: another,
            },
        ) => boundary == other && segment == another,
        (Instruction::Segment { segment }, Instruction::Segment { segment: other }) => {
            segment == other
        }
        (
            Instruction::ClientRender { boundary, digest },
            Instruction::ClientRender {
                boundary: other,
                digest: another,
            },
        ) => boundary == other && digest.as_bytes() == another.as_bytes(),
        _ => false,
    }
}

/// Each instruction with its prefix, its function's definition, what a page has after it, and the call.
fn rows() -> [(
    Instruction,
    &'static str,
    &'static str,
    SentFunctions,
    &'static str,
); 7] {
    [
        (complete(0, 0), "", RC, ONLY_RC, r#"$RC("B:0","S:0")"#),
        (
            complete(255, 4_294_967_295),
            "r-",
            RC,
            ONLY_RC,
            r#"$RC("r-B:ff","r-S:ffffffff")"#,
        ),
        (segment(1), "", RS, ONLY_RS, r#"$RS("S:1","P:1")"#),
        (
            segment(26),
            "<\"é",
            RS,
            ONLY_RS,
            r#"$RS("\u003c\"éS:1a","\u003c\"éP:1a")"#,
        ),
        (
            client_render(0, "e2"),
            "",
            RX,
            ONLY_RX,
            r#"$RX("B:0","e2")"#,
        ),
        (client_render(16, ""), "", RX, ONLY_RX, r#"$RX("B:10")"#),
        (
            client_render(0, "</script>\""),
            "",
            RX,
            ONLY_RX,
            r#"$RX("B:0","\u003c/script>\"")"#,
        ),
    ]
}

#[test]
fn scripts_define_a_function_once(rt: HostRuntime) -> Result<(), Fail> {
    let alloc = rt.alloc();
    for (instruction, prefix, definition, after, call) in rows() {
        let prefix = Text::fixed(prefix);
        let mut out = b"<p>".to_vec(alloc)?;
        let mut sent = SentFunctions::none();
        push_script(alloc, &mut out, &instruction, &prefix, &mut sent)?;
        assert_eq!(rt; sent, after);
        push_script(alloc, &mut out, &instruction, &prefix, &mut sent)?;
        assert_eq!(rt; sent, after);
        let wanted = format!(in alloc;
            "<p><script>{definition}{call}</script><script>{call}</script>"
        )?;
        assert_eq!(rt; out.as_slice(), wanted.as_bytes());
    }
    Ok(())
}

#[test]
fn bodies_are_read_as_they_were_written(rt: HostRuntime) -> Result<(), Fail> {
    let alloc = rt.alloc();
    for (instruction, prefix, definition, after, call) in rows() {
        let prefix = Text::fixed(prefix);
        let body = format!(in alloc; "{definition}{call}")?;
        let mut known = SentFunctions::none();
        let unknown = read_script_body(alloc, call.as_bytes(), &prefix, &mut known);
        assert!(rt;
            matches!(&unknown, Err(BodyFault::UnknownFunction)),
            "{call}"
        );
        assert_eq!(rt; known, NONE);
        // The second time the function is known, and the third time it isn't defined.
        for text in [body.as_str(), body.as_str(), call] {
            match read_script_body(alloc, text.as_bytes(), &prefix, &mut known) {
                Ok(found) => assert!(rt; same(&found, &instruction), "{call}"),
                Err(_) => assert!(rt; false, "{call}"),
            }
            assert_eq!(rt; known, after);
        }
    }
    Ok(())
}

#[test]
fn other_bodies_are_refused(rt: HostRuntime) -> Result<(), Fail> {
    let alloc = rt.alloc();
    let prefix = Text::fixed("");
    let bodies = [
        "",
        "$RC",
        RC,
        r#"$RR("B:0","S:0")"#,
        r#"$RC("B:0","S:0");"#,
        r#" $RC("B:0","S:0")"#,
        r#"$RC("B:0", "S:0")"#,
        r#"$RC("B:0","P:0")"#,
        r#"$RC("B:0")"#,
        r#"$RC("B:0","S:0""#,
        r#"$RC("r-B:0","r-S:0")"#,
        r#"$RC('B:0','S:0')"#,
        r#"$RC("B:00","S:0")"#,
        r#"$RC("B:A","S:0")"#,
        r#"$RC("B:+1","S:0")"#,
        r#"$RC("B:","S:0")"#,
        r#"$RC("B:100000000","S:0")"#,
        r#"$RC("\u0042:0","S:0")"#,
        r#"$RS("S:0","P:1")"#,
        r#"$RX("B:0","")"#,
        r#"$RX("B:0",)"#,
        r#"$RX("B:0","<")"#,
        r#"$RX("B:0","a","b")"#,
    ];
    for body in bodies {
        let mut known = ALL;
        let found = read_script_body(alloc, body.as_bytes(), &prefix, &mut known);
        assert!(rt; matches!(&found, Err(BodyFault::BadInstruction)), "{body}");
        assert_eq!(rt; known, ALL);
    }
    // A definition belongs to the function that is called.
    let body = format!(in alloc; "{RS}$RX(\"B:0\")")?;
    let mut known = NONE;
    let found = read_script_body(alloc, body.as_bytes(), &prefix, &mut known);
    assert!(rt; matches!(&found, Err(BodyFault::BadInstruction)));
    assert_eq!(rt; known, NONE);
    Ok(())
}
