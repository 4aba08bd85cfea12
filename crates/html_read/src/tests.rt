use crate::fault::{FinishFault, ReadFault, ReadKind};
use crate::reader::Reader;
use crate::token::Token;
use fizz_text::Attributes;
use html_names::CommentKind;
use std::alloc::{AllocError, Global};
use std::test::Fail;

/// A page with each kind of token.
static PAGE: &str =
    "<main id=\"a\" hidden><p title=\"&quot;\u{e9}&lt;\">x &amp; \u{20ac}\u{1f600}</p>\u{fc}<!-- -->y<br/><hr title=\"=\"/><!--$?--><template id=\"B:0\"></template><i>w</i><!--/$--></main><!--$!--><!--$--><div hidden></div><script>a</scrip></SCRIPT>&<\"</script>end";

/// Its tokens with their places.
static TOKENS: &str =
    "start main id=a hidden 0|start p title=\"\u{e9}< 20|text x & \u{20ac}\u{1f600} 44|end p 59|text \u{fc} 63|space 65|text y 73|void br 74|void hr title== 79|pending 94|start template id=B:0 103|end template 122|start i 133|text w 136|end i 137|end 141|end main 150|client 157|complete 166|start div hidden 174|end div 186|script a</scrip></SCRIPT>&<\" 192|text end 230|";

/// Malformed bytes with the place and the kind of their fault.
static FAULTS: [(&[u8], usize, ReadKind); 46] = [
    (b"abc>", 3, ReadKind::Text),
    (b"a\"b", 1, ReadKind::Text),
    (b"it's", 2, ReadKind::Text),
    (b">", 0, ReadKind::Text),
    (b"a&b;", 2, ReadKind::Entity),
    (b"&am<", 3, ReadKind::Entity),
    (b"&amq", 3, ReadKind::Entity),
    (b"&#39;", 2, ReadKind::Entity),
    (b"&&", 1, ReadKind::Entity),
    (b"&quot&", 5, ReadKind::Entity),
    (b"a\x80", 1, ReadKind::Utf8),
    (b"\xc0", 0, ReadKind::Utf8),
    (b"\xe2\x82<", 2, ReadKind::Utf8),
    (b"\xed\xa0", 1, ReadKind::Utf8),
    (b"\xf5", 0, ReadKind::Utf8),
    (b"&am\xff", 3, ReadKind::Utf8),
    (b"<p title=\"\xc3\"", 11, ReadKind::Utf8),
    (b"\xf4\x90", 1, ReadKind::Utf8),
    (b"\xe0\x9f", 1, ReadKind::Utf8),
    (b"<!x", 2, ReadKind::Comment),
    (b"<!-->", 4, ReadKind::Comment),
    (b"<!--$!x", 6, ReadKind::Comment),
    (b"<!--$ -->", 5, ReadKind::Comment),
    (b"<!--/-->", 5, ReadKind::Comment),
    (b"<DIV>", 1, ReadKind::Name),
    (b"< p>", 1, ReadKind::Name),
    (b"<foo>", 4, ReadKind::Name),
    (b"</p >", 3, ReadKind::Name),
    (b"</script>", 3, ReadKind::Name),
    (b"<script src", 7, ReadKind::Name),
    (b"<p</p>", 2, ReadKind::Attribute),
    (b"<>", 1, ReadKind::Name),
    (b"<scr>", 4, ReadKind::Name),
    (b"</>", 2, ReadKind::Name),
    (b"<br/ >", 4, ReadKind::Attribute),
    (b"<p/>", 2, ReadKind::Attribute),
    (b"<p  a", 3, ReadKind::Attribute),
    (b"<p id>", 5, ReadKind::Attribute),
    (b"<p id=x", 6, ReadKind::Attribute),
    (b"<p hidden/>", 9, ReadKind::Attribute),
    (b"<p 1a", 3, ReadKind::Attribute),
    (b"<p id=\"x\"id", 9, ReadKind::Attribute),
    (b"<p id=\"a'b\"", 8, ReadKind::Attribute),
    (b"<p id=\"<\"", 7, ReadKind::Attribute),
    (b"<p id=\"a&q;\"", 10, ReadKind::Entity),
    (b"<hr id= \"", 7, ReadKind::Attribute),
];

/// Bytes that end within a token, with its place.
static UNFINISHED: [(&[u8], usize); 7] = [
    (b"abc&am", 0),
    (b"<p>x</p", 4),
    (b"<!--", 0),
    (b"x<script>a</script", 1),
    (b"ab\xc3", 0),
    (b"<p id=\"", 0),
    (b"a<", 1),
];

fn describe_tag(
    out: &mut String,
    alloc: Global,
    kind: &str,
    name: &str,
    attributes: &Attributes,
) -> Result<(), AllocError> {
    out.push_str(&format!(in alloc; "{kind} {name}")?)?;
    for attribute in attributes.as_slice() {
        out.push_str(" ")?;
        out.push_str(attribute.name.as_str())?;
        if let Some(value) = &attribute.value {
            out.push_str("=")?;
            out.push_str(value.as_str())?;
        }
    }
    Ok(())
}

fn word_of(which: CommentKind) -> &'static str {
    match which {
        CommentKind::Complete => "complete",
        CommentKind::Pending => "pending",
        CommentKind::Client => "client",
        CommentKind::End => "end",
        CommentKind::Space => "space",
    }
}

/// A token as `TOKENS` writes it.
fn describe(out: &mut String, alloc: Global, tok: &Token) -> Result<(), AllocError> {
    let from = match tok {
        Token::Start {
            name,
            attributes,
            from,
        } => {
            describe_tag(out, alloc, "start", name.as_str(), attributes)?;
            *from
        }
        Token::Void {
            name,
            attributes,
            from,
        } => {
            describe_tag(out, alloc, "void", name.as_str(), attributes)?;
            *from
        }
        Token::End { name, from } => {
            out.push_str(&format!(in alloc; "end {}", name.as_str())?)?;
            *from
        }
        Token::Text { text, from } => {
            out.push_str(&format!(in alloc; "text {}", text.as_str())?)?;
            *from
        }
        Token::Comment { which, from } => {
            out.push_str(word_of(*which))?;
            *from
        }
        Token::Script { body, from } => {
            out.push_str("script ")?;
            out.push_str(str::from_utf8(body.as_bytes()).unwrap_or("?"))?;
            *from
        }
    };
    out.push_str(&format!(in alloc; " {from}|")?)
}

fn describe_all(out: &mut String, alloc: Global, tokens: &[Token]) -> Result<(), AllocError> {
    for tok in tokens {
        describe(out, alloc, tok)?;
    }
    Ok(())
}

#[test]
fn reads_any_cutting(rt: HostRuntime) -> Result<(), Fail> {
    let alloc = rt.alloc();
    let page = PAGE.as_bytes();
    for cut in 0..page.len() {
        let mut reader = Reader::new(alloc);
        let mut out = String::new(alloc);
        describe_all(&mut out, alloc, &reader.feed(&page[..cut])?)?;
        describe_all(&mut out, alloc, &reader.feed(&page[cut..])?)?;
        if let Some(last) = reader.finish()? {
            describe(&mut out, alloc, &last)?;
        }
        assert_eq!(rt; out.as_str(), TOKENS, "cut at {cut}");
    }
    Ok(())
}

/// A text with characters of each length and each replacement is one token, however long.
#[test]
fn reads_long_texts(rt: HostRuntime) -> Result<(), Fail> {
    let alloc = rt.alloc();
    let mut page = Vec::new(alloc);
    let mut wanted = String::new(alloc);
    wanted.push_str("text ")?;
    for _ in 0..1_000 {
        page.extend_from_slice("plain é € 😀 &amp;&lt;&gt;&quot;&#x27;".as_bytes())?;
        wanted.push_str("plain é € 😀 &<>\"'")?;
    }
    wanted.push_str(" 0|")?;
    let mut reader = Reader::new(alloc);
    assert!(rt; reader.feed(&page)?.is_empty());
    let last = reader.finish()?.ok_or("no last text")?;
    let mut text = String::new(alloc);
    describe(&mut text, alloc, &last)?;
    assert!(rt; text.as_str() == wanted.as_str());
    Ok(())
}

#[test]
fn reads_single_bytes(rt: HostRuntime) -> Result<(), Fail> {
    let alloc = rt.alloc();
    let page = PAGE.as_bytes();
    let mut reader = Reader::new(alloc);
    let mut out = String::new(alloc);
    for at in 0..page.len() {
        describe_all(&mut out, alloc, &reader.feed(&page[at..at + 1])?)?;
    }
    let open = reader.open_text()?.ok_or("no open text")?;
    describe(&mut out, alloc, &open)?;
    assert_eq!(rt; out.as_str(), TOKENS);
    let last = reader.finish()?.ok_or("no last text")?;
    let mut end = String::new(alloc);
    describe(&mut end, alloc, &last)?;
    assert_eq!(rt; end.as_str(), "text end 230|");
    Ok(())
}

/// The fault that `feed` answered.
fn bad(answer: Result<Vec<Token>, ReadFault>) -> Option<(Vec<Token>, usize, ReadKind)> {
    match answer {
        Err(ReadFault::Bad { before, at, kind }) => Some((before, at, kind)),
        Err(ReadFault::OutOfMemory) => None,
        Ok(_tokens) => None,
    }
}

#[test]
fn tells_first_fault(rt: HostRuntime) -> Result<(), Fail> {
    for (bytes, place, wanted) in &FAULTS {
        let mut reader = Reader::new(rt.alloc());
        let (_before, at, kind) = bad(reader.feed(bytes)).ok_or("no fault")?;
        assert_eq!(rt; at, *place, "{bytes:?}");
        assert_eq!(rt; kind, *wanted, "{bytes:?}");
        let (before, at, kind) = bad(reader.feed(b"")).ok_or("no fault again")?;
        assert!(rt;
            before.is_empty() && at == *place && kind == *wanted,
            "{bytes:?}"
        );
        match reader.finish() {
            Err(FinishFault::Bad { at, kind }) => assert!(rt;
                at == *place && kind == *wanted,
                "{bytes:?}"
            ),
            _ => assert!(rt; false, "{bytes:?}"),
        }
    }
    Ok(())
}

#[test]
fn gives_tokens_before_a_fault(rt: HostRuntime) -> Result<(), Fail> {
    let alloc = rt.alloc();
    let mut reader = Reader::new(alloc);
    let mut out = String::new(alloc);
    describe_all(&mut out, alloc, &reader.feed(b"<p>a")?)?;
    let (before, at, _kind) = bad(reader.feed(b"b<br/>c<!x")).ok_or("no fault")?;
    assert_eq!(rt; at, 13);
    describe_all(&mut out, alloc, &before)?;
    assert_eq!(rt; out.as_str(), "start p 0|text ab 3|void br 5|text c 10|");
    let (before, at, _kind) = bad(reader.feed(b"<p>")).ok_or("no fault again")?;
    assert_eq!(rt; at, 13);
    assert!(rt; before.is_empty());
    Ok(())
}

#[test]
fn refuses_unfinished(rt: HostRuntime) -> Result<(), Fail> {
    for (bytes, place) in &UNFINISHED {
        let mut reader = Reader::new(rt.alloc());
        let _tokens = reader.feed(bytes)?;
        assert!(rt; reader.open_text()?.is_none(), "{bytes:?}");
        match reader.finish() {
            Err(FinishFault::Unfinished { at }) => assert_eq!(rt; at, *place, "{bytes:?}"),
            _ => assert!(rt; false, "{bytes:?}"),
        }
    }
    Ok(())
}
