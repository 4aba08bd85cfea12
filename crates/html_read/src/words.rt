//! The words that a tag, a comment or a replacement may be.

ghost use Rattle.std.specs.Prelude.{◌≡◌, codes, map, nat_eq, drop};
ghost use Rattle.std.specs.List.{starts_with};
ghost use Rattle.html_names.specs.Escape.{entities};
ghost use Rattle.html_read.specs.Machine.{is_word, begins_word, tag_words, start_words, comment_words, tag_flag};

use html_names::{begins_element, element};

/// What may follow `<!`.
pub(crate) static COMMENT_WORDS: [&str; 5] = ["--$-->", "--$?-->", "--$!-->", "--/$-->", "-- -->"];

/// The replacements of the five bytes that are escaped.
pub(crate) static ENTITIES: [&str; 5] = ["&quot;", "&amp;", "&#x27;", "&lt;", "&gt;"];

/// Whether the bytes are one of the words.
pub(crate) fn is_word(words: &[&str], bytes: &[u8]) -> bool
    ensures { result ≡ is_word (map (λ w. w.now) words.now) bytes.now }
{
    for word in words {
        if word.as_bytes() == bytes {
            return true;
        }
    }
    false
}

/// Whether one of the words begins with the bytes.
pub(crate) fn begins_word(words: &[&str], bytes: &[u8]) -> bool
    ensures { result ≡ begins_word (map (λ w. w.now) words.now) bytes.now }
{
    for word in words {
        if word.as_bytes().starts_with(bytes) {
            return true;
        }
    }
    false
}

pub(crate) fn is_entity(bytes: &[u8]) -> bool
    ensures { result ≡ is_word entities bytes.now }
{
    is_word(&ENTITIES, bytes)
}

pub(crate) fn begins_entity(bytes: &[u8]) -> bool
    ensures { result ≡ begins_word entities bytes.now }
{
    begins_word(&ENTITIES, bytes)
}

pub(crate) fn is_comment(bytes: &[u8]) -> bool
    ensures { result ≡ is_word comment_words bytes.now }
{
    is_word(&COMMENT_WORDS, bytes)
}

pub(crate) fn begins_comment(bytes: &[u8]) -> bool
    ensures { result ≡ begins_word comment_words bytes.now }
{
    begins_word(&COMMENT_WORDS, bytes)
}

pub(crate) fn begins_start(bytes: &[u8]) -> bool
    ensures { result ≡ begins_word start_words bytes.now }
{
    b"script".as_slice().starts_with(bytes) || begins_tag_name(bytes)
}

pub(crate) fn begins_tag_name(bytes: &[u8]) -> bool
    ensures { result ≡ begins_word tag_words bytes.now }
{
    begins_element(bytes) || begins_template(bytes)
}

fn begins_template(bytes: &[u8]) -> bool
    ensures { result ≡ starts_with nat_eq (codes "template") bytes.now }
{
    b"template".as_slice().starts_with(bytes)
}

/// Of a tag's name, whether its element is void, or `None` where no tag has that name.
pub(crate) fn tag_flag(name: &[u8]) -> Option<bool>
    ensures { result ≡ tag_flag name.now }
{
    if name == b"template".as_slice() {
        Some(false)
    } else {
        element(name).map(|e| e.is_void)
    }
}

/// The bytes from a place on, or none past the end.
pub(crate) fn after(bytes: &[u8], start: usize) -> &[u8]
    ensures { result.now ≡ drop start bytes.now }
{
    if start <= bytes.len() {
        &bytes[start..]
    } else {
        &[]
    }
}
