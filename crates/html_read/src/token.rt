//! The tokens of a printed page.

ghost use Rattle.std.specs.Prelude.{◌≡◌};

use fizz_text::{Attributes, Text};
use html_names::CommentKind;
use std::marker::Model;

/// A token. `from` is the place of its first byte in the stream, texts and values are unescaped.
#[derive(Debug, Drop)]
pub enum Token {
    /// `<name attributes>`
    Start {
        name: Text,
        attributes: Attributes,
        from: usize,
    },
    /// `</name>`
    End {
        name: Text,
        from: usize,
    },
    /// `<name attributes/>`, of a void element alone
    Void {
        name: Text,
        attributes: Attributes,
        from: usize,
    },
    /// What stands between two other tokens.
    Text {
        text: Text,
        from: usize,
    },
    /// `<!--`, the data of this kind, `-->`
    Comment {
        which: CommentKind,
        from: usize,
    },
    /// `<script>`, the body, `</script>`
    Script {
        body: Body,
        from: usize,
    },
}

/// The bytes between `<script>` and `</script>`. Contracts see them as a list.
#[derive(Debug, Drop)]
pub struct Body {
    bytes: Vec<u8>,
}

impl Model for Body {
    ghost use Rattle.std.specs.Prelude.{List, ℕ};

    ghost Value = { List ℕ };

    ghost view = { λ b. b.bytes.items };
}

impl Body {
    pub(crate) fn new(bytes: Vec<u8>) -> Body
        ensures { result ≡ bytes.items }
    {
        Body { bytes }
    }

    pub fn as_bytes(&self) -> &[u8]
        ensures { result.now ≡ self.now }
    {
        self.bytes.as_slice()
    }
}
