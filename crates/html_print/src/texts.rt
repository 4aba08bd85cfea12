//! Texts, and what keeps them apart.

ghost use Rattle.std.specs.Prelude.{◌≡◌, ◌++◌, OnOk};
ghost use Rattle.html_names.specs.Escape.{escape_of};
ghost use Rattle.html_print.specs.Texts.{separator_bytes, text_bytes};

use fizz_text::{OutOfMemory, Text};
use html_names::{CommentKind, push_escaped};

/// Appends `<!-- -->`, if what was printed last is a text.
pub fn push_separator(out: &mut Vec<u8>, after_text: bool) -> Result<(), OutOfMemory>
    ensures { OnOk result (out.new.items ≡ out.old.items ++ separator_bytes after_text) }
{
    if after_text {
        out.extend_from_slice(CommentKind::Space.spelling().as_bytes())?;
    }
    Ok(())
}

/// Appends the escaped text, kept apart from a text that was printed last.
pub fn push_text(out: &mut Vec<u8>, after_text: bool, text: &Text) -> Result<(), OutOfMemory>
    ensures { OnOk result (out.new.items ≡ out.old.items ++ text_bytes after_text text.now) }
{
    push_separator(out, after_text)?;
    push_spelled(out, text)
}

/// Appends the escaped text.
pub(crate) fn push_spelled(out: &mut Vec<u8>, text: &Text) -> Result<(), OutOfMemory>
    ensures { OnOk result (out.new.items ≡ out.old.items ++ escape_of text.now) }
{
    match push_escaped(out, text.as_bytes()) {
        Ok(()) => Ok(()),
        Err(_) => Err(OutOfMemory),
    }
}
