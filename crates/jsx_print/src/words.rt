//! The writing of single words.

ghost use Rattle.std.specs.Prelude.{◌≡◌, ◌++◌, IfOk, OnOk};
ghost use Rattle.std.specs.String as std;
ghost use Rattle.jsx_print.specs.Spelling.{escaped, escaped_byte, name_bytes, number_bytes, sign_bytes, string_bytes};

use fizz_text::{OutOfMemory, Text};
use jsx_lex::Punctuator;
use std::alloc::{AllocError, Global};

fn sign_str(sign: Punctuator) -> &'static str
    ensures { result.now ≡ sign_bytes sign }
{
    match sign {
        Punctuator::StrictEqual => "===",
        Punctuator::StrictNotEqual => "!==",
        Punctuator::Arrow => "=>",
        Punctuator::AndAnd => "&&",
        Punctuator::OrOr => "||",
        Punctuator::OpenBrace => "{",
        Punctuator::CloseBrace => "}",
        Punctuator::OpenParen => "(",
        Punctuator::CloseParen => ")",
        Punctuator::OpenBracket => "[",
        Punctuator::CloseBracket => "]",
        Punctuator::Comma => ",",
        Punctuator::Semicolon => ";",
        Punctuator::Colon => ":",
        Punctuator::Dot => ".",
        Punctuator::Question => "?",
        Punctuator::Not => "! ",
        Punctuator::Assign => "= ",
        Punctuator::Plus => "+",
        Punctuator::Less => "<",
        Punctuator::Greater => ">",
        Punctuator::SlashGreater => "/>",
        Punctuator::LessSlash => "</",
    }
}

/// Appends a sign.
pub(crate) fn push_sign(out: &mut String, sign: Punctuator) -> Result<(), OutOfMemory>
    ensures { OnOk result (std.string_bytes out.new
        ≡ std.string_bytes out.old ++ sign_bytes sign) }
{
    out.push_str(sign_str(sign))?;
    Ok(())
}

/// Appends a name or a word of the language.
pub(crate) fn push_name(out: &mut String, name: &str) -> Result<(), OutOfMemory>
    ensures { OnOk result (std.string_bytes out.new
        ≡ std.string_bytes out.old ++ name_bytes name.now) }
{
    out.push_str(name)?;
    out.push_str(" ")?;
    Ok(())
}

/// Appends a number.
pub(crate) fn push_number(alloc: Global, out: &mut String, number: i64) -> Result<(), OutOfMemory>
    ensures { OnOk result (std.string_bytes out.new
        ≡ std.string_bytes out.old ++ number_bytes number) }
{
    let decimals = format!(in alloc; "{number}")?;
    push_name(out, decimals.as_str())
}

/// Appends a text as a string.
pub(crate) fn push_string(alloc: Global, out: &mut String, text: &Text) -> Result<(), OutOfMemory>
    ensures { OnOk result (std.string_bytes out.new
        ≡ std.string_bytes out.old ++ string_bytes text.now) }
{
    let escaped = escape(alloc, text)?;
    out.push_str("\"")?;
    out.push_str(escaped.as_str())?;
    out.push_str("\"")?;
    Ok(())
}

/// What stands between the quotes of a string of this text.
fn escape(alloc: Global, text: &Text) -> Result<Text, OutOfMemory>
    ensures { IfOk result (λ t. t ≡ escaped text.now) }
{
    let bytes = escaped_bytes(alloc, text.as_bytes())?;
    Ok(Text::from_bytes(bytes).unwrap())
}

fn escaped_bytes(alloc: Global, text: &[u8]) -> Result<Vec<u8>, AllocError>
    ensures { IfOk result (λ bytes. bytes.items ≡ escaped text.now) }
{
    let mut out = Vec::new(alloc);
    for byte in text {
        push_escaped(&mut out, *byte)?;
    }
    Ok(out)
}

fn push_escaped(out: &mut Vec<u8>, byte: u8) -> Result<(), AllocError>
    ensures { OnOk result (out.new.items ≡ out.old.items ++ escaped_byte byte) }
{
    match byte {
        b'"' => out.extend_from_slice(b"\\\""),
        b'\\' => out.extend_from_slice(b"\\\\"),
        b'\n' => out.extend_from_slice(b"\\n"),
        _ => out.extend_from_slice(&[byte]),
    }
}
