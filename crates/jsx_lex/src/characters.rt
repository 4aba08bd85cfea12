//! The characters that tokens are made of.

ghost use Rattle.std.specs.Prelude.{◌≡◌, ◌≤◌, length};
ghost use Rattle.std.specs.List.{prefix_len};
ghost use Rattle.jsx_lex.specs.Characters as spec;
ghost use Rattle.jsx_lex.specs.Classes.{class_test};
ghost use Rattle.jsx_lex.specs.Cleaning.{is_blank};

pub(crate) fn is_space(byte: u8) -> bool
    ensures { result ≡ spec.is_space byte }
{
    byte == b' ' || byte == b'\t' || byte == b'\r' || byte == b'\n'
}

pub(crate) fn is_name_start(byte: u8) -> bool
    ensures { result ≡ spec.is_name_start byte }
{
    byte.is_ascii_alphabetic() || byte == b'_' || byte == b'$'
}

pub(crate) fn is_name_part(byte: u8) -> bool
    ensures { result ≡ spec.is_name_part byte }
{
    is_name_start(byte) || byte.is_ascii_digit()
}

pub(crate) fn is_number_start(byte: u8) -> bool
    ensures { result ≡ spec.is_number_start byte }
{
    byte.is_ascii_digit() || byte == b'-'
}

pub(crate) fn is_number_follower(byte: u8) -> bool
    ensures { result ≡ spec.is_number_follower byte }
{
    is_name_part(byte) || byte == b'.'
}

pub(crate) fn is_quote(byte: u8) -> bool
    ensures { result ≡ spec.is_quote byte }
{
    byte == b'"' || byte == b'\''
}

pub(crate) fn is_blank(byte: u8) -> bool
    ensures { result ≡ is_blank byte }
{
    byte == b' ' || byte == b'\t' || byte == b'\r'
}

pub(crate) fn is_jsx_text(byte: u8) -> bool
    ensures { result ≡ spec.is_jsx_text byte }
{
    !(byte == b'{' || byte == b'}' || byte == b'<' || byte == b'>')
}

/// A set of bytes, to find a run of them.
#[derive(Clone, Copy)]
pub(crate) enum Class {
    Digit,
    DecimalDigit,
    HexadecimalDigit,
    Blank,
    NamePart,
    TagNamePart,
    InLine,
    JsxText,
    Except(u8),
}

fn is_in(class: Class, byte: u8) -> bool
    ensures { result ≡ class_test class byte }
{
    match class {
        Class::Digit => byte.is_ascii_digit(),
        Class::DecimalDigit => (byte as char).is_digit(10),
        Class::HexadecimalDigit => (byte as char).is_digit(16),
        Class::Blank => is_blank(byte),
        Class::NamePart => is_name_part(byte),
        Class::TagNamePart => is_name_part(byte) || byte == b'-',
        Class::InLine => byte != b'\n',
        Class::JsxText => is_jsx_text(byte),
        Class::Except(other) => byte != other,
    }
}

/// How many bytes at the front are of the class.
pub(crate) fn run_len(bytes: &[u8], class: Class) -> usize
    ensures len { result ≡ prefix_len (class_test class) bytes.now }
    ensures within { result ≤ length bytes.now }
{
    bytes.iter().take_while(|b| is_in(class, **b)).count()
}
