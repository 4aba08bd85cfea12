//! The line that tells why a command was refused: a label and fields, printed by one printer.

ghost use Rattle.std.specs.Prelude.{◌≡◌, ◌++◌, ◌<◌, IfOk, OnOk, codes, map};
ghost use Rattle.std.specs.List.{flat_map};
ghost use Rattle.std.specs.Fmt.{decimal};
ghost use Rattle.std.specs.Char.{digit_char};
ghost use Rattle.fizz_cli.specs.Notes.{after_dot, counted_by, steps_text, entry_of, entry_text, kind_word, line_of, note_of, number, page_row, program_row, row_at, row_of, row_text, row_with, wanted_word, script_row, two_digits, value_of, value_text, words};

use crate::refusal::{FileFault, PageFault, ProgramFault, Refusal, ScriptFault};
use jsx_lex::LexKind;
use jsx_syntax::Wanted;
use std::alloc::{AllocError, Global};

/// What a field of a note says: a number, a text as it is, the steps of a path, or the bytes of a hash.
#[derive(Clone, Copy, Debug)]
pub(crate) enum FieldValue<'a> {
    Number(u64),
    Words(&'a [u8]),
    Steps(&'a [u32]),
    Hash(&'a [u8]),
}

/// A field of a note.
#[derive(Clone, Copy, Debug)]
pub(crate) struct Field<'a> {
    name: &'static str,
    value: FieldValue<'a>,
}

/// The note of a refusal, a line.
pub(crate) fn note_of(alloc: Global, refusal: &Refusal) -> Result<Vec<u8>, AllocError>
    ensures { IfOk result (λ note. note.items ≡ note_of refusal.now) }
{
    match refusal {
        Refusal::CannotRead { name } => words_line(alloc, b"cannot read ", name.as_bytes()),
        Refusal::File { name, fault } => file_line(alloc, name.as_bytes(), fault),
        Refusal::ShellFailed { digest } => words_line(alloc, b"shell failed: ", digest.as_bytes()),
        Refusal::ShellPostponed { resource } => {
            words_line(alloc, b"shell postponed: ", resource.as_bytes())
        }
        Refusal::CannotWrite { name } => words_line(alloc, b"cannot write ", name.as_bytes()),
        Refusal::StateTooLong { length } => number_line(alloc, b"state too long: ", *length),
    }
}

fn words_line(alloc: Global, label: &[u8], text: &[u8]) -> Result<Vec<u8>, AllocError>
    ensures { IfOk result (λ note. note.items ≡ line_of label.now (words text.now)) }
{
    let mut note = Vec::new(alloc);
    note.extend_from_slice(label)?;
    note.extend_from_slice(text)?;
    note.extend_from_slice(b"\n")?;
    Ok(note)
}

fn number_line(alloc: Global, label: &[u8], value: u64) -> Result<Vec<u8>, AllocError>
    ensures { IfOk result (λ note. note.items ≡ line_of label.now (number value)) }
{
    let mut note = Vec::new(alloc);
    note.extend_from_slice(label)?;
    push_number(alloc, &mut note, value)?;
    note.extend_from_slice(b"\n")?;
    Ok(note)
}

fn file_line(alloc: Global, name: &[u8], fault: &FileFault) -> Result<Vec<u8>, AllocError>
    ensures { IfOk result (λ note. note.items
        ≡ name.now ++ (codes ": " ++ (row_text (row_of fault.now) ++ codes "\n"))) }
{
    let mut note = Vec::new(alloc);
    note.extend_from_slice(name)?;
    note.extend_from_slice(b": ")?;
    push_fault(alloc, &mut note, fault)?;
    note.extend_from_slice(b"\n")?;
    Ok(note)
}

fn push_fault(alloc: Global, note: &mut Vec<u8>, fault: &FileFault) -> Result<(), AllocError>
    ensures { OnOk result (note.new.items ≡ note.old.items ++ row_text (row_of fault.now)) }
{
    match fault {
        FileFault::TooLong { most } => {
            push_row(alloc, note, "TooLong", &[count_field("most", *most as u64)])
        }
        FileFault::Program(fault) => push_program_fault(alloc, note, fault),
        FileFault::Script(fault) => push_script_fault(alloc, note, fault),
        FileFault::Page(fault) => push_page_fault(alloc, note, fault),
    }
}

fn push_program_fault(
    alloc: Global,
    note: &mut Vec<u8>,
    fault: &ProgramFault,
) -> Result<(), AllocError>
    ensures { OnOk result (note.new.items ≡ note.old.items ++ row_text (program_row fault.now)) }
{
    match fault {
        ProgramFault::NotUtf8 { valid } => push_length(alloc, note, "NotUtf8", "valid", *valid),
        ProgramFault::LexFault { at, kind } => push_lex_fault(alloc, note, *at, *kind),
        ProgramFault::SyntaxFault { at, wanted } => push_syntax_fault(alloc, note, *at, *wanted),
        ProgramFault::TooManyComponents { count } => {
            push_count(alloc, note, "TooManyComponents", "count", *count)
        }
        ProgramFault::UnknownName { at } => push_placed(alloc, note, "UnknownName", *at),
        ProgramFault::UnknownElement { at } => push_placed(alloc, note, "UnknownElement", *at),
        ProgramFault::UnknownAttribute { at } => push_placed(alloc, note, "UnknownAttribute", *at),
        ProgramFault::TwiceDefined { at } => push_placed(alloc, note, "TwiceDefined", *at),
        ProgramFault::UsedBeforeDefined { at } => {
            push_placed(alloc, note, "UsedBeforeDefined", *at)
        }
        ProgramFault::FallbackNotPlain { at } => push_placed(alloc, note, "FallbackNotPlain", *at),
        ProgramFault::NoApp => push_row(alloc, note, "NoApp", &[]),
        ProgramFault::TooDeep { depth } => push_count(alloc, note, "TooDeep", "depth", *depth),
        ProgramFault::TooLarge { limit } => push_count(alloc, note, "TooLarge", "limit", *limit),
    }
}

fn push_lex_fault(
    alloc: Global,
    note: &mut Vec<u8>,
    at: usize,
    kind: LexKind,
) -> Result<(), AllocError>
    ensures { OnOk result (note.new.items ≡ note.old.items
        ++ row_text (row_with (codes "LexFault") at (codes "kind") (kind_word kind))) }
{
    push_kind(alloc, note, "LexFault", at, "kind", kind_word(kind))
}

fn push_syntax_fault(
    alloc: Global,
    note: &mut Vec<u8>,
    at: usize,
    wanted: Wanted,
) -> Result<(), AllocError>
    ensures { OnOk result (note.new.items ≡ note.old.items
        ++ row_text (row_with (codes "SyntaxFault") at (codes "wanted") (wanted_word wanted))) }
{
    let word = wanted_word(wanted);
    push_kind(alloc, note, "SyntaxFault", at, "wanted", word)
}

fn kind_word(kind: LexKind) -> &'static str
    ensures { result.now ≡ kind_word kind }
{
    match kind {
        LexKind::Char => "Char",
        LexKind::Number => "Number",
        LexKind::Str => "Str",
        LexKind::Comment => "Comment",
        LexKind::Bare => "Bare",
        LexKind::Brace => "Brace",
        LexKind::End => "End",
    }
}

fn wanted_word(wanted: Wanted) -> &'static str
    ensures { result.now ≡ wanted_word wanted }
{
    match wanted {
        Wanted::Token => "Token",
        Wanted::Value => "Value",
        Wanted::CloseName => "CloseName",
        Wanted::NoChildren => "NoChildren",
        Wanted::Shallower => "Shallower",
    }
}

fn push_script_fault(
    alloc: Global,
    note: &mut Vec<u8>,
    fault: &ScriptFault,
) -> Result<(), AllocError>
    ensures { OnOk result (note.new.items ≡ note.old.items ++ row_text (script_row fault.now)) }
{
    match fault {
        ScriptFault::NotJson => push_row(alloc, note, "NotJson", &[]),
        ScriptFault::TooManyEvents { count } => {
            push_row(
                alloc,
                note,
                "TooManyEvents",
                &[count_field("count", *count as u64)],
            )
        }
        ScriptFault::NotEvent { index } => push_line(alloc, note, "NotEvent", *index),
        ScriptFault::DigestTooLong { index, length } => {
            let fields = [
                count_field("index", *index as u64),
                count_field("length", *length as u64),
            ];
            push_row(alloc, note, "DigestTooLong", &fields)
        }
        ScriptFault::BadValue { index } => push_line(alloc, note, "BadValue", *index),
        ScriptFault::SettledTwice { index, first } => {
            let fields = [
                count_field("index", *index as u64),
                count_field("first", *first as u64),
            ];
            push_row(alloc, note, "SettledTwice", &fields)
        }
    }
}

fn push_page_fault(alloc: Global, note: &mut Vec<u8>, fault: &PageFault) -> Result<(), AllocError>
    ensures { OnOk result (note.new.items ≡ note.old.items ++ row_text (page_row fault.now)) }
{
    match fault {
        PageFault::Html { at } => push_placed(alloc, note, "Html", *at),
        PageFault::UnknownFunction { at } => push_placed(alloc, note, "UnknownFunction", *at),
        PageFault::NoSuchId { at, id } => {
            let fields = [
                count_field("at", *at as u64),
                words_field("id", id.as_bytes()),
            ];
            push_row(alloc, note, "NoSuchId", &fields)
        }
        PageFault::NotBoundary { at } => push_placed(alloc, note, "NotBoundary", *at),
        PageFault::StillPending { count } => {
            push_row(alloc, note, "StillPending", &[count_field("count", *count)])
        }
    }
}

/// A label with a place.
fn push_placed(alloc: Global, note: &mut Vec<u8>, label: &str, at: usize) -> Result<(), AllocError>
    ensures { OnOk result (note.new.items ≡ note.old.items ++ row_text (row_at label.now at)) }
{
    push_row(alloc, note, label, &[count_field("at", at as u64)])
}

/// A label with a number.
fn push_count(
    alloc: Global,
    note: &mut Vec<u8>,
    label: &str,
    name: &'static str,
    count: u32,
) -> Result<(), AllocError>
    ensures { OnOk result (note.new.items
        ≡ note.old.items ++ row_text (counted_by label.now name.now count)) }
{
    push_row(alloc, note, label, &[count_field(name, u64::from(count))])
}

/// A label with a number of bytes.
fn push_length(
    alloc: Global,
    note: &mut Vec<u8>,
    label: &str,
    name: &'static str,
    length: usize,
) -> Result<(), AllocError>
    ensures { OnOk result (note.new.items
        ≡ note.old.items ++ row_text (counted_by label.now name.now length)) }
{
    push_row(alloc, note, label, &[count_field(name, length as u64)])
}

/// A label with a place, and with a word that says what is wrong there.
fn push_kind(
    alloc: Global,
    note: &mut Vec<u8>,
    label: &str,
    at: usize,
    name: &'static str,
    word: &'static str,
) -> Result<(), AllocError>
    ensures { OnOk result (note.new.items
        ≡ note.old.items ++ row_text (row_with label.now at name.now word.now)) }
{
    let fields = [
        count_field("at", at as u64),
        words_field(name, word.as_bytes()),
    ];
    push_row(alloc, note, label, &fields)
}

/// A label with the number of a line.
fn push_line(alloc: Global, note: &mut Vec<u8>, label: &str, index: u32) -> Result<(), AllocError>
    ensures { OnOk result (note.new.items
        ≡ note.old.items ++ row_text (counted_by label.now (codes "index") index)) }
{
    push_row(alloc, note, label, &[count_field("index", index as u64)])
}

fn count_field<'a>(name: &'static str, value: u64) -> Field<'a>
    ensures { entry_of result ≡ record { name = name.now; value = number value } }
{
    Field {
        name,
        value: FieldValue::Number(value),
    }
}

fn words_field<'a>(name: &'static str, text: &'a [u8]) -> Field<'a>
    ensures { entry_of result ≡ record { name = name.now; value = words text.now } }
{
    Field {
        name,
        value: FieldValue::Words(text),
    }
}

/// The printer of what notes say of files: a label, and each field as a space, its name, `=` and its value.
fn push_row(
    alloc: Global,
    note: &mut Vec<u8>,
    label: &str,
    fields: &[Field<'_>],
) -> Result<(), AllocError>
    ensures { OnOk result (note.new.items
        ≡ note.old.items ++ (label.now ++ flat_map entry_text (map entry_of fields.now))) }
{
    note.extend_from_slice(label.as_bytes())?;
    for field in fields {
        push_field(alloc, note, field)?;
    }
    Ok(())
}

fn push_field(alloc: Global, note: &mut Vec<u8>, field: &Field<'_>) -> Result<(), AllocError>
    ensures { OnOk result (note.new.items ≡ note.old.items ++ entry_text (entry_of field.now)) }
{
    note.extend_from_slice(b" ")?;
    note.extend_from_slice(field.name.as_bytes())?;
    note.extend_from_slice(b"=")?;
    push_value(alloc, note, field.value)
}

fn push_value(alloc: Global, note: &mut Vec<u8>, value: FieldValue<'_>) -> Result<(), AllocError>
    ensures { OnOk result (note.new.items ≡ note.old.items ++ value_text (value_of value.entry)) }
{
    match value {
        FieldValue::Number(number) => push_number(alloc, note, number),
        FieldValue::Words(text) => note.extend_from_slice(text),
        FieldValue::Steps(steps) => push_steps(alloc, note, steps),
        FieldValue::Hash(bytes) => push_hash(note, bytes),
    }
}

fn push_number(alloc: Global, note: &mut Vec<u8>, number: u64) -> Result<(), AllocError>
    ensures { OnOk result (note.new.items ≡ note.old.items ++ decimal number) }
{
    let digits = format!(in alloc; "{number}")?;
    note.extend_from_slice(digits.as_bytes())
}

/// The steps of a path, joined by dots.
fn push_steps(alloc: Global, note: &mut Vec<u8>, steps: &[u32]) -> Result<(), AllocError>
    ensures { OnOk result (note.new.items ≡ note.old.items ++ steps_text steps.now) }
{
    match steps.split_first() {
        Some((first, later)) => {
            push_number(alloc, note, u64::from(*first))?;
            push_later_steps(alloc, note, later)
        }
        None => Ok(()),
    }
}

fn push_later_steps(alloc: Global, note: &mut Vec<u8>, later: &[u32]) -> Result<(), AllocError>
    ensures { OnOk result (note.new.items ≡ note.old.items ++ flat_map after_dot later.now) }
{
    for step in later {
        push_after_dot(alloc, note, *step)?;
    }
    Ok(())
}

fn push_after_dot(alloc: Global, note: &mut Vec<u8>, step: u32) -> Result<(), AllocError>
    ensures { OnOk result (note.new.items ≡ note.old.items ++ after_dot step) }
{
    note.extend_from_slice(b".")?;
    push_number(alloc, note, u64::from(step))
}

/// The bytes of a hash, two lower-case hexadecimal digits each.
fn push_hash(note: &mut Vec<u8>, bytes: &[u8]) -> Result<(), AllocError>
    ensures { OnOk result (note.new.items ≡ note.old.items ++ flat_map two_digits bytes.now) }
{
    for byte in bytes {
        push_digits(note, *byte)?;
    }
    Ok(())
}

fn push_digits(note: &mut Vec<u8>, byte: u8) -> Result<(), AllocError>
    ensures { OnOk result (note.new.items ≡ note.old.items ++ two_digits byte) }
{
    note.extend_from_slice(&[hex_digit(byte / 16), hex_digit(byte % 16)])
}

fn hex_digit(value: u8) -> u8
    requires { value < 16 }
    ensures { result ≡ digit_char value }
{
    if value < 10 {
        b'0' + value
    } else {
        b'a' + (value - 10)
    }
}
