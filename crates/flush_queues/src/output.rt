//! What a flush writes.

ghost use Rattle.std.specs.Prelude.{◌≡◌, ◌++◌, [], codes, OnOk};

use fizz_instructions::{Instruction, SentFunctions, push_script};
use fizz_text::{OutOfMemory, Text, hex_of};
use html_names::{CommentKind, push_escaped};
use std::alloc::Global;
use std::marker::Model;

/// Bytes in the order in which they are written.
#[derive(Debug, Drop)]
pub(crate) struct Output {
    bytes: Vec<u8>,
}

impl Model for Output {
    ghost use Rattle.std.specs.Prelude.{List, ℕ};

    ghost Value = { List ℕ };

    ghost view = { λ o. o.bytes.items };
}

impl Output {
    ghost use Rattle.std.specs.Prelude.{not, length};
    ghost use Rattle.html_names.specs.Escape.{escape_of};
    ghost use Rattle.html_names.specs.Comments.{comment_spelling};
    ghost use Rattle.fizz_instructions.specs.Bodies.{function_of, id_of, script_of};
    ghost use Rattle.fizz_instructions.specs.Sending.{has, with_function};
    ghost use Rattle.flush_queues.specs.Flows.{container_start, digest_template, failed_bytes, pending_bytes, placeholder_bytes};

    pub(crate) fn new(alloc: Global) -> Output
        ensures { result ≡ [] }
    {
        Output {
            bytes: Vec::new(alloc),
        }
    }

    pub(crate) fn as_slice(&self) -> &[u8]
        ensures { result.now ≡ self.now }
    {
        self.bytes.as_slice()
    }

    pub(crate) fn write(&mut self, bytes: &[u8]) -> Result<(), OutOfMemory>
        ensures { OnOk result (self.new ≡ self.old ++ bytes.now) }
    {
        self.bytes.extend_from_slice(bytes)?;
        Ok(())
    }

    pub(crate) fn write_escaped(&mut self, bytes: &[u8]) -> Result<(), OutOfMemory>
        ensures { OnOk result (self.new ≡ self.old ++ escape_of bytes.now) }
    {
        match push_escaped(&mut self.bytes, bytes) {
            Ok(()) => Ok(()),
            Err(_) => Err(OutOfMemory),
        }
    }

    pub(crate) fn write_comment(&mut self, kind: CommentKind) -> Result<(), OutOfMemory>
        ensures { OnOk result (self.new ≡ self.old ++ comment_spelling kind) }
    {
        self.write(kind.spelling().as_bytes())
    }

    /// An id as the value of an attribute.
    fn write_id(&mut self, prefix: &Text, mark: &[u8], id: u32) -> Result<(), OutOfMemory>
        ensures { OnOk result (self.new ≡ self.old ++ escape_of (id_of prefix.now mark.now id)) }
    {
        self.write_escaped(prefix.as_bytes())?;
        self.write_escaped(mark)?;
        self.write_escaped(hex_of(id).as_bytes())
    }

    pub(crate) fn write_placeholder(&mut self, prefix: &Text, id: u32) -> Result<(), OutOfMemory>
        ensures { OnOk result (self.new ≡ self.old ++ placeholder_bytes prefix.now id) }
    {
        self.write(b"<template id=\"")?;
        self.write_id(prefix, b"P:", id)?;
        self.write(b"\"></template>")
    }

    pub(crate) fn write_pending(&mut self, prefix: &Text, id: u32) -> Result<(), OutOfMemory>
        ensures { OnOk result (self.new ≡ self.old ++ pending_bytes prefix.now id) }
    {
        self.write_comment(CommentKind::Pending)?;
        self.write(b"<template id=\"")?;
        self.write_id(prefix, b"B:", id)?;
        self.write(b"\"></template>")
    }

    pub(crate) fn write_failed(&mut self, digest: &Text) -> Result<(), OutOfMemory>
        ensures { OnOk result (self.new ≡ self.old ++ failed_bytes digest.now) }
    {
        self.write_comment(CommentKind::Client)?;
        self.write_digest(digest.as_bytes())
    }

    fn write_digest(&mut self, digest: &[u8]) -> Result<(), OutOfMemory>
        ensures { OnOk result (self.new ≡ self.old ++ digest_template digest.now) }
    {
        let Some(_) = digest.split_first() else {
            return self.write(b"<template></template>");
        };
        self.write(b"<template data-dgst=\"")?;
        self.write_escaped(digest)?;
        self.write(b"\"></template>")
    }

    pub(crate) fn write_container_start(
        &mut self,
        prefix: &Text,
        id: u32,
    ) -> Result<(), OutOfMemory>
        ensures { OnOk result (self.new ≡ self.old ++ container_start prefix.now id) }
    {
        self.write(b"<div hidden id=\"")?;
        self.write_id(prefix, b"S:", id)?;
        self.write(b"\">")
    }

    pub(crate) fn write_script(
        &mut self,
        alloc: Global,
        instruction: &Instruction,
        prefix: &Text,
        sent: &mut SentFunctions,
    ) -> Result<(), OutOfMemory>
        ensures written { OnOk result (self.new ≡ self.old
            ++ script_of prefix.now instruction.now (not (has sent.old (function_of instruction.now)))) }
        ensures sent { OnOk result (sent.new ≡ with_function sent.old (function_of instruction.now)) }
    {
        push_script(alloc, &mut self.bytes, instruction, prefix, sent)
    }
}
