//! The reading of scripts.

ghost use Rattle.std.specs.Prelude.{◌≡◌, ◌≢◌, ◌++◌, ◌<◌, ◌^◌, if◌then◌else◌, ℕ, List, [], true, Some, IfOk, IfErr, OnErr, MatchOption};
ghost use Rattle.std.specs.Str.{IsUtf8};
ghost use Rattle.fizz_text.specs.Hexadecimal.{hexadecimal};
ghost use Rattle.fizz_instructions.specs.Bodies.{call_with, digest_argument, function_of, id_of};
ghost use Rattle.fizz_instructions.specs.Functions.{definition_of, name_of};
ghost use Rattle.fizz_instructions.specs.Sending.{with_function};
ghost use Rattle.fizz_instructions.specs.Reading.{AreArgumentsOf, AreIds, AreNoArguments, AreNoIds, BeginsNoId, BeginsWithId, HasBodyCause, IsBodyOf, IsCallOf, IsNoBody, IsNoCallOf, Says};
ghost use Rattle.fizz_instructions.specs.declared.functions.Function.{Function};
ghost use Rattle.fizz_instructions.specs.declared.functions.Function.TheVariants.{CompleteBoundary, CompleteSegment, ClientRenderBoundary};
ghost use Rattle.fizz_instructions.specs.declared.instruction.Instruction.{Instruction};
ghost use Rattle.fizz_instructions.specs.declared.reading.BodyFault.TheVariants.{OutOfMemory as Memory};

use crate::functions::Function;
use crate::instruction::{Instruction, SentFunctions};
use fizz_text::{OutOfMemory, Text, hex_of};
use html_names::read_js_string;
use std::alloc::Global;
use std::str;
use thiserror::Error;

/// Why the body of a script is no instruction.
#[derive(Clone, Copy, Debug, PartialEq, Eq, Drop, Error)]
pub enum BodyFault {
    /// It is no instruction's body.
    #[error("no instruction has this body")]
    BadInstruction,
    /// It calls a function that is neither known nor defined in it.
    #[error("a function is called that the page doesn't have")]
    UnknownFunction,
    #[error("out of memory")]
    OutOfMemory,
}

impl From<OutOfMemory> for BodyFault {
    ghost from_gives = { λ _ e. e ≡ Memory };

    fn from(_error: OutOfMemory) -> BodyFault {
        BodyFault::OutOfMemory
    }
}

/// The instruction whose script has this body, in a page with these ids. Then `known` has its function. A function
/// that is known may be defined again. A refusal leaves `known` as it was.
pub fn read_script_body(
    alloc: Global,
    body: &[u8],
    prefix: &Text,
    known: &mut SentFunctions,
) -> Result<Instruction, BodyFault>
    ensures read { IfOk result (λ i. Says prefix.now body.now known.old i) }
    ensures learned { IfOk result (λ i. known.new ≡ with_function known.old (function_of i)) }
    ensures accepted { (i : Instruction) → Says prefix.now body.now known.old i
        → IfOk result (λ found. found ≡ i) × IfErr result (λ e. e ≡ Memory) }
    ensures refused { IfErr result (HasBodyCause prefix.now body.now known.old) }
    ensures unchanged { OnErr result (known.new ≡ known.old) }
{
    let Some((instruction, defines)) = read_body(alloc, body, prefix.as_str())? else {
        return Err(BodyFault::BadInstruction);
    };
    let function = instruction.function();
    if !defines && !known.has(function) {
        return Err(BodyFault::UnknownFunction);
    }
    known.add(function);
    Ok(instruction)
}

/// The instruction, and whether its function is defined.
fn read_body(
    alloc: Global,
    body: &[u8],
    prefix: &str,
) -> Result<Option<(Instruction, bool)>, OutOfMemory>
    ensures { IfOk result (λ found. MatchOption found (IsNoBody prefix.now body.now)
        (λ p. IsBodyOf prefix.now body.now p.0 p.1)) }
{
    let Some(function) = named_function(body) else {
        return Ok(None);
    };
    let (defines, call) = split_definition(body, function);
    match read_call(alloc, function, call, prefix)? {
        Some(instruction) => Ok(Some((instruction, defines))),
        None => Ok(None),
    }
}

/// The function whose name begins the bytes, if one does. The third byte tells the names apart.
fn named_function(bytes: &[u8]) -> Option<Function>
    ensures { (function : Function) (more : List ℕ) → bytes.now ≡ name_of function ++ more
        → result ≡ Some function }
{
    match bytes.get(2) {
        Some(b'C') => Some(Function::CompleteBoundary),
        Some(b'S') => Some(Function::CompleteSegment),
        Some(b'X') => Some(Function::ClientRenderBoundary),
        _ => None,
    }
}

/// Whether the function's definition begins the body, and what follows it.
fn split_definition(body: &[u8], function: Function) -> (bool, &[u8])
    ensures split { body.now ≡ (if result.0 then definition_of function else []) ++ result.1.now }
    ensures first { (more : List ℕ) → body.now ≡ definition_of function ++ more → result.0 ≡ true }
{
    match body.strip_prefix(function.definition().as_bytes()) {
        Some(call) => (true, call),
        None => (false, body),
    }
}

fn read_call(
    alloc: Global,
    function: Function,
    call: &[u8],
    prefix: &str,
) -> Result<Option<Instruction>, OutOfMemory>
    ensures { IfOk result (λ found. MatchOption found (IsNoCallOf prefix.now call.now function)
        (λ i. IsCallOf prefix.now call.now function i)) }
{
    let Some(arguments) = split_call(call, function) else {
        return Ok(None);
    };
    match function {
        Function::CompleteBoundary => read_complete(alloc, arguments, prefix),
        Function::CompleteSegment => read_segment(alloc, arguments, prefix),
        Function::ClientRenderBoundary => read_client_render(alloc, arguments, prefix),
    }
}

/// What stands between the parentheses.
fn split_call(call: &[u8], function: Function) -> Option<&[u8]>
    ensures { MatchOption result ((arguments : List ℕ) → call.now ≢ call_with function arguments)
        (λ arguments. call.now ≡ call_with function arguments.now) }
{
    let after = call.strip_prefix(function.name().as_bytes())?;
    let inside = after.strip_prefix(b"(")?;
    inside.strip_suffix(b")")
}

fn read_complete(
    alloc: Global,
    arguments: &[u8],
    prefix: &str,
) -> Result<Option<Instruction>, OutOfMemory>
    ensures { IfOk result (λ found. MatchOption found
        (AreNoArguments prefix.now arguments.now CompleteBoundary)
        (λ i. AreArgumentsOf prefix.now arguments.now CompleteBoundary i)) }
{
    match read_two_ids(alloc, arguments, prefix, "B:", "S:")? {
        Some((boundary, segment)) => Ok(Some(Instruction::Complete { boundary, segment })),
        None => Ok(None),
    }
}

fn read_segment(
    alloc: Global,
    arguments: &[u8],
    prefix: &str,
) -> Result<Option<Instruction>, OutOfMemory>
    ensures { IfOk result (λ found. MatchOption found
        (AreNoArguments prefix.now arguments.now CompleteSegment)
        (λ i. AreArgumentsOf prefix.now arguments.now CompleteSegment i)) }
{
    let Some((segment, placeholder)) = read_two_ids(alloc, arguments, prefix, "S:", "P:")? else {
        return Ok(None);
    };
    if segment == placeholder {
        Ok(Some(Instruction::Segment { segment }))
    } else {
        Ok(None)
    }
}

fn read_client_render(
    alloc: Global,
    arguments: &[u8],
    prefix: &str,
) -> Result<Option<Instruction>, OutOfMemory>
    ensures { IfOk result (λ found. MatchOption found
        (AreNoArguments prefix.now arguments.now ClientRenderBoundary)
        (λ i. AreArgumentsOf prefix.now arguments.now ClientRenderBoundary i)) }
{
    let Some((boundary, rest)) = read_id(alloc, arguments, prefix, "B:")? else {
        return Ok(None);
    };
    match read_digest(alloc, rest)? {
        Some(digest) => Ok(Some(Instruction::ClientRender { boundary, digest })),
        None => Ok(None),
    }
}

/// The digest that this argument gives, which is empty where there is no argument.
fn read_digest(alloc: Global, argument: &[u8]) -> Result<Option<Text>, OutOfMemory>
    ensures { IfOk result (λ found. MatchOption found
        ((digest : List ℕ) → IsUtf8 digest → argument.now ≢ digest_argument digest)
        (λ digest. IsUtf8 digest × (argument.now ≡ digest_argument digest))) }
{
    if argument.is_empty() {
        return Ok(Some(Text::fixed("")));
    }
    let Some(string) = argument.strip_prefix(b",") else {
        return Ok(None);
    };
    let Some((digest, length)) = read_js_string(alloc, string)? else {
        return Ok(None);
    };
    // An empty digest is no argument.
    if digest.is_empty() {
        return Ok(None);
    }
    if length < string.len() {
        return Ok(None);
    }
    Ok(Some(Text::from_bytes(digest).unwrap()))
}

/// The numbers of two ids with these marks, with a comma between them.
fn read_two_ids(
    alloc: Global,
    arguments: &[u8],
    prefix: &str,
    first: &str,
    second: &str,
) -> Result<Option<(u32, u32)>, OutOfMemory>
    ensures { IfOk result (λ found. MatchOption found
        (AreNoIds prefix.now first.now second.now arguments.now)
        (λ p. AreIds prefix.now first.now second.now arguments.now p.0 p.1)) }
{
    let Some((one, rest)) = read_id(alloc, arguments, prefix, first)? else {
        return Ok(None);
    };
    let Some(rest) = rest.strip_prefix(b",") else {
        return Ok(None);
    };
    let Some((two, left)) = read_id(alloc, rest, prefix, second)? else {
        return Ok(None);
    };
    if left.is_empty() {
        Ok(Some((one, two)))
    } else {
        Ok(None)
    }
}

/// The number of the id whose string begins the bytes, and what follows.
fn read_id<'a>(
    alloc: Global,
    bytes: &'a [u8],
    prefix: &str,
    mark: &str,
) -> Result<Option<(u32, &'a [u8])>, OutOfMemory>
    ensures { IfOk result (λ found. MatchOption found (BeginsNoId prefix.now mark.now bytes.now)
        (λ p. BeginsWithId prefix.now mark.now bytes.now p.0 p.1.now)) }
{
    let Some((id, length)) = read_js_string(alloc, bytes)? else {
        return Ok(None);
    };
    match id_number(&id, prefix.as_bytes(), mark.as_bytes()) {
        Some(number) => Ok(Some((number, &bytes[length..]))),
        None => Ok(None),
    }
}

/// The number of an id with this prefix and mark.
fn id_number(id: &[u8], prefix: &[u8], mark: &[u8]) -> Option<u32>
    ensures { MatchOption result ((n : ℕ) → n < 2 ^ 32 → id.now ≢ id_of prefix.now mark.now n)
        (λ n. (n < 2 ^ 32) × (id.now ≡ id_of prefix.now mark.now n)) }
{
    let Some(rest) = id.strip_prefix(prefix) else {
        return None;
    };
    let Some(numeral) = rest.strip_prefix(mark) else {
        return None;
    };
    number_of(numeral)
}

/// The number that has this numeral. It is valued first, and then it has to be the one that the number is written as.
fn number_of(numeral: &[u8]) -> Option<u32>
    ensures { MatchOption result ((n : ℕ) → n < 2 ^ 32 → numeral.now ≢ hexadecimal n)
        (λ n. (n < 2 ^ 32) × (numeral.now ≡ hexadecimal n)) }
{
    let value = digits_number(numeral)?;
    if hex_of(value).as_bytes() == numeral {
        Some(value)
    } else {
        None
    }
}

/// The value of digits, in either case, with zeros or a plus before them or without.
fn digits_number(digits: &[u8]) -> Option<u32>
    ensures { (n : ℕ) → n < 2 ^ 32 → digits.now ≡ hexadecimal n → result ≡ Some n }
{
    let Ok(text) = str::from_utf8(digits) else {
        return None;
    };
    u32::from_str_radix(text, 16).ok()
}
