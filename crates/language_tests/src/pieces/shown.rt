//! A piece in words: its bytes, then each cut with the byte before which it stands, its path, and of a hole the
//! resource and whether a text stands before it.

use fizz_piece::{Kid, Piece};
use fizz_text::{Path, Text};
use std::alloc::Global;
use std::test::Fail;

pub(super) fn piece_in_words(alloc: Global, piece: &Piece) -> Result<String, Fail> {
    match piece {
        Piece::Done { bytes, kids, .. } => {
            let mut words = String::from_utf8(Vec::from_slice(alloc, bytes)?)?;
            for kid in kids.as_slice() {
                push_kid(alloc, &mut words, kid)?;
            }
            Ok(words)
        }
        Piece::Blocked { resource, .. } => words_of(alloc, "waits for ", resource),
        Piece::Failed { digest, .. } => words_of(alloc, "fails with ", digest),
    }
}

fn words_of(alloc: Global, first: &str, name: &Text) -> Result<String, Fail> {
    let mut words = String::from_str(alloc, first)?;
    words.push_str(name.as_str())?;
    Ok(words)
}

fn push_kid(alloc: Global, words: &mut String, kid: &Kid) -> Result<(), Fail> {
    match kid {
        Kid::Hole {
            at,
            path,
            resource,
            lead,
            ..
        } => {
            words.push_str(format!(in alloc; " hole {at} ")?.as_str())?;
            push_path(alloc, words, path)?;
            words.push_str(" ")?;
            words.push_str(resource.as_str())?;
            words.push_str(if *lead { " after a text" } else { "" })?;
        }
        Kid::Boundary { at, path, .. } => {
            words.push_str(format!(in alloc; " boundary {at} ")?.as_str())?;
            push_path(alloc, words, path)?;
        }
    }
    Ok(())
}

fn push_path(alloc: Global, words: &mut String, path: &Path) -> Result<(), Fail> {
    for step in path.steps() {
        let word = format!(in alloc; "/{step}")?;
        words.push_str(word.as_str())?;
    }
    Ok(())
}
