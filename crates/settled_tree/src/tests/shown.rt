//! A forest in words: an element is its name and its kids, a text stands between quotes, a boundary is `B` with its
//! path, its content and its fallback, a failure `F` with its digest, and a wait `W` with its path and its resource.

use crate::{FNode, Forest};
use fizz_text::Path;
use std::alloc::Global;
use std::test::Fail;

pub(super) fn forest_in_words(alloc: Global, forest: &Forest) -> Result<String, Fail> {
    let mut words = String::new(alloc);
    push_nodes(alloc, &mut words, forest.nodes.as_slice())?;
    Ok(words)
}

#[cycle(shown)]
fn push_nodes(alloc: Global, words: &mut String, nodes: &[FNode]) -> Result<(), Fail> {
    words.push_str("(")?;
    for node in nodes {
        push_node(alloc, words, node)?;
    }
    words.push_str(")")?;
    Ok(())
}

#[cycle(shown)]
fn push_node(alloc: Global, words: &mut String, node: &FNode) -> Result<(), Fail> {
    match node {
        FNode::Element { name, kids, .. } => {
            words.push_str(name.as_str())?;
            push_nodes(alloc, words, kids.as_slice())
        }
        FNode::Text(text) => {
            words.push_str("'")?;
            words.push_str(text.as_str())?;
            words.push_str("'")?;
            Ok(())
        }
        FNode::Boundary {
            path,
            content,
            fallback,
        } => {
            words.push_str("B")?;
            push_path(alloc, words, path)?;
            push_nodes(alloc, words, content.as_slice())?;
            push_nodes(alloc, words, fallback.as_slice())
        }
        FNode::Fail(digest) => {
            words.push_str("F ")?;
            words.push_str(digest.as_str())?;
            Ok(())
        }
        FNode::Wait { resource, path } => {
            words.push_str("W")?;
            push_path(alloc, words, path)?;
            words.push_str(resource.as_str())?;
            Ok(())
        }
    }
}

fn push_path(alloc: Global, words: &mut String, path: &Path) -> Result<(), Fail> {
    for step in path.steps() {
        let word = format!(in alloc; "/{step}")?;
        words.push_str(word.as_str())?;
    }
    words.push_str(" ")?;
    Ok(())
}
