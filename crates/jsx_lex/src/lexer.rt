//! The reading of a whole text.

ghost use Rattle.std.specs.Prelude.{◌≡◌, ◌+◌, ◌^◌, ◌<◌, ◌++◌, OnOk, length, List, IfOk, IfErr, MatchResult};
ghost use Rattle.jsx_lex.specs.TokenLists.{AreTokens, InOrder, token_at};
ghost use Rattle.jsx_lex.specs.FaultTable.{HasCause, IsFaultAt};
ghost use Rattle.jsx_lex.specs.declared.token.Token.{Token};
ghost use Rattle.jsx_lex.specs.declared.fault.LexFault.TheVariants.{OutOfMemory};

use crate::fault::{LexFault, LexKind, kind_at};
use crate::lexeme::{Found, lexeme_at};
use crate::mode::Modes;
use crate::token::Token;
use std::alloc::{AllocError, Global};

/// The tokens of a text, which is UTF-8.
///
/// Takes one pass, in time in proportion to the text. A text without tokens is refused at the first place where
/// nothing stands that may stand there; so is one that ends within braces or an element, at its length.
pub fn lex(alloc: Global, text: &[u8]) -> Result<Vec<Token>, LexFault>
    ensures found { IfOk result (λ v. AreTokens text.now v.items) }
    ensures in_order { IfOk result (λ v. InOrder 0 (length text.now) v.items) }
    ensures refused { IfErr result (HasCause text.now) }

    // A text that has tokens is refused only for want of memory.
    ensures only { (tokens : List Token) → AreTokens text.now tokens →
        MatchResult result (λ v. v.items ≡ tokens) (λ e. e ≡ OutOfMemory) }
{
    let mut tokens = Vec::new(alloc);
    let mut modes = Modes::new(alloc);
    let mut at = 0;
    'lexemes: while at < text.len() {
        let rest = &text[at..];
        let Some(found) = lexeme_at(modes.mode, modes.is_first(), rest) else {
            return Err(LexFault::Bad {
                at,
                kind: kind_at(modes.mode, rest),
            });
        };
        push_token(&mut tokens, at, found)?;
        modes.change(found.change)?;
        at += found.length;
    }
    if modes.is_first() {
        Ok(tokens)
    } else {
        Err(LexFault::Bad {
            at,
            kind: LexKind::End,
        })
    }
}

/// Puts the token that was found at a place, if it is one, at the end.
fn push_token(tokens: &mut Vec<Token>, from: usize, found: Found) -> Result<(), AllocError>
    requires { from + found.length < 2 ^ 64 }
    ensures { OnOk result (tokens.new.items
        ≡ tokens.old.items ++ token_at from found.kind found.length) }
{
    if let Some(kind) = found.kind {
        tokens.push(Token {
            kind,
            from,
            to: from + found.length,
        })?;
    }
    Ok(())
}
