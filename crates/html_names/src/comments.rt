//! The comments that a page may have.

ghost use Rattle.std.specs.Prelude.{◌≡◌, ◌≢◌, MatchOption};
ghost use Rattle.html_names.specs.Comments.{comment_spelling};
ghost use Rattle.html_names.specs.declared.comments.CommentKind.{CommentKind};

/// What a comment is for, as React's server renderer writes it.
#[derive(Clone, Copy, Debug, PartialEq, Eq, Drop)]
pub enum CommentKind {
    /// `<!--$-->` begins a boundary whose content stands.
    Complete,
    /// `<!--$?-->` begins a boundary that is still to get its content.
    Pending,
    /// `<!--$!-->` begins a boundary that the client is to render.
    Client,
    /// `<!--/$-->` ends a boundary.
    End,
    /// `<!-- -->` keeps two texts apart.
    Space,
}

impl CommentKind {
    /// The whole comment.
    pub fn spelling(self) -> &'static str
        ensures { result.now ≡ comment_spelling self }
    {
        match self {
            CommentKind::Complete => "<!--$-->",
            CommentKind::Pending => "<!--$?-->",
            CommentKind::Client => "<!--$!-->",
            CommentKind::End => "<!--/$-->",
            CommentKind::Space => "<!-- -->",
        }
    }
}

/// The comment that the bytes are, or `None` exactly where they are none.
pub fn comment(bytes: &[u8]) -> Option<CommentKind>
    ensures { MatchOption result ((kind : CommentKind) → bytes.now ≢ comment_spelling kind)
        (λ kind. bytes.now ≡ comment_spelling kind) }
{
    match bytes {
        b"<!--$-->" => Some(CommentKind::Complete),
        b"<!--$?-->" => Some(CommentKind::Pending),
        b"<!--$!-->" => Some(CommentKind::Client),
        b"<!--/$-->" => Some(CommentKind::End),
        b"<!-- -->" => Some(CommentKind::Space),
        _ => None,
    }
}
