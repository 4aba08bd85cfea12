//! Why a command is refused.

ghost use Rattle.std.specs.Prelude.{◌≡◌};
ghost use Rattle.fizz_cli.specs.Refusals.{status_of};

use fizz_text::Text;
use jsx_lex::LexKind;
use jsx_syntax::Wanted;

/// Why a command is refused. Each variant has one status.
#[derive(Debug, Drop)]
pub enum Refusal {
    /// 3: the file isn't there or can't be read.
    CannotRead { name: Text },
    /// 4: the file's bytes are refused.
    File { name: Text, fault: FileFault },
    /// 5: the content outside all boundaries failed, with this digest.
    ShellFailed { digest: Text },
    /// 6: the content outside all boundaries waits for this resource.
    ShellPostponed { resource: Text },
    /// 9: the file can't be written.
    CannotWrite { name: Text },
    /// 10: the text of the state would have so many bytes.
    StateTooLong { length: u64 },
}

/// What a file's bytes are refused for.
#[derive(Debug, Drop)]
pub enum FileFault {
    /// There are more bytes than these.
    TooLong { most: usize },
    Program(ProgramFault),
    Script(ScriptFault),
    Page(PageFault),
}

/// What the bytes of a component file are refused for. `at` is a place in them.
#[derive(Debug, Drop)]
pub enum ProgramFault {
    /// They aren't UTF-8. `valid` is the length of their longest prefix that is.
    NotUtf8 { valid: usize },
    /// No token, space or comment stands here.
    LexFault { at: usize, kind: LexKind },
    /// No file has this token after those before it.
    SyntaxFault { at: usize, wanted: Wanted },
    /// There are more than 1,000 components: so many.
    TooManyComponents { count: u32 },
    /// A name that is no property, no earlier constant and no variable of a map.
    UnknownName { at: usize },
    /// An element that is neither HTML's nor a component's.
    UnknownElement { at: usize },
    /// An attribute that its element does not know.
    UnknownAttribute { at: usize },
    /// A name that is taken.
    TwiceDefined { at: usize },
    /// A component that is used before it is defined.
    UsedBeforeDefined { at: usize },
    /// A component or a boundary in a fallback.
    FallbackNotPlain { at: usize },
    /// There is no component `App` without properties.
    NoApp,
    /// What `App` returns is deeper than 256: so deep.
    TooDeep { depth: u32 },
    /// With its script, the page weighs more than this.
    TooLarge { limit: u32 },
}

/// What the bytes of a settling script are refused for. `index` is the number of a line, from 0.
#[derive(Debug, Drop)]
pub enum ScriptFault {
    /// They are no JSON, or no array.
    NotJson,
    /// There are more than 65,536 lines: so many.
    TooManyEvents { count: u32 },
    /// The line has none of the forms.
    NotEvent { index: u32 },
    /// The digest has more than 1,024 bytes: so many.
    DigestTooLong { index: u32, length: usize },
    /// The value holds a number that isn't whole or no i64, or lies in more than 100 lists and records.
    BadValue { index: u32 },
    /// The line `first` has settled the name.
    SettledTwice { index: u32, first: u32 },
}

/// What the bytes of a page file are refused for. `at` is a place in them, as the document machine tells it.
#[derive(Debug, Drop)]
pub enum PageFault {
    /// They are not of the form of a page, their tags don't nest, or they end too early.
    Html { at: usize },
    /// A script calls a function that no script defined.
    UnknownFunction { at: usize },
    /// A script names an id that is not there.
    NoSuchId { at: usize, id: Text },
    /// A script names a template that belongs to no boundary.
    NotBoundary { at: usize },
    /// So many boundaries are pending at the end.
    StillPending { count: u64 },
}

/// The status that a refusal ends the program with.
pub(crate) fn status_of(refusal: &Refusal) -> u8
    ensures { result ≡ status_of refusal.now }
{
    match refusal {
        Refusal::CannotRead { .. } => 3,
        Refusal::File { .. } => 4,
        Refusal::ShellFailed { .. } => 5,
        Refusal::ShellPostponed { .. } => 6,
        Refusal::CannotWrite { .. } => 9,
        Refusal::StateTooLong { .. } => 10,
    }
}
