ghost use Rattle.std.specs.Prelude.{◌≡◌};
ghost use Rattle.jsx_check.specs.declared.fault.CheckFault.TheVariants.{OutOfMemory as Memory};

use fizz_text::OutOfMemory;
use thiserror::Error;

/// Why a file is refused. `at` is the place of a name's token, a byte offset in the text.
#[derive(Debug, Drop, Error)]
pub enum CheckFault {
    /// There are more than 1,000 components: so many.
    #[error("too many components")]
    TooManyComponents { count: u32 },
    #[error("a name that is no property, no earlier constant and no map variable")]
    UnknownName { at: usize },
    #[error("an element that is neither HTML's nor a component's")]
    UnknownElement { at: usize },
    #[error("an attribute that its element does not know")]
    UnknownAttribute { at: usize },
    #[error("a name that is taken")]
    TwiceDefined { at: usize },
    #[error("a component that is used before it is defined")]
    UsedBeforeDefined { at: usize },
    #[error("a component or a boundary in a fallback")]
    FallbackNotPlain { at: usize },
    #[error("no component App without properties")]
    NoApp,
    /// What `App` returns is deeper than 256: so deep, where the components that it calls are opened.
    #[error("too deep")]
    TooDeep { depth: u32 },
    #[error("out of memory")]
    OutOfMemory,
}

impl From<OutOfMemory> for CheckFault {
    ghost from_gives = { λ _ e. e ≡ Memory };

    fn from(_e: OutOfMemory) -> CheckFault {
        CheckFault::OutOfMemory
    }
}
