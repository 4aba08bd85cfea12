//! Instructions, and which functions were sent.

ghost use Rattle.std.specs.Prelude.{◌≡◌};
ghost use Rattle.fizz_instructions.specs.Bodies.{function_of};
ghost use Rattle.fizz_instructions.specs.Sending.{has, no_function_sent, with_function};

use crate::functions::Function;
use fizz_text::Text;

/// What a script of the page does. The numbers are those of the ids `B:`, `S:` and `P:`.
#[derive(Debug, Drop)]
pub enum Instruction {
    /// The container `S:segment` becomes the content of the boundary `B:boundary`.
    Complete { boundary: u32, segment: u32 },
    /// The container `S:segment` comes into the place of `P:segment`.
    Segment { segment: u32 },
    /// The client is to render the boundary `B:boundary`. The digest of the error may be empty.
    ClientRender { boundary: u32, digest: Text },
}

impl Instruction {
    /// The function that it calls.
    pub(crate) fn function(&self) -> Function
        ensures { result ≡ function_of self.now }
    {
        match self {
            Instruction::Complete { .. } => Function::CompleteBoundary,
            Instruction::Segment { .. } => Function::CompleteSegment,
            Instruction::ClientRender { .. } => Function::ClientRenderBoundary,
        }
    }
}

/// Which of the functions `$RC`, `$RS` and `$RX` a page has.
#[derive(Clone, Copy, Debug, PartialEq, Eq)]
pub struct SentFunctions {
    pub rc: bool,
    pub rs: bool,
    pub rx: bool,
}

impl SentFunctions {
    /// None of them, as at the start of a page and of a resumption.
    pub fn none() -> SentFunctions
        ensures { result ≡ no_function_sent }
    {
        SentFunctions {
            rc: false,
            rs: false,
            rx: false,
        }
    }

    pub(crate) fn has(&self, function: Function) -> bool
        ensures { result ≡ has self.now function }
    {
        match function {
            Function::CompleteBoundary => self.rc,
            Function::CompleteSegment => self.rs,
            Function::ClientRenderBoundary => self.rx,
        }
    }

    pub(crate) fn add(&mut self, function: Function)
        ensures { self.new ≡ with_function self.old function }
    {
        match function {
            Function::CompleteBoundary => self.rc = true,
            Function::CompleteSegment => self.rs = true,
            Function::ClientRenderBoundary => self.rx = true,
        }
    }
}
