//! The modes of the lexer.

ghost use Rattle.std.specs.Prelude.{◌≡◌, ◌↔◌, [], reverse, OnOk, IsTrue};
ghost use Rattle.jsx_lex.specs.ModeStack.{ModesAt, first_modes, modes_after};

use std::alloc::{AllocError, Global};

/// Where a place of a text lies, which decides what may stand there.
#[derive(Clone, Copy, Debug, PartialEq, Eq)]
pub enum Mode {
    /// Statements and expressions.
    Code,
    /// After the `<` of an element, up to its `>` or `/>`.
    Tag,
    /// Between the tags of an element.
    Children,
    /// After `</`, up to the `>`.
    Close,
}

/// What a sign does to the modes.
#[derive(Clone, Copy, Debug, PartialEq, Eq)]
pub enum Change {
    /// Nothing.
    Keep,
    /// Begins a mode within the mode that stands.
    Push(Mode),
    /// Puts another mode in the place of the mode that stands.
    Turn(Mode),
    /// Goes back to the mode around.
    Pop,
}

/// The mode at a place, and those around it, the nearest last.
#[derive(Drop)]
pub(crate) struct Modes {
    pub(crate) mode: Mode,
    pub(crate) around: Vec<Mode>,
}

impl Modes {
    ghost use Rattle.jsx_lex.specs.ModesView.{modes_of};

    /// The modes at the beginning of a text.
    pub(crate) fn new(alloc: Global) -> Modes
        ensures { modes_of result ≡ first_modes }
    {
        Modes {
            mode: Mode::Code,
            around: Vec::new(alloc),
        }
    }

    /// Whether these are the modes at the beginning of a text.
    pub(crate) fn is_first(&self) -> bool
        ensures { IsTrue result ↔ (modes_of self.now ≡ first_modes) }
    {
        self.mode == Mode::Code && self.around.is_empty()
    }

    /// Goes on to the modes after a sign.
    pub(crate) fn change(&mut self, change: Change) -> Result<(), AllocError>
        ensures { OnOk result (modes_of self.new ≡ modes_after change (modes_of self.old)) }
    {
        match change {
            Change::Keep => {}
            Change::Push(mode) => {
                self.around.push(self.mode)?;
                self.mode = mode;
            }
            Change::Turn(mode) => self.mode = mode,
            Change::Pop => self.mode = self.around.pop().unwrap_or(Mode::Code),
        }
        Ok(())
    }
}
