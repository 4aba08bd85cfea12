ghost use Rattle.std.specs.Prelude.{◌≡◌, Some, slice_set, true};
ghost use Rattle.fizz_boundary.specs.Bounds.{mark_at};

use crate::boundary::Mark;
use std::marker::Model;

/// How boundaries are printed, by their numbers: a copy, with which a flush works until it succeeds.
#[derive(Debug, Drop)]
pub struct Marks {
    pub(crate) items: Vec<Mark>,
}

impl Model for Marks {
    ghost use Rattle.std.specs.Prelude.{List};
    ghost use Rattle.fizz_boundary.specs.declared.boundary.Mark.{Mark};

    ghost Value = { List Mark };

    ghost view = { λ m. m.items.items };
}

impl Marks {
    /// How a boundary is printed; one that was never made isn't.
    pub fn mark(&self, id: u32) -> Mark
        ensures { result ≡ mark_at self.now id }
    {
        match self.items.get(id as usize) {
            Some(mark) => *mark,
            None => Mark {
                drawn: None,
                revealed: false,
            },
        }
    }

    fn set(&mut self, id: u32, mark: Mark)
        ensures { self.new ≡ slice_set self.old id mark }
    {
        if let Some(own) = self.items.get_mut(id as usize) {
            *own = mark;
        }
    }

    /// The boundary is printed as pending, with an id.
    pub fn draw(&mut self, id: u32, h: u32)
        ensures { self.new ≡ slice_set self.old id (record (mark_at self.old id) { drawn = Some h }) }
    {
        let mut mark = self.mark(id);
        mark.drawn = Some(h);
        self.set(id, mark);
    }

    /// The boundary is printed as complete, or its instruction is.
    pub fn reveal(&mut self, id: u32)
        ensures { self.new ≡ slice_set self.old id (record (mark_at self.old id) { revealed = true }) }
    {
        let mut mark = self.mark(id);
        mark.revealed = true;
        self.set(id, mark);
    }
}
