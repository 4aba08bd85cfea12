ghost use Rattle.std.specs.Prelude.{◌≡◌, slice_set, true};
ghost use Rattle.fizz_segment.specs.Calls.{drawn_as};
ghost use Rattle.fizz_segment.specs.Tree.{mark_at};

use crate::segment::{Flags, Mark, SegId};
use std::marker::Model;

/// How segments are printed, by their numbers: a copy, with which a flush works until it succeeds.
#[derive(Debug, Drop)]
pub struct Marks {
    pub(crate) items: Vec<Mark>,
}

impl Model for Marks {
    ghost use Rattle.std.specs.Prelude.{List};
    ghost use Rattle.fizz_segment.specs.declared.segment.Mark.{Mark};

    ghost Value = { List Mark };

    ghost view = { λ m. m.items.items };
}

impl Marks {
    /// How a segment is printed; one that was never made isn't.
    pub fn mark(&self, id: SegId) -> Mark
        ensures { result ≡ mark_at self.now id }
    {
        match self.items.get(id.0 as usize) {
            Some(mark) => *mark,
            None => Mark {
                flags: Flags {
                    lead: false,
                    embedded: false,
                },
                drawn: None,
                printed: false,
            },
        }
    }

    fn set(&mut self, id: SegId, mark: Mark)
        ensures { self.new ≡ slice_set self.old id mark }
    {
        if let Some(own) = self.items.get_mut(id.0 as usize) {
            *own = mark;
        }
    }

    /// The segment draws the id of its placeholder. If it isn't complete, its flags are cleared.
    pub fn draw(&mut self, id: SegId, h: u32, is_complete: bool)
        ensures { self.new ≡ slice_set self.old id (drawn_as h is_complete (mark_at self.old id)) }
    {
        let mut mark = self.mark(id);
        mark.drawn = Some(h);
        if !is_complete {
            mark.flags = Flags {
                lead: false,
                embedded: false,
            };
        }
        self.set(id, mark);
    }

    /// The segment is printed.
    pub fn set_printed(&mut self, id: SegId)
        ensures { self.new ≡ slice_set self.old id (record (mark_at self.old id) { printed = true }) }
    {
        let mut mark = self.mark(id);
        mark.printed = true;
        self.set(id, mark);
    }
}
