ghost use Rattle.std.specs.Prelude.{◌≡◌, ◌∷◌, [], None, Some, IfOk, MatchOption};
ghost use Rattle.gate_workers.specs.Notes.{IsNoted};

use crate::marks::Mark;
use rows_model::Memory;
use std::alloc::Global;
use std::marker::Model;

/// For how many marks room is taken before a session begins.
const ROOM: usize = 32;

/// The marks of a session that is under way. There is room for 32. Once memory ran out for a further
/// one they are lost, and the session goes on without.
#[derive(Drop)]
pub(crate) struct Notes {
    marks: Vec<Mark>,
    lost: bool,
}

impl Model for Notes {
    ghost use Rattle.std.specs.Prelude.{◌≤◌, List, Option, None, Some, if◌then◌else◌, vec_capacity};
    ghost use Rattle.gate_workers.specs.Rows.{marks_room};
    ghost use Rattle.gate_workers.specs.declared.marks.Mark.{Mark};

    ghost Value = { Option (List Mark) };

    ghost view = { λ notes. if notes.lost then None else Some notes.marks.items };

    ghost invariant = { λ notes. marks_room ≤ vec_capacity notes.marks };
}

impl Notes {
    /// No marks yet, and room for 32.
    pub(crate) fn new(alloc: Global) -> Result<Notes, Memory>
        ensures { IfOk result (λ notes. notes ≡ Some []) }
    {
        Ok(Notes {
            marks: Vec::with_capacity(alloc, ROOM)?,
            lost: false,
        })
    }

    /// Puts a mark last.
    pub(crate) fn note(&mut self, mark: Mark)
        ensures { IsNoted mark self.old self.new }
    {
        self.lost = self.lost || self.marks.push(mark).is_err();
    }

    /// The marks, unless they are lost. Room that none needed is given back.
    pub(crate) fn into_marks(self) -> Option<Vec<Mark>>
        ensures { MatchOption result (self ≡ None) (λ marks. self ≡ Some marks.items) }
    {
        let Notes { mut marks, lost } = self;
        if lost {
            return None;
        }
        marks.shrink_to_fit();
        Some(marks)
    }
}
