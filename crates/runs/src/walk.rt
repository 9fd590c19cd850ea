//! A walk over the records of a file.

ghost use Rattle.std.specs.Prelude.{◌≡◌, Some, None, Ok, Err, MatchOption, MatchResult, IfOk, ⊤};
ghost use Rattle.std.specs.Iterator.{YieldsFirst, MakesProgress, item_count};
ghost use Rattle.runs.specs.Runs.{opened, turn, run, given_by, landing};
ghost use Rattle.runs.specs.Walks.{outcomes, standing, left, item_by, standing_after};

use crate::open::open_file;
use steps::{Fault, FileState, Position, RecordAt, step_at};

/// A walk that stands before a record of the file, or behind END.
#[derive(Drop)]
pub struct Walk<'a> {
    file: &'a [u8],
    position: Position,
    // Whether the iterator has given a fault, behind which it gives nothing.
    faulted: bool,
}

impl<'a> Walk<'a> {
    /// A walk that stands before the first record.
    pub fn over(file: &'a [u8]) -> Result<Walk<'a>, Fault>
        ensures opens { MatchResult result (λ w. (Ok w.position ≡ opened file.now) × (w.file.now ≡ file.now)) (λ e. Err e ≡ opened file.now) }
        ensures stands { IfOk result (λ w. standing w ≡ Some w.position) }
        ensures gives { IfOk result (λ w. left w ≡ outcomes (run file.now)) }
    {
        let position = open_file(file)?;
        Ok(Walk {
            file,
            position,
            faulted: false,
        })
    }

    /// The next record, behind which the walk then stands; none behind END. At a fault the walk stays, so the same fault is told
    /// again.
    pub fn next(&mut self) -> Result<Option<RecordAt>, Fault>
        ensures answer { result ≡ given_by (turn self.old.file.now self.old.position) }
        ensures moved { self.new.position ≡ landing self.old.position (turn self.old.file.now self.old.position) }
        ensures same { self.new.file ≡ self.old.file }
        ensures keeps { self.new.faulted ≡ self.old.faulted }
    {
        if self.position.context.state == FileState::Ended {
            return Ok(None);
        }
        let step = step_at(self.file, self.position)?;
        self.position = step.after;
        Ok(Some(step.found))
    }
}

/// Each record up to END, or up to the first fault, and then that fault.
impl<'a> Iterator for Walk<'a> {
    type Item = Result<RecordAt, Fault>;

    ghost next_gives = { YieldsFirst left };

    ghost remaining = { item_count left };

    /// The next record or the fault that ends the walk, or `None` behind END and behind a fault.
    fn next(&mut self) -> Option<Result<RecordAt, Fault>>
        ensures steps { YieldsFirst left self.old result self.new }
        ensures goes { MakesProgress (λ _. ⊤) (item_count left) self.old result self.new }
        ensures answer { MatchOption (standing self.old) (result ≡ None) (λ p. result ≡ item_by (turn self.old.file.now p)) }
        ensures moved { MatchOption (standing self.old) (standing self.new ≡ None) (λ p. standing self.new ≡ standing_after p (turn self.old.file.now p)) }
        ensures waits { standing self.new ≡ None → self.new.position ≡ self.old.position }
        ensures stays { self.new.file ≡ self.old.file }
    {
        if self.faulted {
            return None;
        }
        match self.next() {
            Ok(Some(found)) => Some(Ok(found)),
            Ok(None) => None,
            Err(fault) => {
                self.faulted = true;
                Some(Err(fault))
            }
        }
    }
}
