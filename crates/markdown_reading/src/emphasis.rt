//! Which runs begin and end emphasis.
use crate::pieces::{Bracket, Piece};
use crate::runs::Run;
use std::alloc::{AllocError, Global};

/// How many sorts of runs there are that end text.
const SORTS: usize = 12;

/// Where the search for a beginning ends, for each sort of runs that end text: what stands lower
/// was looked at before.
type Floors = [usize; SORTS];

/// What stands outside of a link.
#[derive(Clone, Copy)]
struct Outside {
    height: usize,
    floors: Floors,
}

/// The runs that may still begin emphasis.
#[derive(Drop)]
struct Waiting {
    /// The numbers of the runs, the latest one last.
    runs: Vec<usize>,
    floors: Floors,
    outside: Vec<Outside>,
}

/// Pairs runs, each that ends text with the latest that may begin it; what stands within a link
/// pairs within it alone. An error is out of memory (1).
pub(crate) fn pair(
    alloc: Global,
    pieces: &[Piece],
    brackets: &[Bracket],
    runs: &mut Vec<Run>,
) -> Result<(), AllocError> {
    let mut waiting = Waiting {
        runs: Vec::new(alloc),
        floors: [0; SORTS],
        outside: Vec::new(alloc),
    };
    for piece in pieces {
        match *piece {
            Piece::Shown(_) => {}
            Piece::Run(number) => waiting.take(runs, number)?,
            Piece::Open(number) => {
                if brackets.get(number).is_some_and(|found| found.is_open()) {
                    waiting.enter()?;
                }
            }
            Piece::Close(_) => waiting.leave(),
        }
    }
    Ok(())
}

impl Waiting {
    /// Begins a link.
    fn enter(&mut self) -> Result<(), AllocError> {
        let height = self.runs.len();
        let floors = self.floors;
        self.outside.push(Outside { height, floors })?;
        self.floors = [height; SORTS];
        Ok(())
    }

    /// Ends a link.
    fn leave(&mut self) {
        if let Some(outside) = self.outside.pop() {
            self.runs.truncate(outside.height);
            let floors = outside.floors;
            self.floors = floors;
        }
    }

    /// Takes a run: it ends what it may, and then may begin text itself.
    fn take(&mut self, runs: &mut Vec<Run>, number: usize) -> Result<(), AllocError> {
        let Some(run) = runs.get(number).copied() else {
            return Ok(());
        };
        if run.can_close {
            self.end(runs, number, run.length);
        }
        let is_left = runs.get(number).is_some_and(|run| run.left > 0);
        if run.can_open && is_left {
            self.runs.push(number)?;
        }
        Ok(())
    }

    /// Ends with a run what it may.
    fn end(&mut self, runs: &mut Vec<Run>, number: usize, length: usize) {
        for _ in 0..length {
            let Some(end) = runs.get(number).copied() else {
                return;
            };
            if end.left == 0 {
                return;
            }
            let Some(height) = self.beginning(runs, &end) else {
                self.raise(end.sort());
                return;
            };
            self.join(runs, height, number, end.left);
        }
    }

    /// Where the run waits that begins what this one ends.
    fn beginning(&self, runs: &[Run], end: &Run) -> Option<usize> {
        let floor = self.floors.get(end.sort()).copied().unwrap_or(0);
        for height in (floor..self.runs.len()).rev() {
            let found = self.runs.get(height).and_then(|number| runs.get(*number));
            if found.is_some_and(|run| run.may_pair(end)) {
                return Some(height);
            }
        }
        None
    }

    /// Pairs a run with the one that waits there: strong text where both have two characters. What
    /// waited after that one waits no longer.
    fn join(&mut self, runs: &mut Vec<Run>, height: usize, number: usize, left: usize) {
        let Some(begin) = self.runs.get(height).copied() else {
            return;
        };
        let mut is_spent = false;
        let mut is_strong = false;
        if let Some(run) = runs.get_mut(begin) {
            is_strong = run.left >= 2 && left >= 2;
            run.begin(is_strong);
            is_spent = run.left == 0;
        }
        if let Some(run) = runs.get_mut(number) {
            run.end(is_strong);
        }
        self.cut(if is_spent {
            height
        } else {
            height.saturating_add(1)
        });
    }

    /// Keeps so many runs alone.
    fn cut(&mut self, height: usize) {
        self.runs.truncate(height);
        for floor in self.floors.iter_mut() {
            *floor = (*floor).min(height);
        }
    }

    /// Notes that no run that waits begins what a run of this sort ends.
    fn raise(&mut self, sort: usize) {
        let height = self.runs.len();
        if let Some(floor) = self.floors.get_mut(sort) {
            *floor = height;
        }
    }
}
