//! Marks of one kind, as they are gathered.
use op_model::{Change, Mark};
use std::alloc::AllocError;

/// Where a mark begins that still goes on.
#[derive(Drop)]
pub(crate) struct MarkingRun {
    begun: Option<(u32, Mark)>,
}

impl MarkingRun {
    /// No mark.
    pub(crate) fn none() -> MarkingRun {
        MarkingRun { begun: None }
    }

    /// Comes to a place from which on there is this mark, or none: one that was there and isn't any
    /// more ends.
    pub(crate) fn come(
        &mut self,
        at: u32,
        mark: Option<Mark>,
        marks: &mut Vec<Change>,
    ) -> Result<(), AllocError> {
        if let (Some((_, begun)), Some(mark)) = (&self.begun, &mark) {
            if begun == mark {
                return Ok(());
            }
        }
        let begun = match mark {
            Some(mark) => Some((at, mark)),
            None => None,
        };
        if let Some((from, mark)) = std::mem::replace(&mut self.begun, begun) {
            marks
                .push(Change::Mark { from, to: at, mark })
                .map_err(AllocError::from)?;
        }
        Ok(())
    }

    /// Whether there is a mark that goes on.
    pub(crate) fn goes_on(&self) -> bool {
        self.begun.is_some()
    }
}
