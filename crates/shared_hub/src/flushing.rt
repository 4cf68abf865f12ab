//! The flusher's thread.
ghost use Rattle.hub_parts.specs.Flusher.{IsFlusher};
ghost use Rattle.shared_hub.specs.Going.{Goes};

use crate::checkpoint::{Checkpoint, Point};
use crate::committer::Committer;
use crate::shared::Shared;
use disk_trait::Disk;
use group_commit::{Phase, StoreError};
use hub_parts::Met;
use pass_books::BookNames;
use std::io;
use std::rt::Clock;
use std::sync::Wait;
use std::time::{Duration, Instant};

/// How many milliseconds at most the flusher waits for the edits of those who are at work.
const PATIENCE: u64 = 1;

/// How a try at a commit ended.
enum Start {
    /// A commit is under way.
    UnderWay,
    /// There was nothing to commit, or it was given up.
    Without,
    /// The device failed before.
    Failed,
}

/// Commits what the threads of a shared hub make, one commit after the other, until they were asked
/// to end or the device fails. It makes device calls with no lock held. It sleeps where nothing
/// waits. Behind a commit it waits until as many edits have come as that had and as had come when
/// it was settled, so that the next one serves all who are at work; but no longer than the commit
/// took, nor than a millisecond, and not at all where the turns of as many edits take longer than
/// the commit. When it has ended, whoever waits for a settlement is told that none comes.
pub fn flush<R: Wait + Clock, D: Disk, J: BookNames, C: Checkpoint>(
    rt: &R,
    shared: &Shared<J>,
    committer: &mut Committer<J, D>,
    checkpoint: &C,
)
    ensures kept { IsFlusher D.DiskFacts committer.new.flusher }
    ensures goes { Goes D.DiskFacts committer.old.flusher committer.new.flusher }
{
    commit_each(rt, shared, committer, checkpoint);
    shared.end_flushing(rt);
    committer.kept();
}

/// Makes one commit after the other, until the threads were asked to end or the device fails. It
/// waits for the edits of a commit no longer than the commit before took.
fn commit_each<R: Wait + Clock, D: Disk, J: BookNames, C: Checkpoint>(
    rt: &R,
    shared: &Shared<J>,
    committer: &mut Committer<J, D>,
    checkpoint: &C,
)
    ensures { Goes D.DiskFacts committer.old.flusher committer.new.flusher }
{
    let mut patience = Duration::ZERO;
    committer.kept();
    for _ in rt.forever() {
        let Some(tries) = shared.wait_for_work(rt, patience) else {
            return;
        };
        let start = Instant::now(rt);
        if !commit(rt, shared, committer, checkpoint, tries) {
            return;
        }
        patience = patience_since(rt, start);
    }
}

/// How long those who are at work are waited for behind a commit that was tried then: as long as it
/// took, but at most `PATIENCE`, and not at all where the clock can't be read.
fn patience_since<R: Clock>(rt: &R, start: io::Result<Instant>) -> Duration {
    let Ok(start) = start else {
        return Duration::ZERO;
    };
    match start.elapsed(rt) {
        Ok(took) => took.min(Duration::from_millis(PATIENCE)),
        Err(_) => Duration::ZERO,
    }
}

/// Begins a commit of all that waits, makes its device calls and settles it. Answers whether the
/// device still works.
fn commit<R: Wait, D: Disk, J: BookNames, C: Checkpoint>(
    rt: &R,
    shared: &Shared<J>,
    committer: &mut Committer<J, D>,
    checkpoint: &C,
    tries: u32,
) -> bool
    ensures { Goes D.DiskFacts committer.old.flusher committer.new.flusher }
{
    match begin(rt, shared, committer, tries) {
        Start::UnderWay => {}
        Start::Without => return true,
        Start::Failed => return false,
    }
    checkpoint.pass(Point::CommitBegun);
    go_through(rt, committer, checkpoint);
    if shared.settle(rt, committer).is_err() {
        return false;
    }
    checkpoint.pass(Point::Settled);
    true
}

/// Begins a commit. A begin that finds no memory is made again, at most so many times in a row;
/// after that, and where the store has no room, it is given up.
fn begin<R: Wait, D: Disk, J: BookNames>(
    rt: &R,
    shared: &Shared<J>,
    committer: &mut Committer<J, D>,
    tries: u32,
) -> Start
    ensures { Goes D.DiskFacts committer.old.flusher committer.new.flusher }
{
    committer.kept();
    for _ in 0..tries {
        match try_once(rt, shared, committer) {
            Ok(Met::Begun(_)) => return Start::UnderWay,
            Ok(_) => return Start::Without,
            Err(StoreError::Failed) => return Start::Failed,
            Err(StoreError::Memory) => {}
            Err(_) => return give_up(rt, shared),
        }
    }
    give_up(rt, shared)
}

/// Gives up the commit that was tried.
fn give_up<R: Wait, J: BookNames>(rt: &R, shared: &Shared<J>) -> Start {
    shared.give_up(rt);
    Start::Without
}

/// Tries once to begin a commit.
fn try_once<R: Wait, D: Disk, J: BookNames>(
    rt: &R,
    shared: &Shared<J>,
    committer: &mut Committer<J, D>,
) -> Result<Met, StoreError>
    ensures { Goes D.DiskFacts committer.old.flusher committer.new.flusher }
{
    committer.kept();
    if committer.reserve().is_err() {
        return Err(StoreError::Memory);
    }
    shared.begin(rt, committer)
}

/// Makes the device calls of the commit under way, until it is through or one of them fails.
fn go_through<R: Wait, D: Disk, J: BookNames, C: Checkpoint>(
    rt: &R,
    committer: &mut Committer<J, D>,
    checkpoint: &C,
)
    ensures { Goes D.DiskFacts committer.old.flusher committer.new.flusher }
{
    committer.kept();
    for _ in rt.forever() {
        match committer.device_step() {
            Ok(phase) => {
                checkpoint.pass(Point::DeviceCall);
                if matches!(phase, Phase::Sync3 | Phase::Idle) {
                    return;
                }
            }
            Err(_) => return,
        }
    }
}
