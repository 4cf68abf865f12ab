//! What three replicas have when nobody has anything more to tell.
use crate::test_hubs::{Failing, commit};
use crate::world_run::{World, merge, new_world, run_events, tell};
use group_commit::Phase;
use op_model::Op;
use std::alloc::Global;
use std::test::Fail;

/// Commits all that a replica has, a commit that is under way first.
fn commit_all(hub: &mut Failing) -> Option<()> {
    for _ in 0..1_000 {
        if hub.device_step() == Ok(Phase::Idle) {
            break;
        }
    }
    let _settled = hub.settle();
    match commit(hub) {
        0 => Some(()),
        _ => None,
    }
}

/// One replica tells another all that it can at once, and that comes there. Gives how much.
fn pass_on(world: &mut World, from: usize, to: usize) -> Option<usize> {
    let count = tell(world, from, to)?;
    if count > 0 {
        let last = world.bag.len().saturating_sub(1);
        merge(world, to, last)?;
    }
    Some(count)
}

/// All commit, and tell one another once. Gives how many operations were told.
fn round(world: &mut World) -> Option<usize> {
    for hub in &mut world.hubs {
        commit_all(hub)?;
    }
    let mut count = 0usize;
    for (from, to) in [(0, 1), (0, 2), (1, 0), (1, 2), (2, 0), (2, 1)] {
        count = count.saturating_add(pass_on(world, from, to)?);
    }
    Some(count)
}

/// Rounds until nobody has anything to tell. Gives how many there were.
fn exchange(world: &mut World) -> Option<usize> {
    for rounds in 1..1_001 {
        if round(world)? == 0 {
            return Some(rounds);
        }
    }
    None
}

/// Whether two replicas have equal clocks and show the same.
fn is_same(one: &Failing, other: &Failing) -> Option<bool> {
    let is_same_text = one.text(1).ok()?.as_slice() == other.text(1).ok()?.as_slice();
    let is_same_spans = one.spans(1).ok()? == other.spans(1).ok()?;
    let is_same_count = one.rev(1) == other.rev(1) && one.list().len() == other.list().len();
    Some(one.clock() == other.clock() && is_same_text && is_same_spans && is_same_count)
}

fn all_same(hubs: &[Box<Failing>]) -> Option<bool> {
    let first = hubs.first()?;
    for hub in hubs {
        if !is_same(first, hub)? {
            return Some(false);
        }
    }
    Some(true)
}

/// Whether the operation is the only one of its id among these, which it joins.
fn is_alone(seen: &mut Vec<Op>, op: Op) -> Option<bool> {
    for other in seen.as_slice() {
        if other.id.is_same(op.id) {
            return Some(*other == op);
        }
    }
    seen.push(op).ok()?;
    Some(true)
}

/// Whether each operation of a list is alone so.
fn are_alone(seen: &mut Vec<Op>, ops: &[Op]) -> Option<bool> {
    for op in ops {
        if !is_alone(seen, op.copy().ok()?)? {
            return Some(false);
        }
    }
    Some(true)
}

/// Whether no id has two operations, among these and those of all lists and all messages.
fn names_once(alloc: Global, world: &World, seen: &mut Vec<Op>) -> Option<bool> {
    for hub in &world.hubs {
        let ops = hub.list().copy_from(alloc, 0).ok()?;
        if !are_alone(seen, &ops)? {
            return Some(false);
        }
    }
    for message in &world.bag {
        if !are_alone(seen, message)? {
            return Some(false);
        }
    }
    Some(true)
}

/// What the run came to.
#[derive(Clone, Copy)]
struct Figures {
    messages: usize,
    crashes: usize,
    rounds: usize,
    operations: usize,
    characters: usize,
    spans: usize,
    all_same: bool,
    named_once: bool,
}

/// Runs a world, and looks at what its replicas have then.
fn run_world(alloc: Global, world: &mut World) -> Option<Figures> {
    run_events(alloc, world)?;
    let messages = world.bag.len();
    let rounds = exchange(world)?;
    let first = world.hubs.first()?;
    Some(Figures {
        messages,
        crashes: world.crashes,
        rounds,
        operations: first.rev(1),
        characters: first.text(1).ok()?.as_slice().len(),
        spans: first.spans(1).ok()?.len(),
        all_same: all_same(&world.hubs)?,
        named_once: names_once(alloc, world, &mut Vec::new(alloc))?,
    })
}

/// The figures of a new world.
fn new_figures(alloc: Global) -> Option<Figures> {
    let mut world = new_world(alloc)?;
    run_world(alloc, &mut world)
}

#[test]
fn three_replicas_agree_after_losses_repeats_and_crashes(rt: HostRuntime) -> Result<(), Fail> {
    let Figures {
        messages,
        crashes,
        rounds,
        operations,
        characters,
        spans,
        all_same,
        named_once,
    } = new_figures(rt.alloc()).ok_or("no figures")?;
    println!(rt; "{messages} messages, {crashes} crashes, then {rounds} rounds")?;
    println!(rt; "{operations} operations, {characters} characters, {spans} spans")?;
    assert!(rt; messages > 0 && crashes > 0 && operations > 0);
    assert!(rt; all_same && named_once);
    Ok(())
}
