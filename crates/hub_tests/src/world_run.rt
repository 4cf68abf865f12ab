//! The world in one process: three replicas over disks in memory, whose messages are lost, repeated
//! and late, with crashes between.
use crate::play::renew;
use crate::test_hubs::{Failing, NEVER, new_disk, open};
use disk_trait::{Fate, FaultDisk};
use op_model::{Action, Change, Edit, EditText, Mark, Op, Url};
use std::alloc::Global;
use std::num::NonZeroU32;

const EVENTS: u32 = 2_000;

/// The calls of a disk, and the bytes of its file, that the run needs at most.
const CALLS: usize = 200_000;

const ROOM: usize = 1_048_576;

/// Numbers that look random, each time the same ones.
#[derive(Drop)]
struct Draws {
    state: u64,
}

impl Draws {
    /// The next number, below 2^15.
    fn next(&mut self) -> u32 {
        let product = self.state.wrapping_mul(1_103_515_245);
        self.state = product.wrapping_add(12_345) % 2_147_483_648;
        u32::try_from(self.state / 65_536).unwrap_or(0)
    }
}

/// The number as one below another; 0 where there is none.
fn place(number: u32, end: usize) -> usize {
    if end == 0 {
        return 0;
    }
    number as usize % end
}

/// What happens at a replica.
#[derive(Clone, Copy)]
enum Event {
    Insert,
    Remove,
    Mark,
    Begin,
    /// Three device calls, and the settlement where the commit is through.
    Step,
    Tell,
    Merge,
    Crash,
}

impl Event {
    /// The event of two draws.
    fn of(kind: u32, number: u32) -> Event {
        match kind % 8 {
            0 | 1 => Event::Insert,
            2 => Event::Remove,
            3 => Event::Mark,
            4 => Event::Begin,
            5 => Event::Step,
            6 => Event::Tell,
            _ if number % 10 == 0 => Event::Crash,
            _ => Event::Merge,
        }
    }
}

/// The replicas, and all that was ever told.
#[derive(Drop)]
pub(crate) struct World {
    pub(crate) hubs: Vec<Box<Failing>>,
    pub(crate) bag: Vec<Vec<Op>>,
    pub(crate) crashes: usize,
}

pub(crate) fn new_world(alloc: Global) -> Option<Box<World>> {
    let mut hubs = Vec::new(alloc);
    for last in 1..4 {
        let disk = new_disk(alloc, last, ROOM, CALLS)?;
        hubs.push(open(alloc, FaultDisk::new(disk, NEVER))?).ok()?;
    }
    let world = World {
        hubs,
        bag: Vec::new(alloc),
        crashes: 0,
    };
    Box::new(alloc, world).ok()
}

/// "ab" or "x".
fn text(alloc: Global, number: u32) -> Option<EditText> {
    let letters = if number % 2 == 0 { "ab" } else { "x" };
    EditText::new(letters.chars().collect(alloc).ok()?)
}

/// Strong or a link.
fn mark(alloc: Global, number: u32) -> Option<Mark> {
    if number % 2 == 0 {
        return Some(Mark::Strong);
    }
    Some(Mark::Link(Url::new(String::from_str(alloc, "u").ok()?)?))
}

/// What an event asks to be changed in a text of `long` characters: an insert at some place, a
/// removal there, or a mark from the beginning to the end.
fn change(alloc: Global, event: Event, number: u32, long: usize) -> Option<Change> {
    Some(match event {
        Event::Insert => Change::Insert {
            at: u32::try_from(place(number, long.saturating_add(1))).ok()?,
            text: text(alloc, number)?,
        },
        Event::Remove => Change::Delete {
            at: u32::try_from(place(number, long)).ok()?,
            count: NonZeroU32::MIN,
        },
        _ => Change::Mark {
            from: 0,
            to: u32::try_from(long).ok()?,
            mark: mark(alloc, number)?,
        },
    })
}

/// An edit; one that is refused is passed over, as any refusal is here. In an empty text there is
/// only an insert.
fn edit(alloc: Global, hub: &mut Failing, event: Event, number: u32) -> Option<()> {
    let long = hub.text(1).ok()?.as_slice().len();
    if long == 0 && !matches!(event, Event::Insert) {
        return Some(());
    }
    let edit = Edit {
        doc: 1,
        rev: None,
        token: None,
        change: change(alloc, event, number, long)?,
    };
    let _answer = hub.edit(1, &Action::one(alloc, edit));
    Some(())
}

/// Three device calls, and the settlement where the commit is through.
fn step(hub: &mut Failing) {
    for _ in 0..3 {
        let _phase = hub.device_step();
    }
    let _settled = hub.settle();
}

/// What one replica has settled and another doesn't count goes into the bag, 64 operations at most.
/// Gives how many.
pub(crate) fn tell(world: &mut World, from: usize, to: usize) -> Option<usize> {
    let clock = world.hubs.get(to)?.clock().copy().ok()?;
    let ops = world.hubs.get_mut(from)?.tell(&clock).ok()?;
    let count = ops.len();
    if count > 0 {
        world.bag.push(ops).ok()?;
    }
    Some(count)
}

/// A message of the bag comes to a replica, whether it came before or not.
pub(crate) fn merge(world: &mut World, to: usize, at: usize) -> Option<()> {
    let hub = world.hubs.get_mut(to)?;
    if let Some(message) = world.bag.get(at) {
        for op in message {
            let _answer = hub.merge(2, op.copy().ok()?);
        }
    }
    Some(())
}

/// The power is cut at a replica: what no sync has settled is a byte. Then the file is opened.
fn crash(alloc: Global, world: &mut World, which: usize, number: u32) -> Option<()> {
    let fill = u8::try_from(number % 256).ok()?;
    renew(
        alloc,
        &mut world.hubs,
        which,
        Some((Fate::Fill(fill), true)),
    )?;
    world.crashes = world.crashes.saturating_add(1);
    Some(())
}

/// An event that changes one replica alone.
fn alone(alloc: Global, hub: &mut Failing, event: Event, number: u32) -> Option<()> {
    match event {
        Event::Begin => {
            let _begun = hub.begin();
            Some(())
        }
        Event::Step => {
            step(hub);
            Some(())
        }
        _ => edit(alloc, hub, event, number),
    }
}

/// An event at one replica.
fn happen(alloc: Global, world: &mut World, which: usize, event: Event, number: u32) -> Option<()> {
    match event {
        Event::Tell => {
            tell(world, which, place(number, 3))?;
            Some(())
        }
        Event::Crash => crash(alloc, world, which, number),
        Event::Merge => {
            let at = place(number, world.bag.len());
            merge(world, which, at)
        }
        _ => alone(alloc, world.hubs.get_mut(which)?, event, number),
    }
}

/// The events that the draws give: each takes three, for the replica, the event and a number.
pub(crate) fn run_events(alloc: Global, world: &mut World) -> Option<()> {
    let mut draws = Draws { state: 1 };
    for _ in 0..EVENTS {
        let which = place(draws.next(), 3);
        let kind = draws.next();
        let number = draws.next();
        happen(alloc, world, which, Event::of(kind, number), number)?;
    }
    Some(())
}
