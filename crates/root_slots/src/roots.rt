//! The two root slots of a file.
ghost use Rattle.std.specs.Prelude.{◌≡◌, ◌-◌, ◌<◌, ◌≤◌, [], ◌∷◌, true, false, length, IfOk};
ghost use Rattle.std.specs.Prelude.{IfErr, IsOk, OnOk};
ghost use Rattle.fixed_numbers.specs.declared.sizes.TheConstants.{BODY_LENGTH};
ghost use Rattle.disk_trait.specs.declared.error.DiskError.TheVariants.{WriteFailed};
ghost use Rattle.page_file.specs.DiskCalls.{IsLookedAt, IsWrite};
ghost use Rattle.root_slots.specs.Slots.{gate, gate_place, body_place, live};
ghost use Rattle.root_slots.specs.Live.{AreRead, live_root};
ghost use Rattle.root_slots.specs.Faults.{NamesRootFault, failed_in};
ghost use Rattle.root_slots.specs.Survivors.{EachSurvivorIs, IsNewer, Lives, LivesAlone, LivesOrOther};
ghost use Rattle.root_slots.specs.Survivors.{LivesOverOpen, LivesBeforeNewer};
ghost use Rattle.root_slots.specs.declared.error.RootsError.TheVariants.{Memory};

use crate::error::RootsError;
use crate::file_size::size_of;
use crate::root_body::RootBody;
use crate::slots::{Live, live_root};
use disk_trait::{Disk, DiskError, read_inside, write_inside};
use fixed_numbers::sizes::{PAGE_SIZE, SLOTS_SIZE};
use std::alloc::Global;
use std::marker::Model;

/// The two root slots of a file: which one is live, and whether the other one's gate reads 1. That
/// other one is the stale slot: the next root is written there. Contracts see the record of both.
///
/// The next root takes `close_stale` where the stale gate reads 1, a sync, `put_body`, a sync,
/// `open_gate`, a sync, and `change_places`.
#[derive(Debug, Drop)]
pub struct Roots {
    // The live slot, 0 or 1.
    slot: u64,
    // Whether the gate of the stale slot reads 1.
    stale_open: bool,
}

impl Model for Roots {
    ghost use Rattle.std.specs.Prelude.{◌<◌};
    ghost use Rattle.root_slots.specs.Live.{SlotPair};

    ghost Value = { SlotPair };

    ghost view = { λ r. record {
      slot = r.slot;
      stale_open = r.stale_open;
    } };

    ghost invariant = { λ r. r.slot < 2 };
}

/// The root slots of a file, the root that the live one holds, and the file's size in bytes.
#[derive(Debug, Drop)]
pub struct LoadedRoots {
    pub roots: Roots,
    pub root: RootBody,
    pub file_size: u64,
}

impl Roots {
    /// The root slots of a file that `Store::init` just made: the gate of slot 0 reads 1, and that
    /// of slot 1 doesn't. It reads no file, so that it is right of such a one alone. Takes no
    /// memory.
    pub fn of_new_file() -> Roots
        ensures live { result.slot ≡ 0 }
        ensures closed { result.stale_open ≡ false }
    {
        Roots {
            slot: 0,
            stale_open: false,
        }
    }

    /// The root slots of a file, and the root that the live one holds. It writes nothing.
    ///
    /// Refuses with the first of these that it meets: 50 where the device failed; 42 where the file
    /// has fewer than 8,192 bytes or no gate is open; 43 where both gates are open with equal
    /// versions, or the live slot holds no root body. 1 where a growth of memory was refused: only
    /// where a slot is live, and it says nothing of that slot's body.
    ///
    /// One `size` and one read of 8,192 bytes. It allocates the numbers of the root's table pages.
    pub fn load<D: Disk>(alloc: Global, disk: &mut D) -> Result<LoadedRoots, RootsError>
        ensures read { IfOk result
            (λ it. AreRead D.DiskFacts disk.old it.roots it.root it.file_size) }
        ensures fault { D.tells disk.old
            → IfErr result (λ e. NamesRootFault e (live_root (D.content disk.old))) }
        ensures memory { D.tells disk.old
            → IfErr result (λ e. e ≡ Memory → IsOk (live (D.content disk.old))) }
        ensures looks { IsLookedAt D.DiskFacts (failed_in result) 0 disk.old disk.new }
    {
        let file_size = size_of(disk)?;
        if file_size < SLOTS_SIZE as u64 {
            return Err(RootsError::NoRoot);
        }
        let mut slots = [0; SLOTS_SIZE];
        if let Err(_) = read_inside(disk, 0, &mut slots) {
            return Err(RootsError::ReadFailed);
        }
        let Live {
            slot,
            stale_open,
            root,
        } = live_root(alloc, &slots)?;
        let roots = Roots { slot, stale_open };
        Ok(LoadedRoots {
            roots,
            root,
            file_size,
        })
    }

    /// The slot that is live: 0 or 1. Takes no memory.
    pub fn slot(&self) -> u64
        ensures slot { result ≡ self.now.slot }
        ensures below { result < 2 }
    {
        self.slot
    }

    /// Whether the gate of the stale slot read 1 when the slots were loaded or last changed places.
    /// Takes no memory.
    pub fn is_stale_open(&self) -> bool
        ensures { result ≡ self.now.stale_open }
    {
        self.stale_open
    }

    /// Closes the stale slot: one write of the byte 0 into its gate, which has to read 1. Refuses
    /// with 51 where the device failed: then the gate holds any byte. Takes no memory.
    pub fn close_stale<D: Disk>(&self, disk: &mut D) -> Result<(), DiskError>
        requires whole { D.tells disk.old → SLOTS_SIZE ≤ length (D.content disk.old) }
        requires reads_one { D.tells disk.old
            → gate (1 - self.now.slot) (D.content disk.old) ≡ 1 }
        ensures writes { IsWrite D.DiskFacts result (gate_place (1 - self.now.slot)) (0 ∷ [])
            disk.old disk.new }
        ensures live { D.tells disk.old
            → EachSurvivorIs D.DiskFacts disk.old (LivesOverOpen self.now.slot)
            → EachSurvivorIs D.DiskFacts disk.new (Lives self.now.slot) }
        ensures closed { D.tells disk.old
            → EachSurvivorIs D.DiskFacts disk.old (LivesOverOpen self.now.slot)
            → OnOk result (LivesAlone self.now.slot (D.content disk.new)) }
        ensures refused { IfErr result (λ e. e ≡ WriteFailed) }
    {
        write_inside(disk, PAGE_SIZE as u64 * (1 - self.slot), &[0])
    }

    /// Writes the body of the next root, 4,088 bytes, into the stale slot behind its gate: one
    /// write. Refuses with 51 where the device failed: then the body holds any bytes. Takes no
    /// memory.
    pub fn put_body<D: Disk>(&self, disk: &mut D, body: &[u8]) -> Result<(), DiskError>
        requires whole { D.tells disk.old → SLOTS_SIZE ≤ length (D.content disk.old) }
        requires long { length body.now ≡ BODY_LENGTH }
        ensures writes { IsWrite D.DiskFacts result (body_place (1 - self.now.slot)) body.now
            disk.old disk.new }
        ensures live { D.tells disk.old
            → EachSurvivorIs D.DiskFacts disk.old (LivesAlone self.now.slot)
            → EachSurvivorIs D.DiskFacts disk.new (LivesAlone self.now.slot) }
        ensures put { D.tells disk.old
            → EachSurvivorIs D.DiskFacts disk.old (LivesAlone self.now.slot)
            → IsNewer self.now.slot (D.content disk.old) body.now
            → OnOk result (LivesBeforeNewer self.now.slot (D.content disk.new)) }
        ensures refused { IfErr result (λ e. e ≡ WriteFailed) }
    {
        write_inside(disk, PAGE_SIZE as u64 * (1 - self.slot) + 8, body)
    }

    /// Opens the stale slot: one write of the byte 1 into its gate. Refuses with 51 where the
    /// device failed: then the gate holds any byte. Takes no memory.
    pub fn open_gate<D: Disk>(&self, disk: &mut D) -> Result<(), DiskError>
        requires whole { D.tells disk.old → SLOTS_SIZE ≤ length (D.content disk.old) }
        ensures writes { IsWrite D.DiskFacts result (gate_place (1 - self.now.slot)) (1 ∷ [])
            disk.old disk.new }
        ensures live { D.tells disk.old
            → EachSurvivorIs D.DiskFacts disk.old (LivesBeforeNewer self.now.slot)
            → EachSurvivorIs D.DiskFacts disk.new (LivesOrOther self.now.slot) }
        ensures opened { D.tells disk.old
            → EachSurvivorIs D.DiskFacts disk.old (LivesBeforeNewer self.now.slot)
            → OnOk result (Lives (1 - self.now.slot) (D.content disk.new)) }
        ensures refused { IfErr result (λ e. e ≡ WriteFailed) }
    {
        write_inside(disk, PAGE_SIZE as u64 * (1 - self.slot), &[1])
    }

    /// The slots change places: the stale one, whose gate was opened and settled, is live, and the
    /// one that was live is open too. It makes no device call. Takes no memory.
    pub fn change_places(&mut self)
        ensures slot { self.new.slot ≡ 1 - self.old.slot }
        ensures stale_open { self.new.stale_open ≡ true }
    {
        self.slot = 1 - self.slot;
        self.stale_open = true;
    }
}
