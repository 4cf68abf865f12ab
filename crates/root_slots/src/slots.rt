//! Which root slot is live, of the bytes of both, and what it says.
ghost use Rattle.std.specs.Prelude.{◌≡◌, ◌⊎◌, ◌-◌, ◌<◌, ◌==◌, length, IfOk, IfErr, IsOk, Ok};
ghost use Rattle.fixed_numbers.specs.declared.sizes.TheConstants.{SLOTS_SIZE};
ghost use Rattle.root_slots.specs.Body.{IsRoot, Spells, body_bytes};
ghost use Rattle.root_slots.specs.Root.{version_of};
ghost use Rattle.root_slots.specs.Slots.{gate, body, greater, picked, live};
ghost use Rattle.root_slots.specs.Live.{IsLive, rooted, live_root};
ghost use Rattle.root_slots.specs.Faults.{NamesRootFault};
ghost use Rattle.root_slots.specs.declared.error.RootsError.TheVariants.{Memory, NoRoot, BadRoot};

use crate::error::RootsError;
use crate::root_body::RootBody;
use fixed_numbers::sizes::{BODY_LENGTH, PAGE_SIZE};
use std::alloc::Global;

/// The live slot, whether the other one is open too, and what the live one says.
#[derive(Drop)]
pub struct Live {
    pub slot: u64,
    pub stale_open: bool,
    pub root: RootBody,
}

/// The gate of a slot, of the bytes of both: it is open where this is 1.
fn gate_of(slots: &[u8], slot: u64) -> u8
    requires slot { slot < 2 }
    requires both { length slots.now ≡ SLOTS_SIZE }
    ensures { result ≡ gate slot slots.now }
{
    slots[PAGE_SIZE * slot as usize]
}

/// The body of a slot, of the bytes of both.
fn body_at(slots: &[u8], slot: u64) -> &[u8]
    requires slot { slot < 2 }
    requires both { length slots.now ≡ SLOTS_SIZE }
    ensures body { result.now ≡ body slot slots.now }
    ensures long { length result.now ≡ BODY_LENGTH }
{
    let (_, rest) = slots.split_at(PAGE_SIZE * slot as usize + 8);
    let (body, _) = rest.split_at(BODY_LENGTH);
    body
}

/// The version that a slot's body says, also where it isn't a root body.
fn version_at(body: &[u8]) -> u64
    requires { length body.now ≡ BODY_LENGTH }
    ensures { result ≡ version_of body.now }
{
    let (_, rest) = body.split_at(8);
    let (bytes, _) = rest.split_first_chunk::<8>().unwrap();
    u64::from_be_bytes(*bytes)
}

/// The slot with the greater version, or 43 where they are equal.
fn greater(version0: u64, version1: u64) -> Result<u64, RootsError>
    ensures slot { IfOk result (λ slot. greater version0 version1 ≡ Ok slot) }
    ensures below { IfOk result (λ slot. slot < 2) }
    ensures fault { IfErr result (λ e. NamesRootFault e (greater version0 version1)) }
    ensures refused { IfErr result (λ e. e ≡ BadRoot) }
{
    if version1 < version0 {
        Ok(0)
    } else if version0 < version1 {
        Ok(1)
    } else {
        Err(RootsError::BadRoot)
    }
}

/// Which slot is live, of the gates and the versions of both: the open one, of two the one with the
/// greater version. 42 where none is open, and 43 where two are with equal versions.
fn picked(gate0: u8, gate1: u8, version0: u64, version1: u64) -> Result<u64, RootsError>
    ensures slot { IfOk result (λ slot. picked gate0 gate1 version0 version1 ≡ Ok slot) }
    ensures below { IfOk result (λ slot. slot < 2) }
    ensures fault { IfErr result
        (λ e. NamesRootFault e (picked gate0 gate1 version0 version1)) }
    ensures refused { IfErr result (λ e. (e ≡ NoRoot) ⊎ (e ≡ BadRoot)) }
{
    match (gate0, gate1) {
        (1, 1) => greater(version0, version1),
        (1, _) => Ok(0),
        (_, 1) => Ok(1),
        _ => Err(RootsError::NoRoot),
    }
}

/// The same, of the bytes of both slots.
fn live_slot(slots: &[u8]) -> Result<u64, RootsError>
    requires { length slots.now ≡ SLOTS_SIZE }
    ensures slot { IfOk result (λ slot. live slots.now ≡ Ok slot) }
    ensures below { IfOk result (λ slot. slot < 2) }
    ensures fault { IfErr result (λ e. NamesRootFault e (live slots.now)) }
    ensures refused { IfErr result (λ e. (e ≡ NoRoot) ⊎ (e ≡ BadRoot)) }
{
    picked(
        gate_of(slots, 0),
        gate_of(slots, 1),
        version_at(body_at(slots, 0)),
        version_at(body_at(slots, 1)),
    )
}

/// What a body says, or 43 where it is no root body; 1 when out of memory.
fn root_of(alloc: Global, body: &[u8]) -> Result<RootBody, RootsError>
    ensures says { IfOk result (λ root. Spells body.now root) }
    ensures written { IfOk result (λ root. body.now ≡ body_bytes root) }
    ensures valid { IfOk result (λ root. IsRoot root) }
    ensures fault { IfErr result (λ e. NamesRootFault e (rooted body.now)) }
    ensures refused { IfErr result (λ e. (e ≡ Memory) ⊎ (e ≡ BadRoot)) }
{
    match RootBody::read(alloc, body) {
        Ok(Some(root)) => Ok(root),
        Ok(None) => Err(RootsError::BadRoot),
        Err(_) => Err(RootsError::Memory),
    }
}

/// The live slot and what it says, of the bytes of both slots. 42 where none is open; 43 where two
/// are with equal versions, or the live one holds no root body; 1 when out of memory.
pub(crate) fn live_root(alloc: Global, slots: &[u8]) -> Result<Live, RootsError>
    requires { length slots.now ≡ SLOTS_SIZE }
    ensures found { IfOk result (λ it. IsLive slots.now it.slot it.stale_open it.root) }
    ensures valid { IfOk result (λ it. IsRoot it.root) }
    ensures fault { IfErr result (λ e. NamesRootFault e (live_root slots.now)) }
    ensures memory { IfErr result (λ e. e ≡ Memory → IsOk (live slots.now)) }
    ensures refused { IfErr result (λ e. (e ≡ Memory) ⊎ (e ≡ NoRoot) ⊎ (e ≡ BadRoot)) }
{
    let slot = live_slot(slots)?;
    let root = root_of(alloc, body_at(slots, slot))?;
    let stale_open = gate_of(slots, 1 - slot) == 1;
    Ok(Live {
        slot,
        stale_open,
        root,
    })
}
