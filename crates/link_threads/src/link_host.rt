//! What a link is served with.
use crate::link_log::LinkLog;
use op_ids::ReplicaId;
use pass_books::BookNames;
use shared_hub::{Checkpoint, Shared};
use std::alloc::Global;
use std::sync::Wait;

/// What a link is served with: the hub, this replica's name, and where the link tells of itself.
#[derive(Drop)]
pub struct LinkHost<'a, R: Wait, J: BookNames, C: Checkpoint> {
    pub rt: &'a R,
    pub alloc: Global,
    pub own: ReplicaId,
    pub shared: &'a Shared<J>,
    pub checkpoint: &'a C,
    pub log: LinkLog<'a>,
}
