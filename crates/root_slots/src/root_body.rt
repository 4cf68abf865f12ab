//! What a root says: which operations a file has, and where their bytes are.
ghost use Rattle.std.specs.Prelude.{◌≡◌, ◌↔◌, true, ◌&&◌, IsSome, IfSome, IfOk};
ghost use Rattle.page_file.specs.Pages.{are_pages, is_zero};
ghost use Rattle.root_slots.specs.Head.{is_head};
ghost use Rattle.root_slots.specs.Root.{is_root, tables_of};
ghost use Rattle.root_slots.specs.Body.{Root, IsRoot, Spells, root_in, root_of, root_with, body_bytes};

use crate::fields::{format_at, is_head, replica_at, tables_for, u32_at, u64_at};
use crate::root_head::RootHead;
use crate::writing::spelled;
use change_codec::Format;
use fixed_numbers::limits::{MAX_OPERATIONS, MAX_STREAM_LENGTH};
use op_ids::ReplicaId;
use page_file::{are_pages, is_zero, take_numbers};
use std::alloc::{AllocError, Global};
use std::marker::Model;

/// What a root slot says behind its gate. Contracts see it as the record of its fields: the
/// format of the stream, a version of at least 1, the replica, the stream's length (at most 2^30
/// bytes), the number of operations (at most 2^24), and the numbers of the table pages: as many
/// as the stream needs, each at least 2, none of them twice.
#[derive(Debug, Drop)]
pub struct RootBody {
    head: RootHead,
    tables: Vec<u32>,
}

impl Model for RootBody {
    ghost use Rattle.root_slots.specs.Body.{Root, root_with, IsRoot};

    ghost Value = { Root };

    ghost view = { λ r. root_with r.head r.tables.items };

    ghost invariant = { λ r. IsRoot (root_with r.head r.tables.items) };
}

impl RootBody {
    /// The root with this head and these table pages, or `None` where they break a rule: a version
    /// of 0, a stream of more than 2^30 bytes, more than 2^24 operations, not as many table pages
    /// as the stream needs, one below 2 or one that stands twice. Takes no memory; the steps grow
    /// with the square of the number of table pages.
    pub fn new(head: RootHead, tables: Vec<u32>) -> Option<RootBody>
        ensures value { IfSome result (λ root. root ≡ root_with head tables.items) }
        ensures valid { IsSome result ↔ IsRoot (root_with head tables.items) }
    {
        let RootHead {
            version,
            stream_length,
            operations,
            ..
        } = head;
        if version == 0 || stream_length > MAX_STREAM_LENGTH || operations > MAX_OPERATIONS as u64 {
            return None;
        }
        if tables.len() as u64 != tables_for(stream_length) || !are_pages(&tables) {
            return None;
        }
        Some(RootBody { head, tables })
    }

    /// The root that these bytes are, or `None` where they are no root body: not 4,088 bytes, a
    /// number out of its range, a wrong number of table pages, one of them below 2 or twice, or a
    /// rest that isn't zero. One allocation; an error is out of memory (1), and says nothing of
    /// the bytes.
    pub fn read(alloc: Global, body: &[u8]) -> Result<Option<RootBody>, AllocError>
        ensures valid { IfOk result (λ found. IsSome found ↔ (is_root body.now ≡ true)) }
        ensures says { IfOk result (λ found. IfSome found (λ root. root_of body.now ≡ root)) }
        ensures written { IfOk result (λ found. IfSome found (λ root. body.now ≡ body_bytes root)) }
    {
        if !is_head(body) {
            return Ok(None);
        }
        let (_, rest) = body.split_at(56);
        let tables = take_numbers(alloc, rest, u32_at(body, 48) as usize)?;
        Ok(RootBody::with_tables(body, tables))
    }

    fn with_tables(body: &[u8], tables: Vec<u32>) -> Option<RootBody>
        requires head { is_head body.now ≡ true }
        requires tables { tables.items ≡ tables_of body.now }
        ensures { result ≡ root_in body.now }
    {
        let (_, after) = body.split_at(56 + 4 * tables.len());
        if !is_rest(&tables, after) {
            return None;
        }
        let head = RootHead {
            format: format_at(body),
            version: u64_at(body, 8),
            replica: replica_at(body),
            stream_length: u64_at(body, 32),
            operations: u64_at(body, 40),
        };
        Some(RootBody { head, tables })
    }

    /// The 4,088 bytes that say this. One allocation; an error is out of memory (1).
    pub fn write(&self, alloc: Global) -> Result<Vec<u8>, AllocError>
        ensures bytes { IfOk result (λ body. body.items ≡ body_bytes self.now) }
        ensures read_back { IfOk result (λ body. Spells body.items self.now) }
    {
        spelled(alloc, &self.head, &self.tables)
    }

    /// The format of the stream.
    pub fn format(&self) -> Format
        ensures { result ≡ self.now.format }
    {
        self.head.format
    }

    /// How often a root was made in this file, this one included: at least 1.
    pub fn version(&self) -> u64
        ensures value { result ≡ self.now.version }
        ensures valid { IsRoot self.now }
    {
        self.head.version
    }

    /// The replica that the file belongs to.
    pub fn replica(&self) -> ReplicaId
        ensures { result ≡ self.now.replica }
    {
        self.head.replica
    }

    /// How many bytes the stream of operations has.
    pub fn stream_length(&self) -> u64
        ensures { result ≡ self.now.stream_length }
    {
        self.head.stream_length
    }

    /// How many operations there are.
    pub fn operations(&self) -> u64
        ensures { result ≡ self.now.operations }
    {
        self.head.operations
    }

    /// The numbers of the table pages, in order.
    pub fn tables(&self) -> &[u32]
        ensures { result.now ≡ self.now.tables }
    {
        &self.tables
    }
}

/// Whether these are pages, and what stands behind them is zero.
fn is_rest(tables: &[u32], after: &[u8]) -> bool
    ensures { result ≡ (are_pages tables.now && is_zero after.now) }
{
    are_pages(tables) && is_zero(after)
}
