//! A root in memory.
ghost use Rattle.std.specs.Prelude.{◌≡◌, ℕ, ◌≤◌, true, List, [], ◌++◌, length, IfOk};
ghost use Rattle.fixed_numbers.specs.declared.limits.TheConstants.{MAX_OPERATIONS, MAX_STREAM_LENGTH};
ghost use Rattle.fixed_numbers.specs.declared.sizes.TheConstants.{BODY_LENGTH};
ghost use Rattle.root_slots.specs.Body.{root_of, body_bytes};
ghost use Rattle.root_slots.specs.Root.{is_root, format_of, version_of, replica_of, count_of};
ghost use Rattle.root_slots.specs.Root.{stream_length_of, tables_of};
ghost use Rattle.group_commit.specs.Plan.{newest};
ghost use Rattle.group_commit.specs.Saved.{HasDataPages, IsEmptied, with_stream};

use change_codec::Format;
use ghost_lists::Written;
use op_ids::ReplicaId;
use root_slots::{RootBody, RootHead};
use std::alloc::{AllocError, Global};
use std::marker::Model;

/// A root in memory, without its stream. Contracts see the bytes of its slot's body and the pages
/// that it reaches: its table pages, then its data pages, which take no memory here.
#[derive(Drop)]
pub struct Root {
    head: RootBody,
    // The 4,088 bytes of its slot from byte 8 on: what the head says.
    body: Vec<u8>,
    // The numbers of its data pages, in the order of the stream. Only proofs read them: the store
    // keeps those of its live root in `Pages`.
    data_pages: Written<u32>,
}

impl Model for Root {
    ghost use Rattle.std.specs.Prelude.{◌++◌};
    ghost use Rattle.group_commit.specs.Saved.{Paged, IsPaged};

    ghost Value = { Paged };

    ghost view = { λ r. record {
      body = r.body.items;
      pages = r.head.tables ++ r.data_pages.items;
    } };

    ghost invariant = { λ r. IsPaged r.head r.data_pages.items (record {
      body = r.body.items;
      pages = r.head.tables ++ r.data_pages.items;
    }) };
}

impl Root {
    ghost use Rattle.group_commit.specs.Saved.{IsInMemory};

    /// A root of these parts. One allocation; an error is out of memory (1).
    pub(crate) fn new(
        alloc: Global,
        head: RootBody,
        data_pages: Written<u32>,
    ) -> Result<Root, AllocError>
        requires { IsInMemory head data_pages.items }
        ensures pages { IfOk result (λ root. root.pages ≡ head.tables ++ data_pages.items) }
        ensures says { IfOk result (λ root. root_of root.body ≡ head) }
        ensures written { IfOk result (λ root. root.body ≡ body_bytes head) }
        ensures has { IfOk result (λ root. (stream : List ℕ) → length stream ≡ head.stream_length
            → HasDataPages (with_stream root stream) data_pages.items) }
    {
        let body = head.write(alloc)?;
        Ok(Root {
            head,
            body,
            data_pages,
        })
    }

    /// The root of a new file: of the third format, version 1, without operations. Two
    /// allocations; an error is out of memory (1).
    pub(crate) fn empty(alloc: Global, replica: ReplicaId) -> Result<Root, AllocError>
        ensures pages { IfOk result (λ root. root.pages ≡ []) }
        ensures valid { IfOk result (λ root. is_root root.body ≡ true) }
        ensures says { IfOk result (λ root. root_of root.body ≡ record {
          format = newest;
          version = 1;
          replica = replica;
          stream_length = 0;
          operations = 0;
          tables = [];
        }) }
    {
        let head = RootHead {
            format: Format::Third,
            version: 1,
            replica,
            stream_length: 0,
            operations: 0,
        };
        match RootBody::new(head, Vec::new(alloc)) {
            Some(head) => Root::new(alloc, head, Written::new()),
            None => unreachable!(),
        }
    }

    /// The root of the same version, replica and number of operations without a stream: no page of
    /// it stays in a root behind it. No file has it. One allocation; an error is out of memory
    /// (1).
    pub(crate) fn emptied(&self) -> Result<Root, AllocError>
        ensures { IfOk result (λ empty. IsEmptied self.now empty) }
    {
        let alloc = self.allocator();
        let none = Vec::new(alloc);
        let head = RootHead {
            format: Format::Third,
            version: self.version(),
            replica: self.replica(),
            stream_length: 0,
            operations: self.count(),
        };
        match RootBody::new(head, none) {
            Some(head) => {
                let empty = Root::new(alloc, head, Written::new())?;
                Ok(empty)
            }
            None => unreachable!(),
        }
    }

    /// The format of its stream.
    pub(crate) fn format(&self) -> Format
        ensures { result ≡ format_of self.now.body }
    {
        self.head.format()
    }

    /// How often a root was made in this file, this one included.
    pub(crate) fn version(&self) -> u64
        ensures value { result ≡ version_of self.now.body }
        ensures least { 1 ≤ result }
    {
        self.head.version()
    }

    /// The replica that the file belongs to.
    pub(crate) fn replica(&self) -> ReplicaId
        ensures { result ≡ replica_of self.now.body }
    {
        self.head.replica()
    }

    /// How many operations the stream has.
    pub(crate) fn count(&self) -> u64
        ensures value { result ≡ count_of self.now.body }
        ensures most { result ≤ MAX_OPERATIONS }
    {
        self.head.operations()
    }

    /// Where its memory comes from.
    pub(crate) fn allocator(&self) -> Global {
        *self.body.allocator()
    }

    /// The bytes of the slot's body.
    pub(crate) fn body(&self) -> &[u8]
        ensures bytes { result.now ≡ self.now.body }
        ensures whole { length result.now ≡ BODY_LENGTH }
    {
        &self.body
    }

    /// How many bytes its stream has.
    pub(crate) fn stream_length(&self) -> u64
        ensures long { result ≡ stream_length_of self.now.body }
        ensures most { result ≤ MAX_STREAM_LENGTH }
    {
        self.head.stream_length()
    }

    /// The numbers of its table pages, in order.
    pub(crate) fn tables(&self) -> &[u32]
        ensures { result.now ≡ tables_of self.now.body }
    {
        self.head.tables()
    }

    /// The numbers of its data pages, in the order of the stream, as proofs see them.
    pub(crate) fn data_pages(&self) -> &Written<u32>
        ensures { (stream : List ℕ) → length stream ≡ stream_length_of self.now.body
            → HasDataPages (with_stream self.now stream) result.now.items }
    {
        &self.data_pages
    }
}
