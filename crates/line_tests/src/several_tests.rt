//! What a session is told that watches several documents.
use crate::rows::judged;
use crate::watch_tests::taking;
use std::alloc::Global;
use std::test::Fail;
use watch_lines::{LineRoom, NextOf, SeveralSource, serve_several};

/// Gives these, and then the end.
#[derive(Drop)]
struct Given<'a> {
    rest: &'a [NextOf],
}

impl<'a> SeveralSource for Given<'a> {
    ghost use Rattle.std.specs.Prelude.{⊤};

    ghost gives = { λ _ _ _. ⊤ };

    fn next(&mut self) -> NextOf {
        match self.rest.split_first() {
            Some((first, rest)) => {
                self.rest = rest;
                *first
            }
            None => NextOf::Closed,
        }
    }
}

/// What a source gives, how many writes are taken, and what is said then.
static TOLD: [(&[NextOf], usize, &str); 6] = [
    (&[], 9, ""),
    (
        &[NextOf::Rev {
            doc: 4_294_967_295,
            rev: 18_446_744_073_709_551_615,
        }],
        9,
        "{\"doc\":4294967295,\"ok\":true,\"rev\":18446744073709551615}\n",
    ),
    (
        &[
            NextOf::Rev { doc: 2, rev: 9 },
            NextOf::Rev { doc: 1, rev: 0 },
            NextOf::Quiet,
            NextOf::Rev { doc: 1, rev: 0 },
            NextOf::Rev { doc: 2, rev: 8 },
            NextOf::Rev { doc: 1, rev: 3 },
        ],
        9,
        "{\"doc\":2,\"ok\":true,\"rev\":9}\n{\"doc\":1,\"ok\":true,\"rev\":0}\n{\"doc\":1,\"ok\":true,\"rev\":3}\n",
    ),
    (
        &[
            NextOf::Rev { doc: 1, rev: 3 },
            NextOf::Failed,
            NextOf::Rev { doc: 1, rev: 4 },
        ],
        9,
        "{\"doc\":1,\"ok\":true,\"rev\":3}\n{\"code\":9,\"error\":\"failed\",\"ok\":false}\n",
    ),
    (
        &[
            NextOf::Quiet,
            NextOf::Closed,
            NextOf::Rev { doc: 1, rev: 4 },
        ],
        9,
        "",
    ),
    (
        &[
            NextOf::Rev { doc: 1, rev: 1 },
            NextOf::Rev { doc: 2, rev: 1 },
        ],
        1,
        "{\"doc\":1,\"ok\":true,\"rev\":1}\n",
    ),
];

/// Whether this is told while so many writes are taken, and the end is an error after one write.
fn is_told(alloc: Global, rest: &[NextOf], writes: usize, said: &str) -> Result<bool, Fail> {
    let mut room = LineRoom::new(alloc)?;
    let mut writer = taking(alloc, writes)?;
    let done = serve_several(alloc, &mut room, &mut writer, &mut Given { rest });
    Ok(done.is_ok() == (writes > 1) && writer.told.as_slice() == said.as_bytes())
}

#[test]
fn a_number_of_each_document_is_told_once_it_rises(rt: HostRuntime) -> Result<(), Fail> {
    for (rest, writes, said) in &TOLD {
        judged(&rt, said, is_told(rt.alloc(), rest, *writes, said))?;
    }
    Ok(())
}
