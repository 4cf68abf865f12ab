//! What a terminal shows below a refusal that ends the program.

use crate::fault::Fault;
use thiserror::Error;

/// Why the program refused, and what to do: one sentence for each number, and one for each cause of
/// 54 and 70 that can be told apart. `docs/OPERATING.md` and the clients have the same ones.
#[derive(Clone, Copy, Debug, PartialEq, Eq, Error)]
pub enum Sentence {
    /// 1
    #[error("the system gave no memory; try it again, and if that lasts, give the process more")]
    Memory,
    /// 4
    #[error("a value breaks its rule, as that of a UUID, of a document's number or of a form, or \
        an older program doesn't know a field; mend what wrote it")]
    Field,
    /// 4: `--origin` names no origin.
    #[error("that is no origin of web pages; write it as browsers do, as http://localhost:8080, \
        with no path")]
    Origin,
    /// 9
    #[error("the device failed, and an edit that wasn't answered may be there or not; end the \
        program, look at the disk, open again")]
    Failed,
    /// 42
    #[error("the file isn't a store, or its making was cut off; make one under another name with \
        init")]
    NoRoot,
    /// 43, 45, 46, 47
    #[error("the file isn't what this program wrote; keep a copy, and go on from a peer with a new \
        replica")]
    BadBytes,
    /// 48
    #[error("something is in the file already; open it, or choose another name")]
    NotEmpty,
    /// 50
    #[error("the disk couldn't be read; mend it, and open the file again: what was answered is \
        there")]
    ReadFailed,
    /// 51
    #[error("the disk couldn't be written; look whether it is full or files may not grow, and open \
        the file again: what was answered is there")]
    WriteFailed,
    /// 52
    #[error("the disk couldn't be synced; look whether it is full or broken, and open the file \
        again: what was answered is there")]
    SyncFailed,
    /// 54
    #[error("the file isn't there (make it with init), may not be read and written, or another \
        program has it open: where that is a daemon, connect to its port")]
    OpenFailed,
    /// 54: nothing has the file's name.
    #[error("there is no such file; make it with init, or look how its name is written")]
    NotThere,
    /// 54: the folder of a file that is to be made isn't there.
    #[error("its folder isn't there; make that first")]
    NoFolder,
    /// 54: the name is that of a folder.
    #[error("that is a folder; name a file in it")]
    Folder,
    /// 54: the name is that of a pipe, a device or a socket.
    #[error("that is no plain file; name one that is")]
    NotPlain,
    /// 54: this user may not open the file.
    #[error("this user has no right to it; look at its owner and its rights, and at those of its \
        folder")]
    NoRight,
    /// 54: the file isn't there, its folder is, and it can't be made.
    #[error("it can't be made in its folder; look who may write there, and whether the disk is \
        full")]
    NotMade,
    /// 54: another program has the lock of the file.
    #[error("another program has it open; it may be a daemon: connect to its port, or end that \
        program first")]
    Held,
    /// 70
    #[error("a port is taken (choose another), or nobody listens where --link points (start that \
        daemon first)")]
    Socket,
    /// 70: another program listens there.
    #[error("another program listens there; choose another port")]
    PortTaken,
    /// 70: the system lets this user not listen there.
    #[error("this user has no right to it; choose a port above 1023")]
    PortWithoutRight,
    /// 70: nobody takes a connection where `--link` points.
    #[error("no peer listens there; start that daemon first, or name the port behind its --peers")]
    NoPeer,
    /// 70: `--link` names a port of the daemon itself.
    #[error("that is a port of this daemon itself; name the one behind --peers of another")]
    OwnPort,
    /// 70: nobody takes a connection where `ask` points.
    #[error("no daemon listens there; start it first, or name the port behind its --sessions")]
    NoDaemon,
    /// 71
    #[error("standard input or output failed; look at the other end of the pipe")]
    Stream,
    /// 71: the daemon ended before it answered `ask`.
    #[error("the daemon ended before it answered; an edit that wasn't answered may be there or \
        not")]
    Unanswered,
}

impl From<Fault> for Sentence {
    fn from(fault: Fault) -> Sentence {
        match fault {
            Fault::Memory => Sentence::Memory,
            Fault::Field => Sentence::Field,
            Fault::Failed => Sentence::Failed,
            Fault::NoRoot => Sentence::NoRoot,
            Fault::BadRoot | Fault::BadTable | Fault::BadStream | Fault::BadOperation => {
                Sentence::BadBytes
            }
            Fault::NotEmpty => Sentence::NotEmpty,
            Fault::ReadFailed => Sentence::ReadFailed,
            Fault::WriteFailed => Sentence::WriteFailed,
            Fault::SyncFailed => Sentence::SyncFailed,
            Fault::OpenFailed => Sentence::OpenFailed,
            Fault::Socket => Sentence::Socket,
            Fault::Stream => Sentence::Stream,
        }
    }
}
