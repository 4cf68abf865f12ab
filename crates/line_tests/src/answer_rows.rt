//! Answers of a daemon as rows tell them.
use list_counts::{PeerCounts, Version};
use op_ids::ReplicaId;
use op_model::{ChangeStep, CommentId, CommentIds, Marks, Span, Text, Url};
use session_lines::{
    Answer, ChangeList, Command, LastingList, PeerList, PlaceList, Refusal, SpanList, State,
    VersionList, read_command,
};
use std::alloc::{AllocError, Global};
use std::test::Fail;

/// The marks of a character.
pub struct Marked {
    pub strong: bool,
    pub em: bool,
    pub link: Option<&'static str>,
    pub comments: &'static [[u8; 16]],
}

/// What changed: so many characters stay or go, a text so often comes, or so many get marks.
pub enum Step {
    Keep(usize),
    Go(usize),
    Put(&'static str, usize, Marked),
    Mark(usize, Marked),
}

/// What is answered beside the number of operations. A text stands there so often.
pub enum Told {
    Edited,
    Stopped,
    Done,
    Status(u64, u64, State),
    Refused(Refusal),
    RefusedAt(Refusal, u64),
    Text(&'static str, usize),
    Spans(&'static [(&'static str, usize, Marked)]),
    /// The names of replicas, how many operations the document has after each version, and how
    /// many it has itself.
    Versions(&'static [([u8; 16], u64, u64)]),
    Changes(&'static [Step]),
    /// The places that a line asks for in document 3.
    Anchors(&'static [u8]),
    Places(&'static [Option<usize>]),
    /// The last bytes of replicas, what each has and lacks, and how many sessions there are.
    Peers(&'static [(u8, u64, u64)], u64),
}

/// The answer that a row tells.
pub fn answer_of(alloc: Global, rev: u64, told: &Told) -> Result<Answer, Fail> {
    match told {
        Told::Edited => Ok(Answer::Edited { rev }),
        Told::Stopped => Ok(Answer::Stopped),
        Told::Done => Ok(Answer::Done),
        Told::Status(applied, settled, state) => Ok(Answer::Status {
            applied: *applied,
            settled: *settled,
            state: *state,
        }),
        Told::Refused(refusal) => Ok(Answer::Refused(*refusal)),
        Told::RefusedAt(refusal, at) => Ok(Answer::RefusedAt {
            refusal: *refusal,
            at: *at,
        }),
        Told::Text(text, times) => {
            let text = text_of(alloc, text, *times)?;
            Ok(Answer::Text { rev, text })
        }
        Told::Spans(rows) => {
            let spans = spans_of(alloc, rows)?;
            Ok(Answer::Spans { rev, spans })
        }
        Told::Versions(rows) => {
            let versions = versions_of(alloc, rows)?;
            Ok(Answer::Versions { rev, versions })
        }
        Told::Changes(rows) => {
            let changes = changes_of(alloc, rows)?;
            Ok(Answer::Changes { rev, changes })
        }
        Told::Anchors(line) => {
            let anchors = anchors_of(alloc, line)?;
            Ok(Answer::Anchors { rev, anchors })
        }
        Told::Places(numbers) => {
            let places = PlaceList::from(Vec::from_slice(alloc, numbers)?);
            Ok(Answer::Places { rev, places })
        }
        Told::Peers(rows, sessions) => {
            let peers = peers_of(alloc, rows)?;
            let sessions = *sessions;
            Ok(Answer::Peers { peers, sessions })
        }
    }
}

/// The characters of a text that stands there so often.
fn text_of(alloc: Global, text: &str, times: usize) -> Result<Text, AllocError> {
    let all = text.repeat(alloc, times)?;
    let characters: Vec<char> = all.chars().collect(alloc)?;
    Ok(Text::from(characters))
}

fn link_of(alloc: Global, link: Option<&str>) -> Result<Option<Url>, AllocError> {
    match link {
        Some(link) => Ok(Url::new(String::from_str(alloc, link)?)),
        None => Ok(None),
    }
}

fn comments_of(alloc: Global, ids: &[[u8; 16]]) -> Result<CommentIds, AllocError> {
    let mut comments = Vec::new(alloc);
    for id in ids {
        comments.push(CommentId::read(*id))?;
    }
    Ok(CommentIds::from(comments))
}

fn marks_of(alloc: Global, marked: &Marked) -> Result<Marks, AllocError> {
    let comments = comments_of(alloc, marked.comments)?;
    let link = link_of(alloc, marked.link)?;
    Ok(Marks {
        strong: marked.strong,
        em: marked.em,
        link,
        comments,
    })
}

fn span_of(alloc: Global, text: &str, times: usize, marked: &Marked) -> Result<Span, AllocError> {
    let text = text_of(alloc, text, times)?;
    let marks = marks_of(alloc, marked)?;
    Ok(Span { text, marks })
}

fn spans_of(alloc: Global, rows: &[(&str, usize, Marked)]) -> Result<SpanList, AllocError> {
    let mut spans = Vec::new(alloc);
    for (text, times, marked) in rows {
        spans.push(span_of(alloc, text, *times, marked)?)?;
    }
    Ok(SpanList::from(spans))
}

fn step_of(alloc: Global, step: &Step) -> Result<ChangeStep, AllocError> {
    match step {
        Step::Keep(count) => Ok(ChangeStep::Keep(*count)),
        Step::Go(count) => Ok(ChangeStep::Drop(*count)),
        Step::Put(text, times, marked) => {
            Ok(ChangeStep::Put(span_of(alloc, text, *times, marked)?))
        }
        Step::Mark(count, marked) => Ok(ChangeStep::Mark(*count, marks_of(alloc, marked)?)),
    }
}

fn changes_of(alloc: Global, rows: &[Step]) -> Result<ChangeList, AllocError> {
    let mut steps = Vec::new(alloc);
    for row in rows {
        steps.push(step_of(alloc, row)?)?;
    }
    Ok(ChangeList::from(steps))
}

fn anchors_of(alloc: Global, line: &[u8]) -> Result<LastingList, Fail> {
    match read_command(alloc, line)? {
        Command::Places { doc: 3, anchors } => Ok(anchors),
        _ => Err("no places of document 3".into()),
    }
}

fn versions_of(alloc: Global, rows: &[([u8; 16], u64, u64)]) -> Result<VersionList, Fail> {
    let mut versions = Vec::new(alloc);
    for (name, rev, ops) in rows {
        let replica = ReplicaId::read(*name).ok_or("nil")?;
        versions.push(Version {
            rev: *rev,
            replica,
            ops: *ops,
        })?;
    }
    Ok(VersionList::from(versions))
}

fn replica_of(last: u8) -> Option<ReplicaId> {
    let mut bytes = [0; 16];
    bytes[15] = last;
    ReplicaId::read(bytes)
}

fn peers_of(alloc: Global, rows: &[(u8, u64, u64)]) -> Result<PeerList, Fail> {
    let mut peers = Vec::new(alloc);
    for (last, has, lacks) in rows {
        let replica = replica_of(*last).ok_or("nil")?;
        peers.push(PeerCounts {
            replica,
            has: *has,
            lacks: *lacks,
        })?;
    }
    Ok(PeerList::from(peers))
}
