//! Lines to the letter, and writers that take nothing.
use event_journal::{About, Cause, Entrance, Event, Journal, LinkPlace, Reason, Telling};
use op_ids::ReplicaId;
use std::alloc::Global;
use std::rt::Clock;
use std::sync::Wait;
use std::test::Fail;

const PLACE: LinkPlace = LinkPlace {
    link: 3,
    is_joined: true,
    port: 7_101,
};

const FAILED: Reason<'static> = Reason {
    code: 9,
    word: "failed",
};

/// Whether a journal that is told of this event writes this line.
fn is_told<R: Wait + Clock>(rt: &R, alloc: Global, event: &Event<'_>, line: &str) -> bool {
    let journal = Journal::new(alloc, Telling::All);
    journal.tell(rt, event);
    journal.end(rt);
    let mut written = Vec::new(alloc);
    journal.write_all(rt, &mut written);
    written.as_slice() == line.as_bytes()
}

/// The replica whose number is 1.
fn first_replica() -> Result<ReplicaId, Fail> {
    let name = [0, 0, 0, 0, 0, 0, 0x40, 0, 0x80, 0, 0, 0, 0, 0, 0, 1];
    Ok(ReplicaId::read(name).ok_or("nil")?)
}

#[test]
fn a_daemon_is_a_line(rt: HostRuntime) -> Result<(), Fail> {
    // The kit's borrow checker looks up the types that an event holds by the names in a function.
    let _: Option<Entrance<'static>> = None;
    let listening = Event::Listening {
        file: "my \"notes\"\n",
        replica: first_replica()?,
        sessions: 7_001,
        peers: 7_101,
        web: Some(7_201),
        operations: 12,
        documents: 2,
    };
    let line =
        "event=listening file=\"my \\u{22}notes\\u{22}\\u{a}\" replica=00000000-0000-4000-8000-000000000001 sessions=7001 peers=7101 web=7201 operations=12 documents=2\n";
    assert!(rt; is_told(&rt, rt.alloc(), &listening, line));
    let failed = Event::CommitFailed { reason: FAILED };
    let line = "event=commit_failed code=9 reason=failed\n";
    assert!(rt; is_told(&rt, rt.alloc(), &failed, line));
    let line = "event=opened_anew\n";
    assert!(rt; is_told(&rt, rt.alloc(), &Event::OpenedAnew, line));
    let cause = Some(Cause {
        status: 1,
        sentence: "it failed",
        about: About::Port(7_001),
    });
    let reason = FAILED;
    let end = Event::End { reason, cause };
    let line = "event=end code=9 reason=failed status=1 cause=\"it failed\" port=7001\n";
    assert!(rt; is_told(&rt, rt.alloc(), &end, line));
    Ok(())
}

#[test]
fn a_session_is_a_line(rt: HostRuntime) -> Result<(), Fail> {
    let reason = FAILED;
    let door = Entrance::Sessions;
    let up = Event::SessionUp { session: 7, door };
    let line = "event=session_up session=7 door=sessions\n";
    assert!(rt; is_told(&rt, rt.alloc(), &up, line));
    let down = Event::SessionDown {
        session: 7,
        reason,
        close: None,
    };
    let line = "event=session_down session=7 code=9 reason=failed\n";
    assert!(rt; is_told(&rt, rt.alloc(), &down, line));
    let refused = Event::SessionRefused { door, reason };
    let line = "event=session_refused door=sessions code=9 reason=failed\n";
    assert!(rt; is_told(&rt, rt.alloc(), &refused, line));
    let cause = None;
    let end = Event::End { reason, cause };
    let line = "event=end code=9 reason=failed\n";
    assert!(rt; is_told(&rt, rt.alloc(), &end, line));
    Ok(())
}

#[test]
fn a_web_session_is_a_line(rt: HostRuntime) {
    // The kit's borrow checker looks up the types that an event holds by the names in a function.
    let _: Option<Cause> = None;
    let origin = Some("http://localhost:8080");
    let door = Entrance::Web { origin };
    let up = Event::SessionUp { session: 7, door };
    let line = "event=session_up session=7 door=web origin=http://localhost:8080\n";
    assert!(rt; is_told(&rt, rt.alloc(), &up, line));
    let reason = FAILED;
    let close = Some(1_001);
    let down = Event::SessionDown {
        session: 7,
        reason,
        close,
    };
    let line = "event=session_down session=7 code=9 reason=failed close=1001\n";
    assert!(rt; is_told(&rt, rt.alloc(), &down, line));
    let door = Entrance::Web { origin: None };
    let refused = Event::SessionRefused { door, reason };
    let line = "event=session_refused door=web code=9 reason=failed\n";
    assert!(rt; is_told(&rt, rt.alloc(), &refused, line));
}

#[test]
fn a_link_is_a_line(rt: HostRuntime) -> Result<(), Fail> {
    // The kit's borrow checker looks up the types that an event holds by the names in a function.
    let _: Option<Entrance<'static>> = None;
    let replica = first_replica()?;
    let place = PLACE;
    let reason = Reason {
        code: 27,
        word: "link closed",
    };
    let up = Event::LinkUp { place, replica };
    let line =
        "event=link_up link=3 way=joined port=7101 replica=00000000-0000-4000-8000-000000000001\n";
    assert!(rt; is_told(&rt, rt.alloc(), &up, line));
    let down = Event::LinkDown { place, reason };
    let line = "event=link_down link=3 way=joined port=7101 code=27 reason=\"link closed\"\n";
    assert!(rt; is_told(&rt, rt.alloc(), &down, line));
    let refused = Event::LinkRefused { port: 9, reason };
    let line = "event=link_refused port=9 code=27 reason=\"link closed\"\n";
    assert!(rt; is_told(&rt, rt.alloc(), &refused, line));
    let cause = None;
    let end = Event::End { reason, cause };
    let line = "event=end code=27 reason=\"link closed\"\n";
    assert!(rt; is_told(&rt, rt.alloc(), &end, line));
    let copy = Event::Copy { place, replica };
    let line =
        "event=copy link=3 way=joined port=7101 replica=00000000-0000-4000-8000-000000000001 note=\"this file is a copy; both ends stop telling\"\n";
    assert!(rt; is_told(&rt, rt.alloc(), &copy, line));
    Ok(())
}

#[test]
fn lines_without_room_are_counted(rt: HostRuntime) -> Result<(), Fail> {
    // The kit's borrow checker looks up the types that an event holds by the names in a function.
    let _: Option<Entrance<'static>> = None;
    let alloc = rt.alloc();
    let journal = Journal::new(alloc, Telling::All);
    for session in 0..300 {
        let (reason, close) = (FAILED, None);
        let down = Event::SessionDown {
            session,
            reason,
            close,
        };
        journal.tell(&rt, &down);
    }
    let (reason, cause) = (FAILED, None);
    journal.tell(&rt, &Event::End { reason, cause });
    journal.end(&rt);
    let mut written = Vec::new(alloc);
    journal.write_all(&rt, &mut written);
    let end = "session=255 code=9 reason=failed\nevent=dropped count=45\n";
    assert!(rt; written.as_slice().ends_with(end.as_bytes()));
    Ok(())
}

#[test]
fn in_brief_little_is_told(rt: HostRuntime) -> Result<(), Fail> {
    // The kit's borrow checker looks up the types that an event holds by the names in a function.
    let _: Option<Entrance<'static>> = None;
    let alloc = rt.alloc();
    let journal = Journal::new(alloc, Telling::Brief);
    journal.tell(&rt, &Event::OpenedAnew);
    let (reason, cause) = (FAILED, None);
    journal.tell(&rt, &Event::End { reason, cause });
    journal.end(&rt);
    let mut written = Vec::new(alloc);
    journal.write_all(&rt, &mut written);
    assert!(rt; written.as_slice() == "event=end code=9 reason=failed\n".as_bytes());
    Ok(())
}
