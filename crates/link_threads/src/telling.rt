//! The thread of a link that tells, over a `Line` under the lock.

use crate::link_end::LinkEnd;
use crate::link_host::LinkHost;
use crate::locked_line::LockedLine;
use crate::shared_peer::SharedPeer;
use link_speaker::{Line, SpeakError, Speaker, write_out};
use pass_books::BookNames;
use rtrb::Consumer;
use shared_hub::{Checkpoint, News, Shared};
use std::io::Write;
use std::rt::Clock;
use std::sync::Wait;
use std::thread;
use std::time::Duration;

/// The pause before a HAVE that asks for operations again, in milliseconds: the first one. It
/// doubles up to the longest.
const PAUSE: u64 = 10;

const LONGEST_PAUSE: u64 = 1_000;

/// The pause before operations are told that were asked for again, in milliseconds: an end that
/// asks for ever leaves the hub's lock and the processors to others. It is longer than the pause
/// after many HAVEs, so that such an end has asked again when it is over.
const PAUSE_AGAIN: u64 = 4;

/// What the thread of a link that tells works with.
#[derive(Drop)]
pub(crate) struct Telling<'a, R: Wait + Clock, J: BookNames> {
    rt: &'a R,
    shared: &'a Shared<J>,
    end: &'a LinkEnd,
    /// The number of the link's pass.
    link: usize,
    /// The notes of the thread that hears: a HAVE is due.
    notes: Consumer<u8>,
    speaker: Speaker,
    /// The next pause, in milliseconds.
    pause: u64,
}

impl<'a, R: Wait + Clock, J: BookNames> Telling<'a, R, J> {
    /// The thread of the link whose pass has this number, with the notes of the one that hears.
    /// Nothing was said so far.
    pub(crate) fn new<C: Checkpoint>(
        host: &'a LinkHost<'a, R, J, C>,
        end: &'a LinkEnd,
        link: usize,
        notes: Consumer<u8>,
    ) -> Telling<'a, R, J> {
        Telling {
            rt: host.rt,
            shared: host.shared,
            end,
            link,
            notes,
            speaker: Speaker::new(host.alloc),
            pause: PAUSE,
        }
    }

    /// Says what is due, each time that there is something, until nothing more is heard or the
    /// daemon ends; and then BYE, unless the stream has failed.
    pub(crate) fn run<S: Write>(&mut self, peer: &mut SharedPeer<'_, R, J>, stream: &mut S) {
        let mut line = LockedLine {
            rt: self.rt,
            end: self.end,
        };
        if self.say_all(peer, &mut line, stream) {
            let _ = line.say_bye();
            let _ = write_out(&mut line, stream);
        }
    }

    /// Says what is due, each time that there is something, until the other thread has ended or the
    /// daemon ends; if just nothing more is heard, until all that is due was said. Answers whether
    /// the stream still works.
    fn say_all<S: Write>(
        &mut self,
        peer: &mut SharedPeer<'_, R, J>,
        line: &mut LockedLine<'_, R>,
        stream: &mut S,
    ) -> bool {
        let mut seen = News::none();
        let mut is_have_due = false;
        for _ in self.rt.forever() {
            if self.end.is_over(self.rt) || seen.is_closing {
                return true;
            }
            self.pause_if_asked_again();
            // A HAVE that found no memory stays due.
            is_have_due = is_have_due || self.has_notes();
            let is_last = self.end.has_heard_all(self.rt);
            match self.speaker.speak(peer, line, stream, is_have_due) {
                Ok(true) => is_have_due = false,
                Ok(false) if is_last => return true,
                Ok(false) => {
                    is_have_due = false;
                    seen = self.shared.wait_for_news(self.rt, self.link, seen);
                }
                Err(SpeakError::Memory) if !is_last => match write_out(line, stream) {
                    // What waits is the HAVE: it was the operations that found no memory.
                    Ok(is_have_said) => {
                        is_have_due &= !is_have_said;
                        thread::sleep(self.rt, Duration::from_millis(PAUSE));
                    }
                    Err(_) => return false,
                },
                Err(SpeakError::Stream(_)) => return false,
                Err(_) => return true,
            }
        }
        unreachable!()
    }

    /// Makes a pause where what was told is asked for again.
    fn pause_if_asked_again(&self) {
        if self.end.take_asked_again(self.rt) {
            thread::sleep(self.rt, Duration::from_millis(PAUSE_AGAIN));
        }
    }

    /// Whether there are notes, which are taken then; before that is answered, there is a pause.
    fn has_notes(&mut self) -> bool {
        if !self.take_notes() {
            self.pause = PAUSE;
            return false;
        }
        thread::sleep(self.rt, Duration::from_millis(self.pause));
        self.pause = LONGEST_PAUSE.min(self.pause.saturating_mul(2));
        let _ = self.take_notes();
        true
    }

    /// Takes all notes, and answers whether there were any.
    fn take_notes(&mut self) -> bool {
        let mut found = false;
        for _ in 0..self.notes.capacity() {
            if self.notes.pop().is_err() {
                break;
            }
            found = true;
        }
        found
    }
}
