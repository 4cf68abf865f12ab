//! What `--help` tells after the arguments.

/// A store from its making to its text.
pub(crate) const EXAMPLES: &str = "\
Examples:
  peritext init notes --replica $(cat /proc/sys/kernel/random/uuid)
  echo '{\"op\":\"insert\",\"doc\":1,\"at\":0,\"text\":\"Hello\"}' | peritext edit notes
  peritext dump notes 1
  peritext list notes
  peritext check notes
  peritext export notes 1 --to markdown
  peritext serve notes --sessions 7001 --peers 7002
  peritext ask 7001 '{\"op\":\"text\",\"doc\":1}'

Without a command: a session over a new store in memory, whose device takes 1,024 calls: some 130
edits one by one. What comes after them is refused (9).
Exit status: 0; 1 with a line 'peritext: NUMBER WORD' on standard error; 2 for other words.";

pub(crate) const INIT_EXAMPLES: &str = "\
Each replica has a UUID of its own: draw a new one for each file, and never give it to a second
one. A file with bytes in it is refused (48).

Example:
  peritext init notes --replica $(cat /proc/sys/kernel/random/uuid)";

pub(crate) const EDIT_EXAMPLES: &str = "\
Each line of the input is a request, each line of the output its answer. An edit is answered
once it is on the disk. Nobody else can have the file open meanwhile (54).
Exit status: 0, though requests were refused: their answers say so. 1 with a line 'peritext:
NUMBER WORD' on standard error if the file can't be opened (54) or the device failed (9).

Examples of requests:
  {\"op\":\"insert\",\"doc\":1,\"at\":0,\"text\":\"Hello\"}
  {\"op\":\"delete\",\"doc\":1,\"at\":4,\"count\":1}
  {\"op\":\"mark\",\"doc\":1,\"from\":0,\"to\":4,\"kind\":\"strong\"}
  {\"op\":\"unmark\",\"doc\":1,\"from\":0,\"to\":2,\"kind\":\"strong\"}
  {\"op\":\"text\",\"doc\":1}
  {\"op\":\"spans\",\"doc\":1}
  {\"op\":\"status\"}
  {\"op\":\"stop\"}";

pub(crate) const DUMP_EXAMPLES: &str = "\
The file is only read. No session can have it open meanwhile (54).

Example:
  peritext dump notes 1";

pub(crate) const LIST_EXAMPLES: &str = "\
A line for each document that has operations: how many characters it shows, its number, and how
many operations it has. Then a line for the file: how many bytes of records, documents, operations
and replicas it has, and how many it can have. The file is only read. No session can have it open
meanwhile (54).

Example:
  peritext list notes";

pub(crate) const CHECK_EXAMPLES: &str = "\
Opens the file as 'dump' does, and prints what it found, a line: how many bytes of records,
documents, operations and replicas it has, its format and its replica, the page and the version of
its live root, and what is in the other root slot: 'older' (the commit before), 'empty' (no commit
followed the making), 'unfinished' or 'broken' (a commit was cut off; the file is as before it). A
file that can't be opened is refused, so status 0 tells that a copy is good. The file is only read.
No session can have it open meanwhile (54).

Example:
  peritext check notes";

pub(crate) const EXPORT_EXAMPLES: &str = "\
The form is text (the characters alone; this is the one if none is named), markdown (CommonMark) or
html (a page). In the last two each line of the document is a paragraph, an empty one too, unless
--breaks asks for breaks of the line. Comments are tags with their UUID. A link that could run a
program, as one to 'javascript:', is written as its text alone. With --at-rev it is the document as
it was with its first REV operations in this file (4 if it has fewer). The file is only read. No
session can have it open meanwhile (54).

Examples:
  peritext export notes 1
  peritext export notes 1 --at-rev 250
  peritext export notes 1 --to markdown > notes.md
  peritext export notes 1 --to html > notes.html";

pub(crate) const HISTORY_EXAMPLES: &str = "\
Prints the answer to 'versions', a line: the versions of the document, each a stretch of its
operations in this file, one after another, that one replica made. Each tells how many operations it
has, its replica, and its 'rev': how many the document had with it, which --at-rev of 'export'
takes. Without --every only another replica's operation begins a new one. With it a version has at
most N, a number from 1 to 4294967295 in decimal digits. The file is only read. No session can have
it open meanwhile (54).

Examples:
  peritext history notes 1
  peritext history notes 1 --every 100";

pub(crate) const IMPORT_EXAMPLES: &str = "\
Reads standard input, UTF-8, and puts it in at the end of the document, after a line feed where that
shows something: as it stands with 'text', and with 'markdown' (CommonMark) its paragraphs, a line
feed between two of them, with what is strong, emphasised or a link. Other structure becomes plain
text: its lines tell how often that was so. Each edit has up to 1,024 changes, and is settled before
the next. Prints a line, as {\"characters\":9,\"dropped\":{\"heading\":1},\"ok\":true}; or the
answer of an edit that was refused, with status 1: what was settled before stays. Bytes that are no
UTF-8 are refused (4). Nobody else can have the file open meanwhile (54).

Examples:
  peritext import notes 1 --from markdown < notes.md
  peritext import notes 2 --from text < log.txt";

pub(crate) const SERVE_EXAMPLES: &str = "\
Sessions and peers come in on 127.0.0.1, at a port each: a number from 1 to 65535, in decimal
digits. A session writes requests and reads answers, a line each, as with 'edit'; the first 'stop'
ends the program. Nobody else can have the file open meanwhile (54). A port that is taken, or where
no peer can be joined, is refused (70). With --web each WebSocket at that port is a session, too:
one of a web page whose origin is named by --origin, up to 8 times, or of a program that isn't a web
page. With --end-on-failure the program ends as soon as the device failed, so that whoever watches
it starts it again; else it serves on what it has. With --log each event is a line on standard
error, as 'event=session_up session=3 door=sessions'. Lines that nobody reads in time are dropped
and counted. Without it nothing is written there, but on a terminal where it listens, and its end.
With --ready it prints {\"ok\":true} once all its ports listen: a script reads that line, and then
asks.

Examples:
  peritext serve notes --sessions 7001 --peers 7002
  peritext serve copy --sessions 7101 --peers 7102 --link 7002
  peritext serve notes --sessions 7001 --peers 7002 --web 7003 --origin http://localhost:8080";

pub(crate) const ASK_EXAMPLES: &str = "\
Sends each LINE, up to 8, or else each line of the input, to the daemon whose sessions come in on
PORT of 127.0.0.1, and prints its answer before it sends the next one. After a watch it prints what
comes until the daemon ends. What is asked and answered is as with 'edit'.
Exit status: 0 if each answer is one with \"ok\":true; else 1, with a line 'peritext: NUMBER WORD'
on standard error if no daemon listens there (70) or it ended before it answered (71).

Examples:
  peritext ask 7001 '{\"op\":\"text\",\"doc\":1}'
  peritext ask 7001 '{\"op\":\"stop\"}'
  peritext ask 7001 < requests";
