//! The commands that the program knows.
ghost use Rattle.std.specs.Prelude.{◌≡◌, IfOk, false};
ghost use Rattle.clap.specs.Simple.{new_app};
ghost use Rattle.clap.specs.Words.{app_of, rule_of};
ghost use Rattle.clap.specs.declared.builder.command.Command.TheViews.{out-Command};
ghost use Rattle.program_commands.specs.Program.{init_app, edit_app, dump_app, serve_app, port_option, program};
ghost use Rattle.program_commands.specs.Program.{flag_option, list_app, export_app, form_option, origin_option};
ghost use Rattle.program_commands.specs.Program.{check_app, ask_app, line_rule, with_port_options};
ghost use Rattle.program_commands.specs.Program.{import_app, from_option, rev_option};
ghost use Rattle.program_commands.specs.Program.{history_app, every_option, with_looks};
ghost use Rattle.program_commands.specs.Program.{needed as needed_rule};

use crate::examples::{
    ASK_EXAMPLES, CHECK_EXAMPLES, DUMP_EXAMPLES, EDIT_EXAMPLES, EXAMPLES, EXPORT_EXAMPLES,
    HISTORY_EXAMPLES, IMPORT_EXAMPLES, INIT_EXAMPLES, LIST_EXAMPLES, SERVE_EXAMPLES,
};
use clap::{Arg, ArgAction, Command};
use std::alloc::{AllocError, Global};

/// What `--version` tells.
const VERSION: &str = "0.1.0";

/// All commands of the program, with their help. An error is out of memory (1).
pub fn commands<'a>(alloc: Global) -> Result<Command<'a>, AllocError>
    ensures { IfOk result (λ command. app_of command ≡ program) }
{
    let bare = Command::new(alloc, "peritext")
        .version(VERSION)
        .about("Crash-safe rich text for one peer")
        .after_help(EXAMPLES);
    let edited = bare
        .subcommand(init_command(alloc)?)?
        .subcommand(edit_command(alloc)?)?;
    let all = with_looks(alloc, edited)?
        .subcommand(import_command(alloc)?)?
        .subcommand(serve_command(alloc)?)?
        .subcommand(ask_command(alloc)?)?;
    Ok(all)
}

/// A program with the commands that look at a file: a function of its own, since the proof of one
/// grows with the square of its ways out.
fn with_looks<'a>(alloc: Global, command: Command<'a>) -> Result<Command<'a>, AllocError>
    ensures { IfOk result (λ it. app_of it ≡ with_looks (app_of command.entry)) }
{
    let command = command
        .subcommand(dump_command(alloc)?)?
        .subcommand(list_command(alloc)?)?
        .subcommand(check_command(alloc)?)?
        .subcommand(export_command(alloc)?)?
        .subcommand(history_command(alloc)?)?;
    Ok(command)
}

/// A command without arguments.
fn described<'a>(alloc: Global, name: &'a str, about: &'a str, examples: &'a str) -> Command<'a>
    ensures app { app_of result ≡ new_app name.entry.now }
    ensures local { (out-Command result).has_globals ≡ false }
{
    Command::new(alloc, name).about(about).after_help(examples)
}

/// `init FILE --replica UUID`.
fn init_command<'a>(alloc: Global) -> Result<Command<'a>, AllocError>
    ensures app { IfOk result (λ command. app_of command ≡ init_app) }
    ensures local { IfOk result (λ command. (out-Command command).has_globals ≡ false) }
{
    let bare = described(alloc, "init", "Makes an empty store", INIT_EXAMPLES);
    let command = bare
        .arg(needed(
            alloc,
            "FILE",
            "The store, which is made where it isn't there",
        ))?
        .arg(needed(alloc, "UUID", "The name of the replica").long("replica"))?;
    Ok(command)
}

/// `edit FILE`.
fn edit_command<'a>(alloc: Global) -> Result<Command<'a>, AllocError>
    ensures app { IfOk result (λ command. app_of command ≡ edit_app) }
    ensures local { IfOk result (λ command. (out-Command command).has_globals ≡ false) }
{
    let bare = described(
        alloc,
        "edit",
        "Serves one session on standard input and output",
        EDIT_EXAMPLES,
    );
    let command = bare.arg(needed(alloc, "FILE", "The store"))?;
    Ok(command)
}

/// `dump FILE DOC`.
fn dump_command<'a>(alloc: Global) -> Result<Command<'a>, AllocError>
    ensures app { IfOk result (λ command. app_of command ≡ dump_app) }
    ensures local { IfOk result (λ command. (out-Command command).has_globals ≡ false) }
{
    let bare = described(
        alloc,
        "dump",
        "Prints the text and the spans of a document",
        DUMP_EXAMPLES,
    );
    let command = bare
        .arg(needed(alloc, "FILE", "The store"))?
        .arg(needed(alloc, "DOC", "The number of the document"))?;
    Ok(command)
}

/// `list FILE`.
fn list_command<'a>(alloc: Global) -> Result<Command<'a>, AllocError>
    ensures app { IfOk result (λ command. app_of command ≡ list_app) }
    ensures local { IfOk result (λ command. (out-Command command).has_globals ≡ false) }
{
    let bare = described(
        alloc,
        "list",
        "Tells of each document, and of the room in the store",
        LIST_EXAMPLES,
    );
    let command = bare.arg(needed(alloc, "FILE", "The store"))?;
    Ok(command)
}

/// `check FILE`.
fn check_command<'a>(alloc: Global) -> Result<Command<'a>, AllocError>
    ensures app { IfOk result (λ command. app_of command ≡ check_app) }
    ensures local { IfOk result (λ command. (out-Command command).has_globals ≡ false) }
{
    let bare = described(
        alloc,
        "check",
        "Opens a store, and tells what it found",
        CHECK_EXAMPLES,
    );
    let command = bare.arg(needed(alloc, "FILE", "The store"))?;
    Ok(command)
}

/// `export FILE DOC [--to FORM] [--at-rev REV] [--breaks]`.
fn export_command<'a>(alloc: Global) -> Result<Command<'a>, AllocError>
    ensures app { IfOk result (λ command. app_of command ≡ export_app) }
    ensures local { IfOk result (λ command. (out-Command command).has_globals ≡ false) }
{
    let bare = described(
        alloc,
        "export",
        "Prints a document as text, Markdown or HTML",
        EXPORT_EXAMPLES,
    );
    let command = bare
        .arg(needed(alloc, "FILE", "The store"))?
        .arg(needed(alloc, "DOC", "The number of the document"))?
        .arg(form(alloc))?
        .arg(at_rev(alloc))?
        .arg(flag(alloc, "breaks", "Breaks of the line in place of paragraphs"))?;
    Ok(command)
}

/// `history FILE DOC [--every N]`.
fn history_command<'a>(alloc: Global) -> Result<Command<'a>, AllocError>
    ensures app { IfOk result (λ command. app_of command ≡ history_app) }
    ensures local { IfOk result (λ command. (out-Command command).has_globals ≡ false) }
{
    let bare = described(
        alloc,
        "history",
        "Prints the versions of a document",
        HISTORY_EXAMPLES,
    );
    let command = bare
        .arg(needed(alloc, "FILE", "The store"))?
        .arg(needed(alloc, "DOC", "The number of the document"))?
        .arg(every(alloc))?;
    Ok(command)
}

/// `import FILE DOC --from FORM`.
fn import_command<'a>(alloc: Global) -> Result<Command<'a>, AllocError>
    ensures app { IfOk result (λ command. app_of command ≡ import_app) }
    ensures local { IfOk result (λ command. (out-Command command).has_globals ≡ false) }
{
    let bare = described(
        alloc,
        "import",
        "Puts text or Markdown in at the end of a document",
        IMPORT_EXAMPLES,
    );
    let command = bare
        .arg(needed(alloc, "FILE", "The store"))?
        .arg(needed(alloc, "DOC", "The number of the document"))?
        .arg(from(alloc).required(true))?;
    Ok(command)
}

/// `serve FILE --sessions PORT --peers PORT [--link PORT] [--web PORT] [--origin ORIGIN]..
/// [--end-on-failure] [--log] [--ready]`.
fn serve_command<'a>(alloc: Global) -> Result<Command<'a>, AllocError>
    ensures app { IfOk result (λ command. app_of command ≡ serve_app) }
    ensures local { IfOk result (λ command. (out-Command command).has_globals ≡ false) }
{
    let bare = described(
        alloc,
        "serve",
        "Serves sessions and peers over sockets",
        SERVE_EXAMPLES,
    );
    let command = with_ports(alloc, bare.arg(needed(alloc, "FILE", "The store"))?)?
        .arg(origin(alloc))?
        .arg(flag(alloc, "end-on-failure", "Ends once the device failed (9)"))?
        .arg(flag(
            alloc,
            "log",
            "Writes a line for each event to standard error",
        ))?
        .arg(flag(alloc, "ready", "Prints a line once all its ports listen"))?;
    Ok(command)
}

/// A command with the ports of a daemon: a function of its own, since the proof of one grows with the
/// square of its ways out.
fn with_ports<'a>(alloc: Global, command: Command<'a>) -> Result<Command<'a>, AllocError>
    ensures app { IfOk result (λ it. app_of it ≡ with_port_options (app_of command.entry)) }
    ensures local { (out-Command command.entry).has_globals ≡ false
        → IfOk result (λ it. (out-Command it).has_globals ≡ false) }
{
    let command = command
        .arg(port(alloc, "sessions", "Where sessions come in").required(true))?
        .arg(port(alloc, "peers", "Where peers come in").required(true))?
        .arg(port(alloc, "link", "Where the peer listens that is joined"))?
        .arg(port(alloc, "web", "Where WebSockets come in"))?;
    Ok(command)
}

/// `ask PORT [LINE]..`.
fn ask_command<'a>(alloc: Global) -> Result<Command<'a>, AllocError>
    ensures app { IfOk result (λ command. app_of command ≡ ask_app) }
    ensures local { IfOk result (λ command. (out-Command command).has_globals ≡ false) }
{
    let bare = described(
        alloc,
        "ask",
        "Asks a daemon, and prints its answers",
        ASK_EXAMPLES,
    );
    let command = bare
        .arg(needed(alloc, "PORT", "Where its sessions come in"))?
        .arg(line(alloc))?;
    Ok(command)
}

/// An argument that has to be given.
fn needed<'a>(alloc: Global, name: &'a str, help: &'a str) -> Arg<'a>
    ensures rule { rule_of result ≡ needed_rule name.entry.now }
    ensures local { result.global ≡ false }
{
    Arg::new(alloc, name).help(help).required(true)
}

/// The option with the value FORM.
fn form<'a>(alloc: Global) -> Arg<'a>
    ensures rule { rule_of result ≡ form_option }
    ensures local { result.global ≡ false }
{
    Arg::new(alloc, "to")
        .long("to")
        .value_name("FORM")
        .help("text, markdown or html [default: text]")
}

/// The option with the value REV.
fn at_rev<'a>(alloc: Global) -> Arg<'a>
    ensures rule { rule_of result ≡ rev_option }
    ensures local { result.global ≡ false }
{
    Arg::new(alloc, "at-rev")
        .long("at-rev")
        .value_name("REV")
        .help("The document as it was with its first REV operations")
}

/// The option with the value N.
fn every<'a>(alloc: Global) -> Arg<'a>
    ensures rule { rule_of result ≡ every_option }
    ensures local { result.global ≡ false }
{
    Arg::new(alloc, "every")
        .long("every")
        .value_name("N")
        .help("A version has at most N operations")
}

/// The option with the value FORM of a page that is read.
fn from<'a>(alloc: Global) -> Arg<'a>
    ensures rule { rule_of result ≡ from_option }
    ensures local { result.global ≡ false }
{
    Arg::new(alloc, "from")
        .long("from")
        .value_name("FORM")
        .help("markdown or text")
}

/// An option with the value PORT.
fn port<'a>(alloc: Global, name: &'a str, help: &'a str) -> Arg<'a>
    ensures rule { rule_of result ≡ port_option name.entry.now }
    ensures local { result.global ≡ false }
{
    Arg::new(alloc, name)
        .long(name)
        .value_name("PORT")
        .help(help)
}

/// The option with the value ORIGIN, which may be given again.
fn origin<'a>(alloc: Global) -> Arg<'a>
    ensures rule { rule_of result ≡ origin_option }
    ensures local { result.global ≡ false }
{
    Arg::new(alloc, "origin")
        .long("origin")
        .value_name("ORIGIN")
        .action(ArgAction::Append)
        .help("A web page that may open WebSockets, as http://localhost:8080")
}

/// The argument LINE, which may be given again.
fn line<'a>(alloc: Global) -> Arg<'a>
    ensures rule { rule_of result ≡ line_rule }
    ensures local { result.global ≡ false }
{
    Arg::new(alloc, "LINE")
        .action(ArgAction::Append)
        .help("A request; without any, each line of the input is one")
}

/// An option without a value.
fn flag<'a>(alloc: Global, name: &'a str, help: &'a str) -> Arg<'a>
    ensures rule { rule_of result ≡ flag_option name.entry.now }
    ensures local { result.global ≡ false }
{
    Arg::new(alloc, name)
        .long(name)
        .action(ArgAction::SetTrue)
        .help(help)
}
