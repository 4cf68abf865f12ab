//! The words of a command line.
ghost use Rattle.std.specs.Prelude.{◌≡◌, ◌≢◌, [], Some, None, IfOk, IfErr, OnOk, map, option_map};
ghost use Rattle.clap.specs.Words.{all_of, fault_of, first_of, found_of, rows_of};
ghost use Rattle.clap.specs.Words.{subcommand_of, subcommand_rows_of};
ghost use Rattle.command_words.specs.declared.order_fault.OrderFault.TheVariants.{Field, Port};
ghost use Rattle.program_commands.specs.Program.{program};
ghost use Rattle.command_words.specs.Asked.{texts, meant, asked, asked_of, init_of, edit_of, dump_of, serve_of};
ghost use Rattle.command_words.specs.Asked.{list_of, check_of, export_of, ask_of, meant_of_web, web_at};
ghost use Rattle.command_words.specs.Asked.{import_of, history_of};
ghost use Rattle.command_words.specs.Asked.{told, bad_port_of, bad_port_at, is_flag_given};
ghost use Rattle.command_words.specs.Faults.{RefusedBy, BreaksRule, TellsOf};

use crate::order_fault::OrderFault;
use clap::ArgMatches;
use clap::error::ErrorKind;
use command_syntax::{
    AskOrder, BadPort, CheckOrder, DumpOrder, ExportOrder, FewTexts, HistoryOrder, ImportOrder,
    ListOrder, Order, ServeOrder, StoreOrder, WebOrder, doc, every, form, optional_number,
    optional_port, port, replica,
};
use page_reading::PageForm;
use program_commands::commands;
use std::alloc::Global;

/// What the words of a command line ask for, of which the first is the program's name. `Usage`
/// where they aren't those of a command, or ask for help. `Port` where a port breaks its rule, and
/// `Field` (4) where a UUID, a number or a form does. `Memory` (1) where a growth was refused.
pub fn order<'a>(alloc: Global, words: &'a [&'a str]) -> Result<Order<'a>, OrderFault<'a>>
    ensures taken { OnOk result (fault_of program (texts words.entry.now) ≡ []) }
    ensures ok { IfOk result (λ order. asked (texts words.entry.now) ≡ Some (meant order)) }
    ensures refused { IfErr result (RefusedBy (fault_of program (texts words.entry.now))) }
    ensures field { IfErr result (λ fault. fault ≡ Field → asked (texts words.entry.now) ≡ None) }
    ensures rule { IfErr result (BreaksRule (texts words.entry.now)) }
{
    let matches = matches(alloc, words)?;
    match matches.subcommand() {
        None => Ok(Order::Store(StoreOrder::InMemory)),
        Some((name, inner)) => match command_order(name, inner) {
            Some(order) => Ok(order),
            None => Err(bad_value(inner)),
        },
    }
}

/// What was found for the words of a command line.
fn matches<'a>(alloc: Global, words: &'a [&'a str]) -> Result<ArgMatches<'a>, OrderFault<'a>>
    ensures taken { OnOk result (fault_of program (texts words.entry.now) ≡ []) }
    ensures ok { IfOk result (λ matches.
        subcommand_rows_of matches ≡ subcommand_of program (texts words.entry.now)) }
    ensures refused { IfErr result (RefusedBy (fault_of program (texts words.entry.now))) }
    ensures no_field { IfErr result (λ fault. fault ≢ Field) }
    ensures no_port { IfErr result (λ fault. (port : BadPort) → fault ≢ Port port) }
{
    let commands = commands(alloc)?;
    match commands.try_get_matches_from(words) {
        Ok(matches) => Ok(matches),
        Err(error) if error.kind() == ErrorKind::OutOfMemory => Err(OrderFault::Memory),
        Err(error) => Err(OrderFault::Usage(error)),
    }
}

/// The order of a command with this name.
fn command_order<'a>(name: &str, matches: &ArgMatches<'a>) -> Option<Order<'a>>
    ensures { option_map meant result ≡ asked_of name.now (rows_of (found_of matches.now)) }
{
    match name {
        "init" => init(matches),
        "edit" => edit(matches),
        "dump" => dump(matches),
        "list" => list(matches),
        "check" => check(matches),
        "export" => export(matches),
        "history" => history(matches),
        "import" => import(matches),
        "serve" => serve(matches),
        "ask" => ask(matches),
        _ => None,
    }
}

/// The order of an `init`.
fn init<'a>(matches: &ArgMatches<'a>) -> Option<Order<'a>>
    ensures { option_map meant result ≡ init_of (rows_of (found_of matches.now)) }
{
    let file = value(matches, "FILE")?;
    let replica = replica(value(matches, "UUID")?)?;
    Some(Order::Store(StoreOrder::Init { file, replica }))
}

/// The order of an `edit`.
fn edit<'a>(matches: &ArgMatches<'a>) -> Option<Order<'a>>
    ensures { option_map meant result ≡ edit_of (rows_of (found_of matches.now)) }
{
    let file = value(matches, "FILE")?;
    Some(Order::Store(StoreOrder::Edit { file }))
}

/// The order of a `dump`.
fn dump<'a>(matches: &ArgMatches<'a>) -> Option<Order<'a>>
    ensures { option_map meant result ≡ dump_of (rows_of (found_of matches.now)) }
{
    let file = value(matches, "FILE")?;
    let doc = doc(value(matches, "DOC")?)?;
    Some(Order::Dump(DumpOrder { file, doc }))
}

/// The order of a `list`.
fn list<'a>(matches: &ArgMatches<'a>) -> Option<Order<'a>>
    ensures { option_map meant result ≡ list_of (rows_of (found_of matches.now)) }
{
    let file = value(matches, "FILE")?;
    Some(Order::List(ListOrder { file }))
}

/// The order of a `check`.
fn check<'a>(matches: &ArgMatches<'a>) -> Option<Order<'a>>
    ensures { option_map meant result ≡ check_of (rows_of (found_of matches.now)) }
{
    let file = value(matches, "FILE")?;
    Some(Order::Check(CheckOrder { file }))
}

/// The order of an `export`.
fn export<'a>(matches: &ArgMatches<'a>) -> Option<Order<'a>>
    ensures { option_map meant result ≡ export_of (rows_of (found_of matches.now)) }
{
    let file = value(matches, "FILE")?;
    let doc = doc(value(matches, "DOC")?)?;
    let at_rev = optional_number(value(matches, "at-rev"))?;
    let form = form(value(matches, "to"), is_given(matches, "breaks"))?;
    Some(Order::Export(ExportOrder {
        file,
        doc,
        at_rev,
        form,
    }))
}

/// The order of a `history`.
fn history<'a>(matches: &ArgMatches<'a>) -> Option<Order<'a>>
    ensures { option_map meant result ≡ history_of (rows_of (found_of matches.now)) }
{
    let file = value(matches, "FILE")?;
    let doc = doc(value(matches, "DOC")?)?;
    let every = every(value(matches, "every"))?;
    Some(Order::History(HistoryOrder { file, doc, every }))
}

/// The order of an `import`.
fn import<'a>(matches: &ArgMatches<'a>) -> Option<Order<'a>>
    ensures { option_map meant result ≡ import_of (rows_of (found_of matches.now)) }
{
    let file = value(matches, "FILE")?;
    let doc = doc(value(matches, "DOC")?)?;
    let form = PageForm::named(value(matches, "from")?)?;
    Some(Order::Import(ImportOrder { file, doc, form }))
}

/// The order of a `serve`.
fn serve<'a>(matches: &ArgMatches<'a>) -> Option<Order<'a>>
    ensures { option_map meant result ≡ serve_of (rows_of (found_of matches.now)) }
{
    let file = value(matches, "FILE")?;
    let sessions = port(value(matches, "sessions")?)?;
    let peers = port(value(matches, "peers")?)?;
    let link = optional_port(value(matches, "link"))?;
    let web = web(matches)?;
    let ends_on_failure = is_given(matches, "end-on-failure");
    Some(Order::Serve(ServeOrder {
        file,
        sessions,
        peers,
        link,
        web,
        ends_on_failure,
        logs: is_given(matches, "log"),
        tells_ready: is_given(matches, "ready"),
    }))
}

/// The order of an `ask`.
fn ask<'a>(matches: &ArgMatches<'a>) -> Option<Order<'a>>
    ensures { option_map meant result ≡ ask_of (rows_of (found_of matches.now)) }
{
    let port = port(value(matches, "PORT")?)?;
    let lines = FewTexts::new(values(matches, "LINE").unwrap_or(&[]))?;
    Some(Order::Ask(AskOrder { port, lines }))
}

/// What a `serve` names of web pages, if it names any.
fn web<'a>(matches: &ArgMatches<'a>) -> Option<Option<WebOrder<'a>>>
    ensures { option_map (λ web. option_map meant_of_web web) result
        ≡ web_at (rows_of (found_of matches.now)) }
{
    let named = values(matches, "origin");
    let Some(word) = value(matches, "web") else {
        return if named.is_none() { Some(None) } else { None };
    };
    let port = port(word)?;
    let origins = FewTexts::new(named.unwrap_or(&[]))?;
    Some(Some(WebOrder { port, origins }))
}

/// Whether a flag is given.
fn is_given<'a>(matches: &ArgMatches<'a>, flag: &str) -> bool
    ensures { result ≡ is_flag_given flag.now (rows_of (found_of matches.now)) }
{
    match value(matches, flag) {
        Some(text) => text == "true",
        None => false,
    }
}

/// Why a command asks for nothing: a value of it breaks its rule.
fn bad_value<'a>(matches: &ArgMatches<'a>) -> OrderFault<'a>
    ensures { TellsOf (bad_port_of (rows_of (found_of matches.now))) result }
{
    match bad_port(matches) {
        Some(port) => OrderFault::Port(port),
        None => OrderFault::Field,
    }
}

/// The first port that breaks its rule.
fn bad_port<'a>(matches: &ArgMatches<'a>) -> Option<BadPort<'a>>
    ensures { option_map told result ≡ bad_port_of (rows_of (found_of matches.now)) }
{
    bad_port_at(matches, "PORT")
        .or(bad_port_at(matches, "sessions"))
        .or(bad_port_at(matches, "peers"))
        .or(bad_port_at(matches, "link"))
        .or(bad_port_at(matches, "web"))
}

/// The port that this option or argument has, where it breaks its rule.
fn bad_port_at<'a>(matches: &ArgMatches<'a>, option: &'a str) -> Option<BadPort<'a>>
    ensures { option_map told result ≡ bad_port_at option.now (rows_of (found_of matches.now)) }
{
    let word = value(matches, option)?;
    match port(word) {
        Some(_) => None,
        None => Some(BadPort { option, word }),
    }
}

/// The value of an argument.
fn value<'a>(matches: &ArgMatches<'a>, id: &str) -> Option<&'a str>
    ensures { option_map (λ text. text.now) result
        ≡ first_of id.now (rows_of (found_of matches.now)) }
{
    matches.get_str(id)
}

/// The values of an argument, of all its uses.
fn values<'m, 'a>(matches: &'m ArgMatches<'a>, id: &str) -> Option<&'m [&'a str]>
    ensures { option_map (λ texts. map (λ text. text.now) texts.now) result
        ≡ all_of id.now (rows_of (found_of matches.now)) }
{
    matches.get_strs(id)
}
