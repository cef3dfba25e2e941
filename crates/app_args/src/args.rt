// The command line, as `clap` reads it.
ghost use Rattle.std.specs.Prelude.{IfOk, string_bytes};
ghost use Rattle.std.specs.List.{All};
ghost use Rattle.net_http.specs.Hosts.{IsHost};
ghost use Rattle.net_http.specs.Origins.{IsOrigin};
ghost use Rattle.app_args.specs.Origins.{AsksForOrigins, NamesOrigins};

use crate::asked::{DocumentPlace, Invocation, Options, Serving};
use crate::error::{WordError, WordsError};
use app_admin::Layout;
use app_identity::Address;
use clap::error::ErrorKind;
use clap::{Arg, ArgAction, ArgGroup, ArgMatches, Command, value_parser};
use net_http::{is_host, is_origin};
use std::alloc::{AllocError, Global};

/// What the words ask for, of which the first is the program's name.
///
/// The errors: `Line` is `clap`'s: it has the text to print, which for `--help` and `--version` is no fault, and the program's status, and
/// never is that memory ran out; `Word`, if a host, an origin, a URL or a name isn't as it has to be, or memory ran out.
pub fn read_words<'a>(alloc: Global, words: &'a [String]) -> Result<Invocation, WordsError>
    ensures { IfOk result AsksForOrigins }
{
    match program(alloc)?.try_get_matches_from(words) {
        Ok(matches) => asked_of(alloc, &matches),
        Err(error) if error.kind() == ErrorKind::OutOfMemory => {
            Err(WordsError::Word(WordError::Memory))
        }
        Err(error) => Err(WordsError::Line(error)),
    }
}

// What the words ask for that match the command line so.
fn asked_of(alloc: Global, matches: &ArgMatches<'_>) -> Result<Invocation, WordsError>
    ensures { IfOk result AsksForOrigins }
{
    match matches.subcommand() {
        Some((name, matches)) => command_of(alloc, name, matches),
        None => Err(WordsError::Word(WordError::Memory)),
    }
}

// What the command of this name asks for.
fn command_of(alloc: Global, name: &str, matches: &ArgMatches<'_>) -> Result<Invocation, WordsError>
    ensures { IfOk result AsksForOrigins }
{
    Ok(match name {
        "serve" => Invocation::Serve(options_of(alloc, matches)?),
        "show" => Invocation::Show {
            place: place_of(alloc, matches)?,
            layout: layout_of(matches),
        },
        "import" => Invocation::Import {
            place: place_of(alloc, matches)?,
        },
        "restore" => Invocation::Restore {
            backup: text_of(alloc, matches, "backup")?,
            dir: text_of(alloc, matches, "dir")?,
            accept_loss: matches.get_flag("accept-loss"),
        },
        "move" => Invocation::Move {
            dir: text_of(alloc, matches, "dir")?,
            address: address_of(alloc, matches)?,
            is_back: matches.get_flag("back"),
        },
        "log" => Invocation::Log {
            place: place_of(alloc, matches)?,
        },
        "kick" => Invocation::Kick {
            file: text_of(alloc, matches, "file")?,
            numbers: numbers_of(alloc, matches)?,
        },
        "edit" => Invocation::Edit {
            port: matches.get_one("port").unwrap_or(7411),
        },
        _ => Invocation::Check {
            place: place_of(alloc, matches)?,
        },
    })
}

// Where the document is: in the folder that is named, or in an etcd.
fn place_of(alloc: Global, matches: &ArgMatches<'_>) -> Result<DocumentPlace, WordsError> {
    match matches.get_str("dir") {
        Some(dir) => Ok(DocumentPlace::Folder(String::from_str(alloc, dir)?)),
        None => Ok(DocumentPlace::Document(address_of(alloc, matches)?)),
    }
}

// Where the document in an etcd is.
fn address_of(alloc: Global, matches: &ArgMatches<'_>) -> Result<Address, WordsError> {
    let mut urls = Vec::new(alloc);
    for url in matches.get_strs("etcd").unwrap_or_default() {
        urls.push(String::from_str(alloc, url)?)?;
    }
    let name = matches.get_str("document").unwrap_or_default();
    Ok(Address::new(alloc, &urls, name)?)
}

// How the rows of a document are to be laid out, if they are asked for.
fn layout_of(matches: &ArgMatches<'_>) -> Option<Layout> {
    if matches.get_flag("json") {
        Some(Layout::Array)
    } else if matches.get_flag("lines") {
        Some(Layout::Lines)
    } else {
        None
    }
}

// The program's command line.
fn program<'a>(alloc: Global) -> Result<Command<'a>, AllocError> {
    let program = Command::new(alloc, "lugcurrant")
        .version("0.1.0")
        .about("Multiplayer document server: many clients edit one document, online and offline")
        .subcommand_required(true)
        .arg_required_else_help(true);
    let program = with_command(Ok(program), serve_command(alloc));
    let program = with_command(program, edit_command(alloc));
    let program = with_command(program, show_command(alloc));
    let program = with_command(program, import_command(alloc));
    let program = with_command(program, restore_command(alloc));
    let program = with_command(program, move_command(alloc));
    let program = with_command(program, check_command(alloc));
    let program = with_command(program, log_command(alloc));
    with_command(program, kick_command(alloc))
}

// These three take and give what may want memory as a result. Thus a command is given up for want of it here alone, and not wherever
// something is added to one, each of which would have to be proved.

// With this command below it.
fn with_command<'a>(
    program: Result<Command<'a>, AllocError>,
    command: Result<Command<'a>, AllocError>,
) -> Result<Command<'a>, AllocError> {
    program?.subcommand(command?)
}

// With this argument.
fn with_arg<'a>(
    command: Result<Command<'a>, AllocError>,
    arg: Result<Arg<'a>, AllocError>,
) -> Result<Command<'a>, AllocError> {
    command?.arg(arg?)
}

// With this group of arguments.
fn with_group<'a>(
    command: Result<Command<'a>, AllocError>,
    group: Result<ArgGroup<'a>, AllocError>,
) -> Result<Command<'a>, AllocError> {
    command?.group(group?)
}

// A folder or a file, as an argument that is required.
fn folder<'a>(
    alloc: Global,
    name: &'static str,
    value: &'static str,
    help: &'static str,
) -> Arg<'a> {
    Arg::new(alloc, name)
        .value_name(value)
        .required(true)
        .action(ArgAction::Set)
        .help(help)
}

// An option without a value.
fn flag<'a>(alloc: Global, name: &'static str, help: &'static str) -> Arg<'a> {
    Arg::new(alloc, name)
        .long(name)
        .action(ArgAction::SetTrue)
        .help(help)
}

// An option with a value.
fn option<'a>(
    alloc: Global,
    name: &'static str,
    value: &'static str,
    help: &'static str,
) -> Arg<'a> {
    Arg::new(alloc, name)
        .long(name)
        .value_name(value)
        .action(ArgAction::Set)
        .help(help)
}

// With where the document is: in a folder, or in an etcd.
fn with_place<'a>(
    alloc: Global,
    command: Command<'a>,
    help: &'static str,
) -> Result<Command<'a>, AllocError> {
    let dir = folder(alloc, "dir", "DIR", help).required(false);
    let command = with_arg(Ok(command), Ok(dir));
    let command = with_arg(command, members(alloc));
    let command = with_arg(command, name_without_folder(alloc));
    with_group(command, folder_or_members(alloc))
}

// A folder, or the members of an etcd.
fn folder_or_members<'a>(alloc: Global) -> Result<ArgGroup<'a>, AllocError> {
    let places = ArgGroup::new(alloc, "place")
        .arg("dir")?
        .arg("etcd")?
        .required(true);
    Ok(places)
}

// The members of an etcd, as an argument.
fn members<'a>(alloc: Global) -> Result<Arg<'a>, AllocError> {
    let help = "etcd members, comma-separated, e.g. http://127.0.0.1:2379";
    option(alloc, "etcd", "URL,..", help)
        .action(ArgAction::Append)
        .value_delimiter(',')
        .requires_arg("document")
}

// The name of a document in an etcd, as an argument.
fn document_name<'a>(alloc: Global) -> Result<Arg<'a>, AllocError> {
    let help = "Name of the document in etcd: 1 to 64 letters, digits, '-', '.', '_'";
    option(alloc, "document", "NAME", help).requires_arg("etcd")
}

// The same, where a folder may be named instead.
fn name_without_folder<'a>(alloc: Global) -> Result<Arg<'a>, AllocError> {
    document_name(alloc)?.conflicts_with("dir")
}

// The words of `serve`.
fn serve_command<'a>(alloc: Global) -> Result<Command<'a>, AllocError> {
    let serve = Command::new(alloc, "serve").about(
        "Serve a document (stop it with Ctrl-C or kill; safe at any moment)",
    );
    let serve = with_place(alloc, serve, "Folder that holds the document");
    let serve = with_arg(serve, standby(alloc));
    let serve = with_limits(alloc, serve);
    let serve = with_arg(serve, Ok(host(alloc)));
    let serve = with_arg(serve, Ok(origin(alloc)));
    let serve = with_arg(serve, Ok(page(alloc)));
    let serve = with_arg(serve, accept_loss(alloc));
    let serve = with_arg(serve, Ok(stop_file(alloc)));
    let serve = with_arg(serve, Ok(kick_file(alloc)));
    let serve = with_arg(serve, Ok(trust_forwarded(alloc)));
    with_arg(serve, Ok(flag(alloc, "quiet", "Log errors only")))
}

// Checks whether a document in an etcd is waited for, as an argument.
fn standby<'a>(alloc: Global) -> Result<Arg<'a>, AllocError> {
    let help = "Wait while another server has the document, then take over";
    flag(alloc, "standby", help)
        .requires_arg("etcd")?
        .conflicts_with("dir")
}

// Checks whether a folder is opened although that loses something, as an argument.
fn accept_loss<'a>(alloc: Global) -> Result<Arg<'a>, AllocError> {
    let help = "Open a folder that has lost data, after copying its segments to DIR/lost";
    flag(alloc, "accept-loss", help).conflicts_with("etcd")
}

// With the numbers that `serve` takes.
fn with_limits<'a>(
    alloc: Global,
    serve: Result<Command<'a>, AllocError>,
) -> Result<Command<'a>, AllocError> {
    let serve = with_arg(serve, Ok(port(alloc)));
    let serve = with_arg(serve, Ok(clients(alloc)));
    let serve = with_arg(serve, Ok(workers(alloc)));
    let serve = with_arg(serve, Ok(idle(alloc)));
    with_arg(serve, Ok(message_bytes(alloc)))
}

// The port, as an argument.
fn port<'a>(alloc: Global) -> Arg<'a> {
    let help = "Port to listen on (127.0.0.1 only); 0 picks a free one";
    number(alloc, "port", "PORT", "7411", help).value_parser(value_parser!(u16))
}

// The most clients, as an argument.
fn clients<'a>(alloc: Global) -> Arg<'a> {
    let help = "Maximum number of connected clients, 1 to 100000";
    number(alloc, "clients", "N", "1000", help).value_parser(value_parser!(u32).range(1..100_001))
}

// The threads, as an argument.
fn workers<'a>(alloc: Global) -> Arg<'a> {
    let help = "Threads that serve clients, 1 to 31";
    number(alloc, "workers", "N", "8", help).value_parser(value_parser!(u32).range(1..32))
}

// The longest silence, as an argument.
fn idle<'a>(alloc: Global) -> Arg<'a> {
    let help = "Close a connection after this many seconds without traffic";
    number(alloc, "idle", "SECONDS", "300", help).value_parser(value_parser!(u64).range(1..86_401))
}

// The longest edit, as an argument.
fn message_bytes<'a>(alloc: Global) -> Arg<'a> {
    let help = "Maximum size of an edit, in bytes";
    number(alloc, "message-bytes", "BYTES", "1048576", help).value_parser(value_parser!(u32).range(
        1_024..67_108_865,
    ))
}

// A number as an option, with what it is where it isn't given.
fn number<'a>(
    alloc: Global,
    name: &'static str,
    value: &'static str,
    usual: &'static str,
    help: &'static str,
) -> Arg<'a> {
    option(alloc, name, value, help).default_value(usual)
}

// By which hosts it may be asked, as an argument.
fn host<'a>(alloc: Global) -> Arg<'a> {
    let help = "Also answer requests for this host, as a proxy forwards (repeatable)";
    option(alloc, "host", "HOST", help).action(ArgAction::Append)
}

// Whose pages may connect, as an argument.
fn origin<'a>(alloc: Global) -> Arg<'a> {
    let help = "Also accept browser pages from this origin (repeatable)";
    option(alloc, "origin", "ORIGIN", help).action(ArgAction::Append)
}

// The folder of the page's files, as an argument.
fn page<'a>(alloc: Global) -> Arg<'a> {
    option(
        alloc,
        "page",
        "FOLDER",
        "Serve the web page in this folder at /",
    )
}

// The file at which the server ends, as an argument.
fn stop_file<'a>(alloc: Global) -> Arg<'a> {
    let help = "Stop in good order, with status 0, once this file exists";
    option(alloc, "stop-file", "FILE", help)
}

// The file with the numbers of connections that an operator ends, as an argument.
fn kick_file<'a>(alloc: Global) -> Arg<'a> {
    let help = "End the connections whose numbers this file has, and remove it";
    option(alloc, "kick-file", "FILE", help)
}

// Checks whether the address that a proxy names is logged, as an argument.
fn trust_forwarded<'a>(alloc: Global) -> Arg<'a> {
    let help = "Log the address that the proxy names last in X-Forwarded-For";
    flag(alloc, "trust-forwarded", help)
}

// The words of `edit`.
fn edit_command<'a>(alloc: Global) -> Result<Command<'a>, AllocError> {
    let edit = Command::new(alloc, "edit").about(
        "Edit a served document: a client that plays edit lines from standard input",
    );
    with_arg(Ok(edit), Ok(server_port(alloc)))
}

// The port of the server, as an argument.
fn server_port<'a>(alloc: Global) -> Arg<'a> {
    let help = "Port of the server (127.0.0.1 only), 1 to 65535";
    number(alloc, "port", "PORT", "7411", help).value_parser(value_parser!(u16).range(1..65_536))
}

// The words of `show`.
fn show_command<'a>(alloc: Global) -> Result<Command<'a>, AllocError> {
    let show = Command::new(alloc, "show").about(
        "Print a document (works while a server is running)",
    );
    let show = with_place(alloc, show, "Folder that holds the document");
    let help = "Print the objects as one JSON array, one row per object";
    let show = with_arg(show, Ok(flag(alloc, "json", help)));
    with_arg(show, lines(alloc))
}

// Checks whether a document's rows are shown in lines, as an argument.
fn lines<'a>(alloc: Global) -> Result<Arg<'a>, AllocError> {
    let help = "Print the objects as JSON, one row per line";
    flag(alloc, "lines", help).conflicts_with("json")
}

// The words of `import`.
fn import_command<'a>(alloc: Global) -> Result<Command<'a>, AllocError> {
    let import = Command::new(alloc, "import").about(
        "Create a document from rows on standard input, as printed by show --json or --lines",
    );
    with_place(
        alloc,
        import,
        "Folder to create; if it exists, it must not hold a document",
    )
}

// The words of `restore`.
fn restore_command<'a>(alloc: Global) -> Result<Command<'a>, AllocError> {
    let restore = Command::new(alloc, "restore").about(
        "Create a folder from a backup, with a new identity, so that clients start over",
    );
    let backup = folder(
        alloc,
        "backup",
        "BACKUP",
        "Folder with the backup (not changed)",
    );
    let dir = folder(
        alloc,
        "dir",
        "DIR",
        "Folder to create; if it exists, it must not hold a document",
    );
    let help = "Restore what is left of a backup that has lost data";
    let restore = with_arg(Ok(restore), Ok(backup));
    let restore = with_arg(restore, Ok(dir));
    with_arg(restore, Ok(flag(alloc, "accept-loss", help)))
}

// The words of `move`.
fn move_command<'a>(alloc: Global) -> Result<Command<'a>, AllocError> {
    let moved = Command::new(alloc, "move").about(
        "Move a document, with its identity, from a folder to etcd or back",
    );
    let dir = folder(alloc, "dir", "DIR", "Folder that holds the document");
    let moved = with_arg(Ok(moved), Ok(dir));
    let moved = with_arg(moved, members(alloc));
    let moved = with_arg(moved, document_name(alloc));
    let help = "Move from etcd to the folder, which must not hold a document";
    let moved = with_arg(moved, Ok(flag(alloc, "back", help)));
    with_group(moved, required_members(alloc))
}

// The members of an etcd, which are required.
fn required_members<'a>(alloc: Global) -> Result<ArgGroup<'a>, AllocError> {
    let places = ArgGroup::new(alloc, "there").arg("etcd")?.required(true);
    Ok(places)
}

// The words of `check`.
fn check_command<'a>(alloc: Global) -> Result<Command<'a>, AllocError> {
    let check = Command::new(alloc, "check").about(
        "Report what recovery would find, and any damage (read-only)",
    );
    with_place(alloc, check, "Folder that holds the document")
}

// The words of `log`.
fn log_command<'a>(alloc: Global) -> Result<Command<'a>, AllocError> {
    let log = Command::new(alloc, "log").about(
        "Print the entries since the last checkpoint, one JSON text per line",
    );
    with_place(alloc, log, "Folder that holds the document")
}

// The words of `kick`.
fn kick_command<'a>(alloc: Global) -> Result<Command<'a>, AllocError> {
    let kick = Command::new(alloc, "kick").about(
        "End connections of a running server, by the numbers in its log",
    );
    let help = "File that --kick-file of the server names";
    let kick = with_arg(Ok(kick), Ok(folder(alloc, "file", "FILE", help)));
    with_arg(kick, Ok(numbers(alloc)))
}

// The numbers of connections, as an argument.
fn numbers<'a>(alloc: Global) -> Arg<'a> {
    Arg::new(alloc, "numbers")
        .value_name("NUMBER")
        .required(true)
        .num_args(1..1_001)
        .action(ArgAction::Append)
        .value_parser(value_parser!(u64))
        .help("Numbers of connections, at most 1000")
}

// What `serve` is asked for.
fn options_of(alloc: Global, matches: &ArgMatches<'_>) -> Result<Options, WordsError>
    ensures { IfOk result (λ options. NamesOrigins options.serving) }
{
    let serving = serving_of(alloc, matches)?;
    Ok(Options {
        place: place_of(alloc, matches)?,
        serving,
    })
}

// How a document is to be served.
fn serving_of(alloc: Global, matches: &ArgMatches<'_>) -> Result<Serving, WordsError>
    ensures { IfOk result NamesOrigins }
{
    let hosts = hosts_of(alloc, matches)?;
    let origins = origins_of(alloc, matches)?;
    let page = path_of(alloc, matches, "page")?;
    let stop_file = path_of(alloc, matches, "stop-file")?;
    let kick_file = path_of(alloc, matches, "kick-file")?;
    Ok(Serving {
        is_standby: matches.get_flag("standby"),
        port: matches.get_one("port").unwrap_or(7411),
        clients: matches.get_one("clients").unwrap_or(1_000),
        workers: matches.get_one("workers").unwrap_or(8),
        idle_seconds: matches.get_one("idle").unwrap_or(300),
        message_bytes: matches.get_one("message-bytes").unwrap_or(1 << 20),
        hosts,
        origins,
        page,
        accept_loss: matches.get_flag("accept-loss"),
        stop_file,
        kick_file,
        trust_forwarded: matches.get_flag("trust-forwarded"),
        quiet: matches.get_flag("quiet"),
    })
}

// The numbers of connections.
fn numbers_of(alloc: Global, matches: &ArgMatches<'_>) -> Result<Vec<u64>, WordsError> {
    let mut numbers = Vec::new(alloc);
    let Some(given) = matches.get_many::<u64>("numbers") else {
        return Ok(numbers);
    };
    for number in given {
        if let Ok(number) = number {
            numbers.push(number)?;
        }
    }
    Ok(numbers)
}

// The hosts that it may be asked by.
fn hosts_of(alloc: Global, matches: &ArgMatches<'_>) -> Result<Vec<String>, WordsError>
    ensures { IfOk result (λ hosts. All (λ text. IsHost (string_bytes text)) hosts.items) }
{
    let mut hosts = Vec::new(alloc);
    for text in matches.get_strs("host").unwrap_or_default() {
        hosts.push(host_in(alloc, text)?)?;
    }
    Ok(hosts)
}

// The host that this text is.
fn host_in(alloc: Global, text: &str) -> Result<String, WordsError>
    ensures { IfOk result (λ host. IsHost (string_bytes host)) }
{
    if !is_host(text.as_bytes()) {
        return Err(WordsError::Word(WordError::NotAHost));
    }
    Ok(String::from_str(alloc, text)?)
}

// The origins whose pages may connect.
fn origins_of(alloc: Global, matches: &ArgMatches<'_>) -> Result<Vec<String>, WordsError>
    ensures { IfOk result (λ origins. All (λ text. IsOrigin (string_bytes text)) origins.items) }
{
    let mut origins = Vec::new(alloc);
    for text in matches.get_strs("origin").unwrap_or_default() {
        origins.push(origin_in(alloc, text)?)?;
    }
    Ok(origins)
}

// The origin that this text is.
fn origin_in(alloc: Global, text: &str) -> Result<String, WordsError>
    ensures { IfOk result (λ origin. IsOrigin (string_bytes origin)) }
{
    if !is_origin(text.as_bytes()) {
        return Err(WordsError::Word(WordError::NotAnOrigin));
    }
    Ok(String::from_str(alloc, text)?)
}

// The path under this name, if one is named.
fn path_of(
    alloc: Global,
    matches: &ArgMatches<'_>,
    name: &str,
) -> Result<Option<String>, AllocError> {
    match matches.get_str(name) {
        Some(path) => Ok(Some(String::from_str(alloc, path)?)),
        None => Ok(None),
    }
}

// The text under this name, which is required.
fn text_of(alloc: Global, matches: &ArgMatches<'_>, name: &str) -> Result<String, AllocError> {
    String::from_str(alloc, matches.get_str(name).unwrap_or_default())
}
