// The words that the program is called with.
ghost use Rattle.std.specs.Prelude.{◌∷◌, ℕ, IfNone, IfSome, codes, map, string_bytes};
ghost use Rattle.canvas_daemon.specs.Words.{AskFor, AskedOfDaemon, SpellsConnections, SpellsPort, seen_command};

use canvas_model::words::read_number;

/// The most connections that a server serves.
const MAX_CONNECTIONS: u32 = 64;

/// What the program is asked to do.
#[derive(Clone, Copy, Debug, PartialEq, Eq)]
pub enum DaemonCommand<'a> {
    /// A server of this folder's document, at this port of the own machine, for so many connections.
    Serve {
        /// The folder of the journal.
        dir: &'a str,
        /// From 1 to 65535.
        port: u16,
        /// From 1 to 64.
        connections: u32,
    },
    /// A client of the server at this port of the own machine.
    Edit {
        /// From 1 to 65535.
        port: u16,
    },
    /// The document in this folder.
    Show {
        /// The folder of the journal.
        dir: &'a str,
    },
    /// A server of this folder and two clients, in one process.
    Trial {
        /// The folder of the journal.
        dir: &'a str,
    },
}

/// The command that the words after the program's name ask for: `serve DIR PORT N`, `edit PORT`, `show DIR` or `trial DIR`, where
/// PORT is 1 to 65535 and N 1 to 64, in decimal digits without leading zeros. `None` where they ask for none.
pub fn read_command(words: &[String]) -> Option<DaemonCommand<'_>>
    ensures some { IfSome result (λ command. AskFor (map string_bytes words.now) (seen_command command)) }
    ensures none { IfNone result ((asked : AskedOfDaemon) → AskFor (map string_bytes words.now) asked → ⊥) }
{
    let (first, rest) = words.split_first()?;
    match first.as_bytes() {
        b"serve" => read_serve(rest),
        b"edit" => read_edit(rest),
        b"show" => read_show(rest),
        b"trial" => read_trial(rest),
        _ => None,
    }
}

// The command that `serve` and these words ask for.
fn read_serve(rest: &[String]) -> Option<DaemonCommand<'_>>
    ensures some { IfSome result (λ command. AskFor (codes "serve" ∷ map string_bytes rest.now) (seen_command command)) }
    ensures none { IfNone result ((asked : AskedOfDaemon) → AskFor (codes "serve" ∷ map string_bytes rest.now) asked → ⊥) }
{
    let [dir, port, connections] = rest else {
        return None;
    };
    let port = read_port(port.as_bytes())?;
    let connections = read_connections(connections.as_bytes())?;
    Some(DaemonCommand::Serve {
        dir: dir.as_str(),
        port,
        connections,
    })
}

// The command that `edit` and these words ask for.
fn read_edit(rest: &[String]) -> Option<DaemonCommand<'_>>
    ensures some { IfSome result (λ command. AskFor (codes "edit" ∷ map string_bytes rest.now) (seen_command command)) }
    ensures none { IfNone result ((asked : AskedOfDaemon) → AskFor (codes "edit" ∷ map string_bytes rest.now) asked → ⊥) }
{
    let [port] = rest else {
        return None;
    };
    let port = read_port(port.as_bytes())?;
    Some(DaemonCommand::Edit { port })
}

// The command that `show` and these words ask for.
fn read_show(rest: &[String]) -> Option<DaemonCommand<'_>>
    ensures some { IfSome result (λ command. AskFor (codes "show" ∷ map string_bytes rest.now) (seen_command command)) }
    ensures none { IfNone result ((asked : AskedOfDaemon) → AskFor (codes "show" ∷ map string_bytes rest.now) asked → ⊥) }
{
    let [dir] = rest else {
        return None;
    };
    Some(DaemonCommand::Show { dir: dir.as_str() })
}

// The command that `trial` and these words ask for.
fn read_trial(rest: &[String]) -> Option<DaemonCommand<'_>>
    ensures some { IfSome result (λ command. AskFor (codes "trial" ∷ map string_bytes rest.now) (seen_command command)) }
    ensures none { IfNone result ((asked : AskedOfDaemon) → AskFor (codes "trial" ∷ map string_bytes rest.now) asked → ⊥) }
{
    let [dir] = rest else {
        return None;
    };
    Some(DaemonCommand::Trial { dir: dir.as_str() })
}

// The port that is spelled so.
fn read_port(word: &[u8]) -> Option<u16>
    ensures some { IfSome result (SpellsPort word.now) }
    ensures none { IfNone result ((port : ℕ) → SpellsPort word.now port → ⊥) }
{
    let port = read_number(word)?;
    if port == 0 {
        return None;
    }
    match u16::try_from(port) {
        Ok(port) => Some(port),
        Err(_) => None,
    }
}

/// The number of connections that is spelled so, from 1 to 64, which is as many as a room has seats.
pub fn read_connections(word: &[u8]) -> Option<u32>
    ensures some { IfSome result (SpellsConnections word.now) }
    ensures none { IfNone result ((count : ℕ) → SpellsConnections word.now count → ⊥) }
{
    let count = read_number(word)?;
    if count == 0 {
        return None;
    }
    if count > MAX_CONNECTIONS {
        return None;
    }
    Some(count)
}
