// The words that the program is called with.
ghost use Rattle.std.specs.Prelude.{ℕ, List, IfNone, IfSome, map, string_bytes};
ghost use Rattle.rally.specs.Words.{AskForRally};

use canvas_daemon::read_connections;
use canvas_model::words::read_number;

/// What the program is asked to do.
#[derive(Clone, Copy, Debug, PartialEq, Eq)]
pub struct Rally<'a> {
    /// The folder of the journal.
    pub dir: &'a str,
    /// How many clients there are, from 1 to 64.
    pub clients: u32,
    /// How often each of them sets the property of its page.
    pub edits: u32,
}

/// What the words after the program's name ask for: `DIR CLIENTS EDITS`, where CLIENTS is 1 to 64 and EDITS 0 to 4294967295, in decimal
/// digits without leading zeros. `None` where they ask for nothing.
pub fn read_words(words: &[String]) -> Option<Rally<'_>>
    ensures some { IfSome result (λ rally. AskForRally (map string_bytes words.now) rally.dir.now rally.clients rally.edits) }
    ensures none { IfNone result ((dir : List ℕ) (clients edits : ℕ) → AskForRally (map string_bytes words.now) dir clients edits → ⊥) }
{
    let [dir, clients, edits] = words else {
        return None;
    };
    let clients = read_connections(clients.as_bytes())?;
    let edits = read_number(edits.as_bytes())?;
    Some(Rally {
        dir: dir.as_str(),
        clients,
        edits,
    })
}
