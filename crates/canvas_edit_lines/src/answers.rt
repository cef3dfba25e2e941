// The lines that answer edits.
ghost use Rattle.std.specs.Prelude.{◌≡◌, IfOk, string_bytes};
ghost use Rattle.std.specs.Option.{option_copied, option_map};
ghost use Rattle.canvas_client.specs.Asked.{refusal};
ghost use Rattle.canvas_edit_lines.specs.Answers.{edit_line, error_word, number_line, refusal_line};

use canvas_client::EditError;
use std::alloc::{AllocError, Global};

/// The line of an edit that was made, by its number. Errors: out of memory.
pub fn edit_line(alloc: Global, number: u64) -> Result<String, AllocError>
    ensures { IfOk result (λ line. string_bytes line ≡ edit_line number) }
{
    number_line(alloc, "edit", number)
}

/// A line of a word, a blank and a number, its line feed at the end. Errors: out of memory.
pub fn number_line(alloc: Global, word: &str, number: u64) -> Result<String, AllocError>
    ensures { IfOk result (λ line. string_bytes line ≡ number_line word.now number) }
{
    format!(in alloc; "{word} {number}\n")
}

/// The line of an edit that was refused. If it was for out of memory, nothing has happened. Errors: out of memory.
pub fn refused_line(alloc: Global, error: EditError) -> Result<String, AllocError>
    ensures { IfOk result (λ line. string_bytes line ≡ refusal_line (refusal error)) }
{
    match error_word(error) {
        Some(word) => format!(in alloc; "refused {word}\n"),
        None => String::from_str(alloc, "nothing\n"),
    }
}

// The name of a refusal. Out of memory has none.
fn error_word(error: EditError) -> Option<&'static str>
    ensures { option_copied result ≡ option_map error_word (refusal error) }
{
    match error {
        EditError::NotOpen => Some("NotOpen"),
        EditError::IsRoot => Some("IsRoot"),
        EditError::NotShown => Some("NotShown"),
        EditError::ParentNotShown => Some("ParentNotShown"),
        EditError::BadParent => Some("BadParent"),
        EditError::OwnDescendant => Some("OwnDescendant"),
        EditError::TooDeep => Some("TooDeep"),
        EditError::Crowded => Some("Crowded"),
        EditError::IdsSpent => Some("IdsSpent"),
        EditError::Full => Some("Full"),
        EditError::Memory => None,
    }
}
