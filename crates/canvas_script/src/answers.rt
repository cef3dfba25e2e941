// The lines that answer events.
ghost use Rattle.std.specs.Prelude.{◌≡◌, IfOk, string_bytes};
ghost use Rattle.canvas_client.specs.Seen.{seen_received};
ghost use Rattle.canvas_world.specs.Seen.{seen_answer};
ghost use Rattle.canvas_script.specs.Answers.{answer_line, received_line};

use canvas_client::Received;
use canvas_edit_lines::{edit_line, number_line, refused_line};
use canvas_world::Answer;
use std::alloc::{AllocError, Global};

/// The line that an event's answer is printed as, its line feed at the end; nothing for a new node.
/// Errors: out of memory.
pub fn answer_line(alloc: Global, answer: &Answer) -> Result<String, AllocError>
    ensures { IfOk result (λ line. string_bytes line ≡ answer_line (seen_answer answer.now)) }
{
    match answer {
        Answer::Nothing => String::from_str(alloc, "nothing\n"),
        Answer::NodeIs(_) => Ok(String::new(alloc)),
        Answer::MessageIs(number) => number_line(alloc, "message", *number),
        Answer::EditIs(number) => edit_line(alloc, *number),
        Answer::RefusedEdit(error) => refused_line(alloc, *error),
        Answer::Judged(version) => number_line(alloc, "judged", *version),
        Answer::Repeat => String::from_str(alloc, "repeat\n"),
        Answer::Gap => String::from_str(alloc, "gap\n"),
        Answer::Stranger => String::from_str(alloc, "stranger\n"),
        Answer::FullServer => String::from_str(alloc, "full\n"),
        Answer::SyncedIs(version) => number_line(alloc, "synced", *version),
        Answer::PublishedIs(version) => number_line(alloc, "published", *version),
        Answer::Delivered(received) => String::from_str(alloc, received_line(*received)),
        Answer::FloorIs(version) => number_line(alloc, "floor", *version),
        Answer::VersionIs(version) => number_line(alloc, "version", *version),
    }
}

// What a node did with a message.
fn received_line(received: Received) -> &'static str
    ensures { result.now ≡ received_line (seen_received received) }
{
    match received {
        Received::Took => "took\n",
        Received::Old => "old\n",
        Received::Ahead => "ahead\n",
        Received::NotForMe => "not for me\n",
    }
}
