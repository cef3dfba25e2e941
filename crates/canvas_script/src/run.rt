// A script that is read, played and reported.
ghost use Rattle.std.specs.Prelude.{ℕ, IfErr, IfOk};
ghost use Rattle.canvas_model.specs.Good.{HasClaims, IsGood, ShowsOverlays};
ghost use Rattle.canvas_model.specs.Laws.{HasNoCycle, KeepsAcknowledged, NodesAgree};
ghost use Rattle.canvas_script.specs.Reading.{IsBadScriptLine};
ghost use Rattle.canvas_script.specs.Results.{IsErrorOf, LeavesPrinted, IsWorldOf, IsWorldReport};
ghost use Rattle.canvas_world.specs.Synced.{KeepsAllSynced};
ghost use Rattle.canvas_world.specs.Trees.{NodesShowOneTree};

use crate::play::play_items;
use crate::report::write_report;
use crate::script::{Script, one_bad_script_line, read_script};
use canvas_lines::Fault;
use canvas_model::{every_run, every_step};
use canvas_tree::one_tree;
use canvas_world::World;
use std::alloc::{AllocError, Global};
use thiserror::Error;

/// Why a script wasn't played to its end.
#[derive(Clone, Copy, Debug, PartialEq, Eq, Error)]
pub enum ScriptError {
    /// The first line that can't be read, counted from 1.
    #[error("line {0}: cannot read")]
    BadLine(u64),
    /// An allocation was refused.
    #[error("out of memory")]
    Memory,
}

impl From<AllocError> for ScriptError {
    ghost use Rattle.canvas_script.specs.Results.{IsNoMemory};

    ghost from_gives = { λ _ e. IsNoMemory e };

    fn from(_: AllocError) -> ScriptError {
        ScriptError::Memory
    }
}

impl From<ScriptError> for Fault {
    ghost use Rattle.std.specs.Prelude.{◌≡◌};
    ghost use Rattle.canvas_script.specs.Results.{fault_of};

    ghost from_gives = { λ error fault. fault ≡ fault_of error };

    fn from(error: ScriptError) -> Fault {
        match error {
            ScriptError::BadLine(line) => Fault::BadLine(line),
            ScriptError::Memory => Fault::Memory,
        }
    }
}

/// Plays the events of a script in the empty world, and answers the world as it is then. To `out` it
/// adds a line that answers each event, and each block that is shown; then the report: the server's
/// block, and one for each node.
///
/// The lines end with a line feed, which the last may lack. Empty lines and lines that begin with `#`
/// are passed over. The first other line is `world`, and each later one an event or a block to show.
///
/// The errors: `BadLine`, where a line can't be read, and then what the lines before it print was
/// added to `out`; `Memory`, only if memory runs out, and then `out` is as it was.
pub fn world_run(alloc: Global, input: &[u8], out: &mut Vec<u8>) -> Result<World, ScriptError>
    ensures world { IfOk result (IsWorldOf input.now) }
    ensures report { IfOk result
        (λ world. IsWorldReport input.now world out.old.items out.new.items) }
    ensures good { IfOk result IsGood }
    ensures claims { IfOk result HasClaims }
    ensures shows { IfOk result ShowsOverlays }
    ensures agree { IfOk result NodesAgree }
    ensures trees { IfOk result NodesShowOneTree }
    ensures no_cycle { IfOk result HasNoCycle }
    ensures kept { IfOk result KeepsAcknowledged }
    ensures synced { IfOk result KeepsAllSynced }
    ensures error { IfErr result (IsErrorOf input.now) }
    ensures left { IfErr result (LeavesPrinted input.now out.old.items out.new.items) }
    ensures readable { IfOk result (λ _. (n : ℕ) → IsBadScriptLine input.now n → ⊥) }
{
    every_run();
    every_step();
    one_tree();
    // An input that says something has no bad line.
    one_bad_script_line();
    let Script {
        items,
        names,
        bad_line,
    } = read_script(alloc, input)?;
    let mut text = Vec::new(alloc);
    let world = play_items(alloc, &names, &items, &mut text)?;
    if let Some(line) = bad_line {
        out.extend_from_slice(&text)?;
        return Err(ScriptError::BadLine(line));
    }
    write_report(alloc, &names, &world, &mut text)?;
    out.extend_from_slice(&text)?;
    Ok(world)
}
