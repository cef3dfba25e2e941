// What a script asks for, and how it is read.
ghost use Rattle.std.specs.Prelude.{◌≡◌, ◌-◌, ◌∷◌, ◌++◌, ◌↔◌, [], map, take, IfErr, IfNone, IfOk, IfSome, IsTrue, OnOk};
ghost use Rattle.canvas_world.specs.Seen.{seen_event};
ghost use Rattle.canvas_lines.specs.Lines.{lines_of};
ghost use Rattle.canvas_script.specs.Asked.{AddsAsked, NamesNode, entering};
ghost use Rattle.canvas_script.specs.Asked as asked;
ghost use Rattle.canvas_script.specs.Lines.{seen_said};
ghost use Rattle.canvas_script.specs.Names.{IsNodeName, IsNumber, names_after_use};
ghost use Rattle.canvas_script.specs.Reading.{InputSays, IsBadScriptLine, IsScriptLineRead, IsScriptLineUnread, IsWorld, LinesSay, NoScriptLineIsBad, OneScriptLineIsBad};
ghost use Rattle.canvas_script.specs.Script.{Happens, seen_item};

use crate::names::Names;
use crate::said::{Counted, Named, Said, Whole, read_said};
use canvas_lines::LineError;
use canvas_lines::lines::{is_passed, split_line};
use canvas_world::{Event, EventVariant};
use std::alloc::{AllocError, Global};

/// What a script asks for.
#[derive(Drop)]
pub enum Item {
    /// A name is used for the first time: a node of that name is added.
    Enters,
    /// An event happens.
    Happens(Event),
    /// The server's block is shown.
    ShowsServer,
    /// The block of node `k` is shown, counted from 1.
    ShowsNode(u64),
}

/// What a script asks for, in order.
#[derive(Drop)]
pub struct Script {
    /// What is asked for, up to the bad line if there is one.
    pub items: Vec<Item>,
    /// The names of the nodes that these lines use.
    pub names: Names,
    /// The first line that can't be read, counted from 1.
    pub bad_line: Option<u64>,
}

/// Checks whether the input is a script of a world: the first line that isn't passed over is `world`.
pub fn is_world(input: &[u8]) -> bool
    ensures { IsTrue result ↔ IsWorld input.now }
{
    let mut rest = input;
    while let Some((line, more)) = split_line(rest) {
        if !is_passed(line) {
            return line == b"world".as_slice();
        }
        rest = more;
    }
    false
}

/// Reads a script: what it asks for, or what the lines before the first that can't be read ask for.
/// Errors: out of memory.
pub fn read_script(alloc: Global, input: &[u8]) -> Result<Script, AllocError>
    ensures whole { IfOk result (λ r. IfNone r.bad_line
        (InputSays input.now r.names (map seen_item r.items.items))) }
    ensures bad { IfOk result (λ r. IfSome r.bad_line (IsBadScriptLine input.now)) }
    ensures before { IfOk result (λ r. IfSome r.bad_line
        (λ n. LinesSay (take (n - 1) (lines_of input.now)) r.names (map seen_item r.items.items))) }
{
    let mut items = Vec::new(alloc);
    let mut names = Names::new(alloc);
    let mut started = false;
    let mut line_number = 0u64;
    let mut rest = input;
    while let Some((line, more)) = split_line(rest) {
        line_number += 1;
        rest = more;
        if is_passed(line) {
            continue;
        }
        match read_line(alloc, line, started, &mut names, &mut items) {
            Ok(()) => started = true,
            Err(LineError::Unreadable) => {
                return Ok(Script {
                    items,
                    names,
                    bad_line: Some(line_number),
                });
            }
            Err(LineError::Memory) => return Err(AllocError),
        }
    }
    Ok(Script {
        items,
        names,
        bad_line: None,
    })
}

// Reads a line that isn't passed over: the first is the word `world`, and each later one asks for
// items and may use a name.
fn read_line(
    alloc: Global,
    line: &[u8],
    started: bool,
    names: &mut Names,
    items: &mut Vec<Item>,
) -> Result<(), LineError>
    ensures ok { OnOk result
        (IsScriptLineRead started line.now names.old (map seen_item items.old.items) names.new (map seen_item items.new.items)) }
    ensures err { IfErr result (λ e. e ≡ LineError.Unreadable
        → IsScriptLineUnread started line.now × (names.new ≡ names.old) × (items.new.items ≡ items.old.items)) }
{
    if started {
        let said = read_said(alloc, line)?;
        ask(said, names, items)?;
        return Ok(());
    }
    if line == b"world".as_slice() {
        Ok(())
    } else {
        Err(LineError::Unreadable)
    }
}

// Adds what is asked for, and the name that is used.
fn ask(said: Said<'_>, names: &mut Names, items: &mut Vec<Item>) -> Result<(), AllocError>
    requires { NamesNode (seen_said said) }
    ensures { OnOk result (AddsAsked names.old (seen_said said.entry) (map seen_item items.old.items) names.new (map seen_item items.new.items)) }
{
    match said {
        Said::Whole(whole) => add(asked_whole(whole), items)?,
        Said::Counted(word, n) => add(asked_counted(word, n), items)?,
        Said::Named(word, name) => {
            let k = enter(name, names, items)?;
            add(asked_named(word, k), items)?;
        }
        Said::Edit(name, request) => {
            let k = enter(name, names, items)?;
            add_event(EventVariant::Edit(k, request), items)?;
        }
        Said::Send(name, i) => {
            let k = enter(name, names, items)?;
            add_event(EventVariant::Send(k, i), items)?;
        }
        Said::Tell(v, name) => {
            let k = enter(name, names, items)?;
            add_event(EventVariant::Tell(v, k), items)?;
        }
    }
    Ok(())
}

// Adds an item.
fn add(item: Item, items: &mut Vec<Item>) -> Result<(), AllocError>
    ensures { OnOk result (map seen_item items.new.items
        ≡ map seen_item items.old.items ++ seen_item item ∷ []) }
{
    items.push(item)?;
    Ok(())
}

// Adds an event.
fn add_event(variant: EventVariant, items: &mut Vec<Item>) -> Result<(), AllocError>
    ensures { OnOk result (map seen_item items.new.items
        ≡ map seen_item items.old.items ++ Happens (seen_event variant) ∷ []) }
{
    add(Item::Happens(Event::new(variant)), items)
}

// The number of the name's node, which enters at its first use.
fn enter(name: &[u8], names: &mut Names, items: &mut Vec<Item>) -> Result<u64, AllocError>
    requires { IsNodeName name.now }
    ensures number { IfOk result (IsNumber names.new name.now) }
    ensures used { OnOk result (names.new ≡ names_after_use names.old name.now) }
    ensures items { OnOk result (map seen_item items.new.items
        ≡ map seen_item items.old.items ++ entering names.old name.now) }
{
    if !names.contains(name) {
        items.push(Item::Enters)?;
    }
    names.number(name)
}

// What a line asks for that names nothing.
fn asked_whole(whole: Whole) -> Item
    ensures { seen_item result ≡ asked.asked_whole whole }
{
    match whole {
        Whole::Sync => Item::Happens(Event::new(EventVariant::Sync)),
        Whole::Publish => Item::Happens(Event::new(EventVariant::Publish)),
        Whole::Checkpoint => Item::Happens(Event::new(EventVariant::Checkpoint)),
        Whole::ShowServer => Item::ShowsServer,
    }
}

// What is asked for with a number.
fn asked_counted(word: Counted, n: u64) -> Item
    ensures { seen_item result ≡ asked.asked_counted word n }
{
    let event = match word {
        Counted::Take => EventVariant::Take(n),
        Counted::Welcome => EventVariant::Welcome(n),
        Counted::Deliver => EventVariant::Deliver(n),
        Counted::Restart => EventVariant::Restart(n),
    };
    Item::Happens(Event::new(event))
}

// What is asked for of node k.
fn asked_named(word: Named, k: u64) -> Item
    ensures { seen_item result ≡ asked.asked_named word k }
{
    match word {
        Named::Join => Item::Happens(Event::new(EventVariant::AskJoin(k))),
        Named::Copy => Item::Happens(Event::new(EventVariant::Copy(k))),
        Named::Show => Item::ShowsNode(k),
    }
}

/// An input that says something has no bad line, and none has two. It does nothing when it runs:
/// call it where a proof needs the laws.
pub fn one_bad_script_line()
    ensures none { NoScriptLineIsBad }
    ensures one { OneScriptLineIsBad }
{}
