//! Links over sockets: what is sent, and how each answer is told.
use canvas_judge::{Message, NoReason};
use canvas_nodes::{Link, LinkError};
use canvas_sockets::SocketLink;
use memory_sockets::{sent, socket};
use std::alloc::{AllocError, Global};
use std::test::Fail;
use tungstenite::Role;

const ENTRY: &str = "[\"entry\",1,[0,0,\"join\",[\"joined\",1]]]\n";

// How many messages are the answer of a round, where a server sends these bytes, and so many rounds come before.
fn count_over(alloc: Global, bytes: &[u8], before: u32) -> Result<usize, LinkError> {
    let mut link = SocketLink::new(alloc, socket(alloc, bytes, Role::Client));
    for _ in 0..before {
        let _ = link.round(Message::Join);
    }
    link.round(Message::Join).map(|messages| messages.len())
}

// The same, where it sends these lines.
fn count(alloc: Global, lines: &str, before: u32) -> Result<Result<usize, LinkError>, Fail> {
    let bytes = sent(alloc, lines, Role::Server)?;
    Ok(count_over(alloc, &bytes, before))
}

// The lines of so many entries and an Idle.
fn lines_of(alloc: Global, entries: usize) -> Result<String, AllocError> {
    let mut lines = String::new(alloc);
    for _ in 0..entries {
        lines.push_str(ENTRY)?;
    }
    lines.push_str("[\"idle\"]")?;
    Ok(lines)
}

// How many messages are the answer of a round, where a server sends so many entries and then an Idle.
fn count_after(alloc: Global, entries: usize) -> Result<Result<usize, LinkError>, Fail> {
    let lines = lines_of(alloc, entries)?;
    count(alloc, lines.as_str(), 0)
}

#[test]
fn answers(rt: HostRuntime) -> Result<(), Fail> {
    let rows = [
        ("[\"welcome\",1]", Ok(1)),
        ("[\"welcome\",1]\n[\"idle\"]", Ok(1)),
        ("[\"idle\"]", Ok(1)),
        ("[\"no\",3]", Err(LinkError::Refused(NoReason::Gap))),
        ("[\"no\",7]", Err(LinkError::Refused(NoReason::Memory))),
        ("[\"no\",10]", Err(LinkError::NotRead)),
        ("[", Err(LinkError::NotRead)),
        (ENTRY, Err(LinkError::Ended)),
        ("", Err(LinkError::Ended)),
    ];
    for (lines, wanted) in rows {
        assert_eq!(rt; count(rt.alloc(), lines, 0)?, wanted, "at {lines}");
    }
    for (entries, wanted) in [(64, Ok(65)), (65, Err(LinkError::NotRead))] {
        assert_eq!(rt; count_after(rt.alloc(), entries)?, wanted, "at {entries}");
    }
    Ok(())
}

#[test]
fn goes_on_after_no_alone(rt: HostRuntime) -> Result<(), Fail> {
    let rows = [
        ("[\"no\",4]\n[\"welcome\",1]", Ok(1)),
        ("[\"no\",0]\n[\"welcome\",1]", Err(LinkError::Ended)),
    ];
    for (lines, wanted) in rows {
        assert_eq!(rt; count(rt.alloc(), lines, 1)?, wanted, "at {lines}");
    }
    Ok(())
}

// What a round sends, where a server sends these bytes.
fn told_over(alloc: Global, bytes: &[u8]) -> Result<Vec<u8>, LinkError> {
    let mut link = SocketLink::new(alloc, socket(alloc, bytes, Role::Client));
    link.round(Message::Join)?;
    Ok(link.into_socket().into_inner().writer)
}

// The same, where it sends an Idle.
fn told(alloc: Global) -> Result<Vec<u8>, Fail> {
    let bytes = sent(alloc, "[\"idle\"]", Role::Server)?;
    Ok(told_over(alloc, &bytes)?)
}

// Checks whether a round sends its message as one binary message.
fn sends(alloc: Global) -> Result<bool, Fail> {
    let told = told(alloc)?;
    Ok(told == sent(alloc, "[\"join\",2]", Role::Client)?)
}

#[test]
fn one_frame_a_message(rt: HostRuntime) -> Result<(), Fail> {
    assert!(rt; sends(rt.alloc())?);
    Ok(())
}
