//! The rounds of an exchange: what is asked, and what the client has then received.
use crate::links::{Listed, messages};
use canvas_client::Client;
use canvas_doc::{Kind, ObjId};
use canvas_nodes::{LinkError, exchange, join};
use std::alloc::Global;
use std::test::Fail;

// The answers to two edits and three Asks: entries with an Idle, and at last an Idle alone.
const ANSWERS: &[&str] = &[
    "[\"idle\"]",
    "[\"idle\"]",
    "[\"entry\",1,[0,0,\"join\",[\"joined\",1]]]\n[\"entry\",2,[1,1,[\"create\",[1,1],\"page\",[[0,0],\"O\"]],[\"created\",[[0,0],\"O\"]]]]\n[\"idle\"]",
    "[\"entry\",3,[1,2,[\"delete\",[1,1]],[\"removed\",[[1,1]]]]]\n[\"idle\"]",
    "[\"idle\"]",
];

// What is asked in these rounds.
const ASKED: &[&str] = &[
    "[\"edit\",1,1,[\"create\",[1,1],\"page\",[[0,0],\"O\"]]]\n",
    "[\"edit\",1,2,[\"delete\",[1,1]]]\n",
    "[\"ask\",1,0]\n",
    "[\"ask\",1,2]\n",
    "[\"ask\",1,3]\n",
];

// A client that has joined by these answers.
fn joined_by(alloc: Global, answers: &[&'static str]) -> Result<Client, LinkError> {
    let mut client = Client::new(alloc)?;
    let mut link = Listed::new(alloc, answers);
    join(&mut client, &mut link)?;
    Ok(client)
}

// Makes two edits.
fn edit(client: &mut Client) -> Result<(), Fail> {
    client.create(Kind::Page, ObjId::ROOT, None)?;
    client.delete(ObjId {
        client: 1,
        counter: 1,
    })?;
    Ok(())
}

// A client that has joined, with two edits that wait.
fn client(alloc: Global) -> Result<Client, Fail> {
    let mut client = joined_by(alloc, &["[\"welcome\",1]"])?;
    edit(&mut client)?;
    Ok(client)
}

// A link that ends after so many answers.
fn link(alloc: Global, count: usize) -> Listed<'static> {
    Listed::new(alloc, ANSWERS.get(..count).unwrap_or(ANSWERS))
}

// How an exchange ends, for a client that has an id.
fn exchanged(
    alloc: Global,
    client: &mut Client,
    link: &mut Listed<'_>,
) -> Option<Result<(), LinkError>> {
    match client.id() {
        Some(_) => Some(exchange(alloc, client, link)),
        None => None,
    }
}

// The first so many texts, one behind the other.
fn first_texts(alloc: Global, texts: &[&'static str], count: usize) -> Result<Vec<u8>, Fail> {
    let mut all = Vec::new(alloc);
    for text in texts.iter().take(count) {
        all.extend_from_slice(text.as_bytes())?;
    }
    Ok(all)
}

// Checks whether this is what is asked in the first so many rounds.
fn are_asked(alloc: Global, asked: &[u8], count: usize) -> Result<bool, Fail> {
    let wanted = first_texts(alloc, ASKED, count)?;
    Ok(asked == wanted.as_slice())
}

// Checks whether a client's exchange over a link that ends after so many answers asks what it has to, and ends so.
fn asks_over(alloc: Global, client: &mut Client, count: usize) -> Result<bool, Fail> {
    let mut link = link(alloc, count);
    let wanted = if count < ANSWERS.len() {
        Err(LinkError::Ended)
    } else {
        Ok(())
    };
    let is_end = exchanged(alloc, client, &mut link) == Some(wanted);
    Ok(is_end && are_asked(alloc, &link.asked, count.saturating_add(1))?)
}

// The same for a client with two edits that wait.
fn asks(alloc: Global, count: usize) -> Result<bool, Fail> {
    let mut client = client(alloc)?;
    asks_over(alloc, &mut client, count)
}

// Exchanges over a link that ends after so many answers.
fn exchange_over(alloc: Global, client: &mut Client, count: usize) {
    let mut link = link(alloc, count);
    let _ = exchanged(alloc, client, &mut link);
}

// Gives the client the messages of an answer.
fn hear(alloc: Global, client: &mut Client, answer: &str) -> Result<(), Fail> {
    for message in &messages(alloc, answer)? {
        client.receive(message)?;
    }
    Ok(())
}

// Gives the client the first so many answers.
fn hear_all(alloc: Global, client: &mut Client, count: usize) -> Result<(), Fail> {
    for answer in ANSWERS.iter().take(count) {
        hear(alloc, client, *answer)?;
    }
    Ok(())
}

fn same(a: &Client, b: &Client) -> bool {
    a.id() == b.id()
        && a.version() == b.version()
        && a.acknowledged() == b.acknowledged()
        && a.unacknowledged() == b.unacknowledged()
        && a.view().same(b.view())
}

// Checks whether this client is one that has received so many answers.
fn has_heard(alloc: Global, client: &Client, count: usize) -> Result<bool, Fail> {
    let mut other = self::client(alloc)?;
    hear_all(alloc, &mut other, count)?;
    Ok(same(client, &other))
}

// Checks whether a client is that after an exchange over a link that ends after so many answers.
fn receives(alloc: Global, count: usize) -> Result<bool, Fail> {
    let mut client = client(alloc)?;
    exchange_over(alloc, &mut client, count);
    has_heard(alloc, &client, count)
}

#[test]
fn exchange_rounds(rt: HostRuntime) -> Result<(), Fail> {
    for count in 0..6usize {
        assert!(rt; asks(rt.alloc(), count)?, "after {count} answers");
        assert!(rt; receives(rt.alloc(), count)?, "after {count} answers");
    }
    Ok(())
}

// How a join ends that is answered so.
fn joins(alloc: Global, answers: &[&'static str]) -> Result<(), LinkError> {
    joined_by(alloc, answers)?;
    Ok(())
}

// Answers, and how a join ends that is answered so.
const JOINS: [(&[&str], Result<(), LinkError>); 3] = [
    (&["[\"welcome\",1]"], Ok(())),
    (&["[\"idle\"]"], Err(LinkError::NotRead)),
    (&[], Err(LinkError::Ended)),
];

#[test]
fn join_answers(rt: HostRuntime) -> Result<(), Fail> {
    for (answers, wanted) in JOINS {
        assert_eq!(rt; joins(rt.alloc(), answers), wanted);
    }
    Ok(())
}
