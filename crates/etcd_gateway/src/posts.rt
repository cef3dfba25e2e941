// Requests of HTTP.
ghost use Rattle.std.specs.Prelude.{◌≡◌, ◌≤◌, IfOk, false, string_bytes};
ghost use Rattle.serde_json.specs.Data.{depth};
ghost use Rattle.serde_json.specs.Read.{max_depth};
ghost use Rattle.serde_json.specs.View.{view};
ghost use Rattle.serde_json.specs.Written.{has_float};
ghost use Rattle.etcd_gateway.specs.Posts.{SpellsPost, post_head_text, call_path};

use crate::host::Host;
use serde_json::Value as Json;
use std::alloc::{AllocError, Global};

/// What is asked.
#[derive(Clone, Copy, Debug, PartialEq, Eq)]
pub enum GatewayCall {
    /// Keys, and their values.
    Range,
    /// Changes that are made together, under a comparison.
    Commit,
    /// A new lease.
    Grant,
    /// That a lease goes on.
    KeepAlive,
    /// That a lease ends.
    Revoke,
}

impl GatewayCall {
    // Where it is asked.
    fn path(self) -> &'static str
        ensures { result.now ≡ call_path self }
    {
        match self {
            GatewayCall::Range => "/v3/kv/range",
            GatewayCall::Commit => "/v3/kv/txn",
            GatewayCall::Grant => "/v3/lease/grant",
            GatewayCall::KeepAlive => "/v3/lease/keepalive",
            GatewayCall::Revoke => "/v3/lease/revoke",
        }
    }
}

// A request: a head, and the tree's text. The tree goes.
pub(crate) fn post_tree(
    alloc: Global,
    host: &Host,
    asked: GatewayCall,
    tree: Json,
) -> Result<Vec<u8>, AllocError>
    requires whole { has_float (view tree) ≡ false }
    requires shallow { depth (view tree) ≤ max_depth }
    ensures { IfOk result (λ bytes. SpellsPost bytes.items (string_bytes host.now.text) asked (view tree)) }
{
    post(alloc, host, asked, &tree)
}

// The same, of a tree that stays.
fn post(alloc: Global, host: &Host, asked: GatewayCall, tree: &Json) -> Result<Vec<u8>, AllocError>
    requires whole { has_float (view tree.now) ≡ false }
    requires shallow { depth (view tree.now) ≤ max_depth }
    ensures { IfOk result (λ bytes. SpellsPost bytes.items (string_bytes host.now.text) asked (view tree.now)) }
{
    let body = tree.to_vec(alloc)?;
    let head = head_text(alloc, host, asked, body.len())?;
    let mut bytes = head.into_bytes();
    bytes.extend_from_slice(&body)?;
    Ok(bytes)
}

// The head of a request, as text.
fn head_text(
    alloc: Global,
    host: &Host,
    asked: GatewayCall,
    length: usize,
) -> Result<String, AllocError>
    ensures { IfOk result (λ head. string_bytes head ≡ post_head_text (string_bytes host.now.text) asked length) }
{
    let path = asked.path();
    let host = host.text.as_str();
    format!(in alloc;
        "POST {path} HTTP/1.1\r\n\
        Host: {host}\r\n\
        Content-Type: application/json\r\n\
        Content-Length: {length}\r\n\
        \r\n"
    )
}
