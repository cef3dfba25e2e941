// The heads of answers.
ghost use Rattle.std.specs.Prelude.{◌≡◌, All, IfNone, IfOk, IfSome, length};
ghost use Rattle.httparse.specs.Grammar.{HasNoResponse, ResponseHead};
ghost use Rattle.httparse.specs.Spans.{IsHeaderWithin};
ghost use Rattle.net_heads.specs.Fields.{seen_fields};
ghost use Rattle.etcd_gateway.specs.Heads.{BeginsWithResponse, framing_of, answer_head_of};

use crate::error::GatewayError;
use canvas_decimals::whole_of;
use httparse::Status as Parsed;
use httparse::spans::{EMPTY_HEADER_SPAN, parse_response};
use net_heads::{Fields, Values, is_same_word};

/// The most bytes of an answer's head, and of the fields behind its body.
pub const MAX_HEAD: usize = 16384;

// How long a body is.
#[derive(Clone, Copy, Debug, PartialEq, Eq)]
pub(crate) enum Framing {
    // So many bytes.
    Sized(u64),
    // It stands in chunks, the last of which is empty.
    Chunked,
}

// What the head of an answer says.
#[derive(Clone, Copy, Debug, PartialEq, Eq)]
pub(crate) struct AnswerHead {
    // The status.
    pub status: u16,
    // How long the body is.
    pub framing: Framing,
    // The head's length in bytes.
    pub length: usize,
}

// What the head says with which these bytes begin. `None` where it isn't whole yet, `TooLarge` where
// it isn't after 16384 bytes.
pub(crate) fn read_head(bytes: &[u8]) -> Result<Option<AnswerHead>, GatewayError>
    // A head is found exactly if the bytes begin with one of at most 64 fields that says how long the body is.
    ensures found { (head : ResponseHead) (said : AnswerHead) → BeginsWithResponse bytes.now head → answer_head_of head ≡ Some said → result ≡ Ok (Some said) }
    ensures some { IfOk result (λ found. IfSome found (λ said. (head : ResponseHead) × BeginsWithResponse bytes.now head × (answer_head_of head ≡ Some said))) }
    ensures none { IfOk result (λ found. IfNone found (HasNoResponse bytes.now)) }
{
    let mut spans = [EMPTY_HEADER_SPAN; 64];
    match parse_response(bytes, &mut spans) {
        Ok(Parsed::Complete(head)) => {
            let fields = Fields {
                bytes,
                spans: &spans[..head.headers],
            };
            match framing_of(&fields) {
                Some(framing) => Ok(Some(AnswerHead {
                    status: head.code,
                    framing,
                    length: head.len,
                })),
                None => Err(GatewayError::NotHttp),
            }
        }
        Ok(Parsed::Partial) if bytes.len() > MAX_HEAD => Err(GatewayError::TooLarge),
        Ok(Parsed::Partial) => Ok(None),
        Err(_) => Err(GatewayError::NotHttp),
    }
}

// How these fields say how long the body is.
fn framing_of(fields: &Fields<'_>) -> Option<Framing>
    requires { All (IsHeaderWithin (length fields.now.bytes.now)) fields.now.spans.now }
    ensures { result ≡ framing_of (seen_fields fields.now) }
{
    let coding = fields.find(b"transfer-encoding");
    let size = fields.find(b"content-length");
    match (coding, size) {
        (Values::Nothing, Values::One(size)) => Some(Framing::Sized(whole_of(size)?)),
        (Values::One(coding), Values::Nothing) if is_same_word(coding, b"chunked") => {
            Some(Framing::Chunked)
        }
        _ => None,
    }
}
