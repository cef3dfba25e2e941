// What a client that asks is told.
use canvas_forms::SharedEntry;
use canvas_judge::DocCopy;

/// What a board has for a client that has some version.
#[derive(Drop)]
pub enum News {
    /// The client hasn't joined.
    Stranger,
    /// The entries after its version, in their order.
    Entries(Vec<SharedEntry>),
    /// A copy of the document, since a checkpoint has passed some entry after its version.
    Copy(DocCopy),
}
