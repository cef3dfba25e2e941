// Kinds of objects.
ghost use Rattle.std.specs.Prelude.{◌≡◌};
ghost use Rattle.serde_json.specs.View.{view};
ghost use Rattle.canvas_model.specs.Text.{kind_word};
ghost use Rattle.canvas_forms.specs.Kinds.{kind_form};

use canvas_model::Kind;
use serde_json::Value as Json;

// The word of a kind.
pub(crate) fn kind_word(kind: Kind) -> &'static str
    ensures { result.now ≡ kind_word kind }
{
    match kind {
        Kind::Document => "document",
        Kind::Page => "page",
        Kind::Frame => "frame",
        Kind::Shape => "shape",
        Kind::Text => "text",
    }
}

// The kind of which a JSON tree is the word.
pub(crate) fn read_kind(json: &Json) -> Option<(Kind, bool)>
    ensures { result ≡ kind_form.read (view json.now) }
{
    let kind = match json.as_str()? {
        "document" => Kind::Document,
        "page" => Kind::Page,
        "frame" => Kind::Frame,
        "shape" => Kind::Shape,
        "text" => Kind::Text,
        _ => return None,
    };
    Some((kind, true))
}
