//! JSON texts, part by part.
ghost use Rattle.std.specs.Prelude.{◌≡◌, ◌∷◌, [], ◌++◌, map, IfOk, OnOk};
ghost use Rattle.json.specs.Print.{print};
ghost use Rattle.hx_etcd.specs.Parts.{Adds, token_of};

use hx_units::NoMemory;
use json::Writer;
use std::alloc::{AllocError, Global};

// A part of a JSON text. A key, and a text after it, is a member.
#[derive(Clone, Copy, Drop)]
pub(crate) enum Part<'a> {
    Object,
    EndObject,
    Array,
    EndArray,
    Key(&'a str),
    Text(&'a str),
}

// Writes a part.
fn write_part(writer: &mut Writer, part: &Part<'_>) -> Result<(), AllocError>
    ensures { Adds result writer.old writer.new (token_of part.now ∷ []) }
{
    match part {
        Part::Object => writer.begin_object(),
        Part::EndObject => writer.end_object(),
        Part::Array => writer.begin_array(),
        Part::EndArray => writer.end_array(),
        Part::Key(name) => writer.key(name),
        Part::Text(text) => writer.string(text),
    }
}

// The text of these parts.
pub(crate) fn text_of(alloc: Global, parts: &[Part<'_>]) -> Result<Vec<u8>, NoMemory>
    ensures { IfOk result (λ text. text.items ≡ print (map token_of parts.now)) }
{
    let mut writer = Writer::new(Vec::new(alloc));
    for part in parts {
        write_part(&mut writer, part)?;
    }
    Ok(writer.into_inner())
}
