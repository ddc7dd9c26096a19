// The forms of a sheet in one table, and the key of each list's count.
ghost use Rattle.std.specs.Prelude.{◌≡◌};
ghost use Rattle.forms.specs.Tables.{form_of, count_key};
ghost use Rattle.forms.specs.Places.{fields_of};

use super::{Field, Form, Style};
use lists::{COMPONENT, CONNECTION, FRONTIER, Section};

// ---- a line to a field

const OLD_COMPONENTS: [Field; COMPONENT] = [
    Field(b"id=", b'\n'),
    Field(b"x=", b'\n'),
    Field(b"y=", b'\n'),
    Field(b"z=", b'\n'),
    Field(b"kind=", b'\n'),
    Field(b"facing=", b'\n'),
    Field(b"support=", b'\n'),
    Field(b"conducts=", b'\n'),
];

const OLD_CONNECTIONS: [Field; CONNECTION] = [
    Field(b"source=", b'\n'),
    Field(b"sink=", b'\n'),
    Field(b"kind=", b'\n'),
];

const OLD_FRONTIERS: [Field; FRONTIER] = [
    Field(b"x=", b'\n'),
    Field(b"y=", b'\n'),
    Field(b"z=", b'\n'),
];

// ---- a line to a record

const SHORT_COMPONENTS: [Field; COMPONENT] = [
    Field(b"c=", b','),
    Field(b"", b','),
    Field(b"", b','),
    Field(b"", b','),
    Field(b"", b','),
    Field(b"", b','),
    Field(b"", b','),
    Field(b"", b'\n'),
];

const SHORT_CONNECTIONS: [Field; CONNECTION] = [
    Field(b"n=", b','),
    Field(b"", b','),
    Field(b"", b'\n'),
];

const SHORT_FRONTIERS: [Field; FRONTIER] = [
    Field(b"f=", b','),
    Field(b"", b','),
    Field(b"", b'\n'),
];

// ---- by the list

// The fields of a list's records.
fn fields_of(style: Style, section: Section) -> &'static [Field]
    ensures { fields_of result.now ≡ form_of style section }
{
    match style {
        Style::Old => match section {
            Section::Components => &OLD_COMPONENTS,
            Section::Connections => &OLD_CONNECTIONS,
            Section::Frontiers => &OLD_FRONTIERS,
        },
        Style::Short => match section {
            Section::Components => &SHORT_COMPONENTS,
            Section::Connections => &SHORT_CONNECTIONS,
            Section::Frontiers => &SHORT_FRONTIERS,
        },
    }
}

// The form of a list's records.
#[tactic(auto, using(crate::proofs::Tables::passes))]
pub fn form_of(style: Style, section: Section) -> Form
    ensures { fields_of result.fields.now ≡ form_of style section }
{
    Form {
        fields: fields_of(style, section),
    }
}

// The key of a list's count.
pub fn count_key(section: Section) -> &'static [u8]
    ensures { result.now ≡ count_key section }
{
    match section {
        Section::Components => b"components",
        Section::Connections => b"connections",
        Section::Frontiers => b"frontiers",
    }
}
