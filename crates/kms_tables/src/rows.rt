//! Rows of the tables, as Markdown.
ghost use Rattle.std.specs.Prelude.{Some};
ghost use Rattle.kms_tables.specs.Rows.{object_row, property_row, refusal_row, start_text, values_text};

use kms_model::{Kind, Range, Rule};
use std::fmt;

/// The row of the objects of a kind.
#[derive(Clone, Copy)]
pub struct ObjectRow {
    /// The kind.
    pub kind: Kind,
    /// How many a device has at most.
    pub most: u32,
}

/// The kind, its first id and the most objects.
impl fmt::Display for ObjectRow {
    ghost output = { λ row. Some (object_row row) };

    fn fmt<W: fmt::Write>(&self, f: &mut fmt::Formatter<W>) -> fmt::Result {
        let kind = self.kind;
        let first = kind.first_id();
        let most = self.most;
        write!(f, "| {kind} | from {first} | {most} |")
    }
}

/// The row of a rule.
#[derive(Clone, Copy)]
pub struct RefusalRow(pub Rule);

/// The number, the error number, the name, when it refuses and the kernel's function.
impl fmt::Display for RefusalRow {
    ghost output = { λ row. Some (refusal_row row.0) };

    fn fmt<W: fmt::Write>(&self, f: &mut fmt::Formatter<W>) -> fmt::Result {
        let number = self.0.number;
        let errno = self.0.errno;
        let name = self.0.name;
        let rule = self.0.rule;
        let source = self.0.source;
        write!(f, "| {number} | {errno} | {name} | {rule} | {source} |")
    }
}

/// What a property may be set to.
#[derive(Clone, Copy)]
pub struct SettableValues {
    /// Which things it takes, where it takes things.
    pub things: &'static str,
    /// Its range.
    pub range: Range,
}

/// The bounds, or the number for "none" and the things.
impl fmt::Display for SettableValues {
    ghost output = { λ values. Some (values_text values) };

    fn fmt<W: fmt::Write>(&self, f: &mut fmt::Formatter<W>) -> fmt::Result {
        let things = self.things;
        match self.range {
            Range::Numbers { low, high } => write!(f, "{low} to {high}"),
            Range::Thing { none } => write!(f, "{none}, or {things}"),
            Range::CrtcName => f.write_str("0, or `crtcN` of a CRTC of the device"),
        }
    }
}

/// What the value of a property is before the first command.
#[derive(Clone, Copy, PartialEq, Eq)]
pub enum AtStart {
    /// A number.
    Number(i128),
    /// The index of the object among those of its kind.
    Index,
    /// What the script's line of the object says.
    Script,
}

/// The number, or where it comes from.
impl fmt::Display for AtStart {
    ghost output = { λ start. Some (start_text start) };

    fn fmt<W: fmt::Write>(&self, f: &mut fmt::Formatter<W>) -> fmt::Result {
        match self {
            AtStart::Number(number) => write!(f, "{number}"),
            AtStart::Index => f.write_str("its index"),
            AtStart::Script => f.write_str("by the script"),
        }
    }
}

/// The row of a property of a kind of object.
#[derive(Clone, Copy)]
pub struct PropertyRow {
    /// The kind.
    pub kind: Kind,
    /// The property's name.
    pub name: &'static str,
    /// What it may be set to.
    pub values: SettableValues,
    /// In what it is counted, or what its numbers stand for.
    pub unit: &'static str,
    /// Its value before the first command.
    pub start: AtStart,
}

/// The kind, the name, the values, the unit and the value at the start.
impl fmt::Display for PropertyRow {
    ghost output = { λ row. Some (property_row row) };

    fn fmt<W: fmt::Write>(&self, f: &mut fmt::Formatter<W>) -> fmt::Result {
        let kind = self.kind;
        let name = self.name;
        let values = self.values;
        let unit = self.unit;
        let start = self.start;
        write!(f, "| {kind} | {name} | {values} | {unit} | {start} |")
    }
}
