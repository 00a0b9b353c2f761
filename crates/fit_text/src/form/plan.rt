// How the messages of a definition are shown, settled once for all of them.

ghost use Rattle.std.specs.Prelude.{◌≡◌, ◌+◌, ◌≤◌, ◌++◌, List, Some, true, length, codes};
ghost use Rattle.fit_base.specs.Base.{base_type};
ghost use Rattle.fit_text.specs.declared.form.plan.Column.{Column as AnyColumn};
ghost use Rattle.fit_text.specs.declared.form.plan.TheConstants.{COLUMNS};
ghost use Rattle.fit_text.specs.Plan.{time_field_definition, IsKind, IsKindOf, IsColumn, AreColumns, IsPlanIn};
ghost use Rattle.fit_profile.specs.Known.{known_at};
ghost use Rattle.fit_text.specs.Text.{field_name, message_name};

use crate::value::date::dates_of;
use crate::writing::Label;
use arrayvec::ArrayVec;
use fit_base::{Arch, BaseType};
use fit_grammar::{Definition, DeveloperFieldDefinition, FieldDefinition};
use fit_profile::{known_name, known_row};

// The field that holds the time of a compressed timestamp.
const TIMESTAMP: u8 = 253;

/// How the value of a field is shown.
#[derive(Clone, Copy, Debug, Default)]
pub enum Kind {
    /// One whole number without a sign, with its invalid value.
    Unsigned(u64),
    /// The same with a sign. The invalid value is the greatest.
    Signed(u64),
    /// One time, as a date.
    Date,
    /// Any other field.
    #[default]
    Other,
}

/// How one field of a definition's messages is shown.
#[derive(Drop, Default)]
pub struct Column {
    /// A space, the name of the field and `=`.
    pub label: Label,
    pub number: u8,
    pub base: u8,
    pub size: u8,
    pub kind: Kind,
}

impl Column {
    /// The column of a field in messages with this global number.
    pub fn new(utc: bool, global: u16, field: &FieldDefinition) -> Self
        ensures { IsColumn utc global field.now result }
    {
        Column {
            label: field_label(global, field.number),
            number: field.number,
            base: field.base,
            size: field.size,
            kind: kind_of(dates_of(utc, global), field),
        }
    }
}

/// The capacity of the row that holds the columns of all plans, and of the row of their developer fields.
pub const COLUMNS: usize = 256;

/// How the messages of one definition are shown. Its columns are in a row that all plans share, and its developer fields in another.
#[derive(Drop)]
pub struct Plan {
    /// Whether times are shown as dates.
    pub utc: bool,
    pub arch: Arch,
    /// The global number of the messages.
    pub global: u16,
    /// A space and the name of the message.
    pub name: Label,
    /// The time of a compressed timestamp.
    pub time: Column,
    /// The place of its first column in the row.
    pub first: usize,
    /// The place after its last column.
    pub end: usize,
    /// The place of its first developer field in their row.
    pub developer_first: usize,
    /// The place after its last developer field.
    pub developer_end: usize,
}

impl Plan {
    /// The plan of this definition. Its columns and its developer fields are added at the ends of the rows, which have room for them.
    pub fn new(
        utc: bool,
        definition: &Definition,
        columns: &mut ArrayVec<Column, COLUMNS>,
        developer: &mut ArrayVec<DeveloperFieldDefinition, COLUMNS>,
    ) -> Self
        requires columns { length columns.old.items + length definition.now.fields.items ≤ COLUMNS }
        requires developer { length developer.old.items
            + length definition.now.developer.items ≤ COLUMNS }
        ensures plan { IsPlanIn columns.new.items developer.new.items utc true
            definition.now result }
        ensures after { (own : List AnyColumn) × (columns.new.items ≡ columns.old.items ++ own) }
        ensures developer { developer.new.items
            ≡ developer.old.items ++ definition.now.developer.items }
    {
        let global = definition.global;
        let first = columns.len();
        add_columns(columns, utc, global, definition.fields.as_slice());
        let developer_first = developer.len();
        developer
            .try_extend_from_slice(definition.developer.as_slice())
            .unwrap();
        Plan {
            utc,
            arch: definition.arch,
            global,
            name: message_label(global),
            time: time_column(utc, global),
            first,
            end: columns.len(),
            developer_first,
            developer_end: developer.len(),
        }
    }
}

// The column for the time of a compressed timestamp in messages with this global number.
fn time_column(utc: bool, global: u16) -> Column
    ensures { IsColumn utc global time_field_definition result }
{
    let time = FieldDefinition {
        number: TIMESTAMP,
        size: 4,
        base: BaseType::Uint32.code(),
    };
    Column::new(utc, global, &time)
}

// Adds the columns of these fields, in messages with this global number, at the end of the row.
fn add_columns(
    columns: &mut ArrayVec<Column, COLUMNS>,
    utc: bool,
    global: u16,
    fields: &[FieldDefinition],
)
    requires { length columns.old.items + length fields.now ≤ COLUMNS }
    ensures { (own : List AnyColumn) × (columns.new.items ≡ columns.old.items ++ own)
        × AreColumns utc global fields.now own }
{
    let mut rest = fields;
    while let [field, others @ ..] = rest {
        columns.push(Column::new(utc, global, field));
        rest = others;
    }
}

// How a field is shown, if those of the numbers `dates` that hold one time are shown as dates.
fn kind_of(dates: &[u8], field: &FieldDefinition) -> Kind
    ensures { IsKind dates.now field.now.number field.now.base field.now.size result }
{
    match BaseType::of(field.base) {
        Some(base) => kind_of_type(dates, field, base),
        None => Kind::Other,
    }
}

// The same of a field of this type.
fn kind_of_type(dates: &[u8], field: &FieldDefinition, base: BaseType) -> Kind
    requires { base_type field.now.base ≡ Some base }
    ensures { IsKind dates.now field.now.number field.now.base field.now.size result }
{
    if base.size() == usize::from(field.size) {
        kind_of_one(dates.contains(&field.number), base)
    } else {
        Kind::Other
    }
}

// How one value of this type is shown.
fn kind_of_one(is_time: bool, base: BaseType) -> Kind
    ensures { IsKindOf is_time base result }
{
    match base {
        BaseType::String | BaseType::Byte | BaseType::Float32 | BaseType::Float64 => Kind::Other,
        BaseType::Uint32 => kind_of_seconds(is_time),
        _ if base.is_signed() => Kind::Signed(base.invalid()),
        _ => Kind::Unsigned(base.invalid()),
    }
}

// How one uint32 is shown.
fn kind_of_seconds(is_time: bool) -> Kind
    ensures { IsKindOf is_time BaseType.Uint32 result }
{
    if is_time {
        Kind::Date
    } else {
        Kind::Unsigned(BaseType::Uint32.invalid())
    }
}

// A space, the name of a field in messages with this global number, and `=`.
fn field_label(global: u16, number: u8) -> Label
    ensures { result ≡ codes " " ++ field_name (known_at global) number ++ codes "=" }
{
    let mut label = Label::new();
    label.add(b" ");
    match known_row(global, number) {
        Some(row) => label.add(row.1.as_bytes()),
        None => {
            label.add(b"field_");
            label.add_number(u64::from(number));
        }
    }
    label.add(b"=");
    label
}

/// A space and the name of the message with this global number.
pub fn message_label(global: u16) -> Label
    ensures { result ≡ codes " " ++ message_name global }
{
    let mut label = Label::new();
    label.add(b" ");
    match known_name(global) {
        Some(name) => label.add(name.as_bytes()),
        None => {
            label.add(b"message_");
            label.add_number(u64::from(global));
        }
    }
    label
}
