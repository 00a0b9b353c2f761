// Columns of developer fields, each by the name that its description gives it.

ghost use Rattle.std.specs.Prelude.{◌≡◌, ◌==◌, ◌+◌, ◌<◌, ◌≤◌, ℕ, List, Option, Some, None, IsSome, [], map, length, option_map, bytes_eq, slice_index_or, sum_by};
ghost use Rattle.std.specs.List.{list_any};
ghost use Rattle.fit_grammar.specs.declared.definition.Definition.{Definition as AnyDefinition};
ghost use Rattle.fit_grammar.specs.Format.Item.{Defines};
ghost use Rattle.fit_grammar.specs.Calls.Table.{in_force_after};
ghost use Rattle.fit_text.specs.Pen.{Puts};
ghost use Rattle.fit_table.specs.Described.{Description};
ghost use Rattle.fit_table.specs.Lookup.{AreAscending};
ghost use Rattle.fit_table.specs.Named.{is_new, names_in, read_cell, titles, unit_if};
ghost use Rattle.fit_table.specs.NamedPlans.{AreCellsFor, AreNamedCells, AreNamedFor, AreNamedIn, IsNamedCell, read_at, spread, told_by, tokens_of};
ghost use Rattle.fit_table.specs.Tokens.{PutsTokens};

use crate::cell::put_field;
use crate::commas::put_commas;
use crate::described::Described;
use crate::lookup::Lookup;
use crate::string::put_string;
use crate::unit::Unit;
use arrayvec::ArrayVec;
use fit_base::{Arch, BaseType, FieldValue};
use fit_grammar::{DefinitionMessage, DeveloperFieldDefinition, WriteFailed};
use fit_text::Pen;
use std::io::Write;

/// The most columns of developer fields.
pub const MOST_NAMES: usize = 128;

/// The names of these descriptions, each once, and no more than 128.
pub fn names_of<'a>(known: &[Described<'a>]) -> ArrayVec<&'a [u8], MOST_NAMES>
    ensures { map (λ name. name.now) result.items ≡ names_in known.now }
{
    let mut names = ArrayVec::new();
    let mut left = known;
    while let [first, others @ ..] = left {
        if is_new(names.as_slice(), first.name) {
            names.push(first.name);
        }
        left = others;
    }
    names
}

fn is_new(names: &[&[u8]], name: &[u8]) -> bool
    ensures { result ≡ is_new (map (λ name. name.now) names.now) name.now }
{
    !name.is_empty() && names.len() < MOST_NAMES && !is_among(name, names)
}

fn is_among(name: &[u8], names: &[&[u8]]) -> bool
    ensures { result ≡ list_any (bytes_eq name.now) (map (λ name. name.now) names.now) }
{
    let mut left = names;
    while let [first, others @ ..] = left {
        if is_same(name, first) {
            return true;
        }
        left = others;
    }
    false
}

fn is_same(name: &[u8], other: &[u8]) -> bool
    ensures { result ≡ bytes_eq name.now other.now }
{
    name == other
}

/// The names in the first line, each after a comma.
pub fn put_titles<W: Write>(pen: &mut Pen<'_, W>, names: &[&[u8]]) -> Result<(), WriteFailed>
    ensures { Puts pen.old pen.new result (titles (map (λ name. name.now) names.now)) }
{
    let mut left = names;
    while let [first, others @ ..] = left {
        pen.put(b",")?;
        let name = FieldValue::new(BaseType::String.code(), Arch::Little, first);
        put_string(pen, b"", &name)?;
        left = others;
    }
    Ok(())
}

/// Where a cell is in the content of a definition's messages, and how its bytes are read. One without bytes stands for no field.
#[derive(Clone, Copy, Debug, Default)]
pub struct NamedCell {
    pub at: u32,
    pub unit: Unit,
    pub size: u8,
    pub base: u8,
    /// How many cells without bytes stand before it, after the last one that has bytes.
    pub gap: u8,
}

/// The cells of a definition's messages, one for each name: those that have bytes, and how many without bytes follow the last of them.
#[derive(Drop)]
pub struct NamedPlan {
    pub cells: ArrayVec<NamedCell, MOST_NAMES>,
    pub rest: u8,
}

/// For each of the sixteen local numbers the plan of its definition, or none. A plan is made when the first message of its definition is read,
/// and again after a message that describes a developer field.
#[derive(Drop)]
pub struct NamedPlans {
    pub slots: [Option<NamedPlan>; 16],
    /// How many descriptions stand before the next message.
    pub passed: usize,
}

impl NamedPlans {
    /// No plans, before the first message.
    pub fn new() -> Self
        ensures { (known : List Description) (names : List (List ℕ))
            (definition_for : ℕ → Option AnyDefinition)
            → AreNamedFor known names 0 definition_for result }
    {
        NamedPlans {
            slots: no_plans(),
            passed: 0,
        }
    }

    /// From here on the local number has another definition, and no plan yet.
    pub fn forget(&mut self, local: u8)
        requires { local < 16 }
        ensures { (known : List Description) (names : List (List ℕ)) (place : ℕ)
            (definition_for : ℕ → Option AnyDefinition) (d : AnyDefinition)
            → d.local ≡ local
            → AreNamedFor known names place definition_for self.old
            → AreNamedFor known names place (in_force_after (Defines d) definition_for) self.new }
    {
        self.slots[usize::from(local)] = None;
    }

    /// Goes past the message in this place. If it describes a developer field, no plan is left.
    #[inline]
    pub fn pass(&mut self, known: &[Described<'_>], place: u64)
        requires { AreAscending known.now }
        ensures { (names : List (List ℕ)) (definition_for : ℕ → Option AnyDefinition)
            → AreNamedFor known.now names place definition_for self.old
            → AreNamedFor known.now names (place + 1) definition_for self.new }
    {
        if self.passed < known.len() && stands_in(&known[self.passed], place) {
            self.passed += 1;
            self.slots = no_plans();
        }
    }

    /// Makes the plan of a local number that has this definition, if there is none yet.
    #[inline]
    pub fn settle(
        &mut self,
        local: u8,
        definition: &DefinitionMessage<'_>,
        known: &Lookup<'_, '_>,
        place: u64,
        names: &[&[u8]],
    )
        requires local { local < 16 }
        requires few { length names.now ≤ MOST_NAMES }
        ensures some { IsSome (slice_index_or self.new.slots local None) }
        ensures cells { (definition_for : ℕ → Option AnyDefinition)
            → definition_for local ≡ Some definition.now
            → AreNamedFor known.now (map (λ name. name.now) names.now) place definition_for self.old
            → AreNamedFor known.now (map (λ name. name.now) names.now) place definition_for self.new }
    {
        if self.slots[usize::from(local)].is_none() {
            self.set(local, definition, known, place, names);
        }
    }

    #[inline(never)]
    fn set(
        &mut self,
        local: u8,
        definition: &DefinitionMessage<'_>,
        known: &Lookup<'_, '_>,
        place: u64,
        names: &[&[u8]],
    )
        requires local { local < 16 }
        requires few { length names.now ≤ MOST_NAMES }
        ensures some { IsSome (slice_index_or self.new.slots local None) }
        ensures cells { (definition_for : ℕ → Option AnyDefinition)
            → definition_for local ≡ Some definition.now
            → AreNamedFor known.now (map (λ name. name.now) names.now) place definition_for self.old
            → AreNamedFor known.now (map (λ name. name.now) names.now) place definition_for self.new }
    {
        self.slots[usize::from(local)] = Some(plan_for(definition, known, place, names));
    }

    /// The plan of a local number that has one.
    #[inline]
    pub fn get(&self, local: u8) -> &NamedPlan
        requires { IsSome (slice_index_or self.now.slots local None) }
        ensures { slice_index_or self.now.slots local None ≡ Some result.now }
    {
        match self.slots.get(usize::from(local)) {
            Some(Some(plan)) => plan,
            _ => unreachable!(),
        }
    }
}

// No plan for any local number.
fn no_plans() -> [Option<NamedPlan>; 16]
    ensures { (local : ℕ) → slice_index_or result local None ≡ None }
{
    Default::default()
}

// Whether the message of this description is in this place.
fn stands_in(described: &Described<'_>, place: u64) -> bool
    ensures { result ≡ (described.now.place == place) }
{
    described.place == place
}

// The plan of a definition, for a message in this place.
fn plan_for(
    definition: &DefinitionMessage<'_>,
    known: &Lookup<'_, '_>,
    place: u64,
    names: &[&[u8]],
) -> NamedPlan
    requires { length names.now ≤ MOST_NAMES }
    ensures { AreCellsFor known.now (map (λ name. name.now) names.now) place definition.now result }
{
    if names.is_empty() {
        return NamedPlan {
            cells: ArrayVec::new(),
            rest: 0,
        };
    }
    let size = definition.content_size() as u32;
    let definition = definition.read();
    let fields = definition.developer.as_slice();
    let start = size - size_of(fields);
    let told = told_of(known, place, fields);
    plan_of(told.as_slice(), fields, names, start)
}

// How many bytes these developer fields have.
fn size_of(fields: &[DeveloperFieldDefinition]) -> u32
    requires { sum_by (λ field. field.size) fields.now ≤ 130050 }
    ensures { result ≡ sum_by (λ field. field.size) fields.now }
{
    let mut size: u32 = 0;
    let mut left = fields;
    while let [field, others @ ..] = left {
        size += u32::from(field.size);
        left = others;
    }
    size
}

// The descriptions of these developer fields in the message in this place.
fn told_of<'k, 'a>(
    known: &Lookup<'k, 'a>,
    place: u64,
    fields: &[DeveloperFieldDefinition],
) -> ArrayVec<Option<&'k Described<'a>>, 255>
    requires { length fields.now ≤ 255 }
    ensures { map (λ told. option_map (λ d. d.now) told) result.items
        ≡ told_by known.now place fields.now }
{
    let mut told = ArrayVec::new();
    let mut left = fields;
    while let [field, others @ ..] = left {
        told.push(known.last(place, field.index, field.number));
        left = others;
    }
    told
}

// The cells of these names, by the developer fields from this place of the content on.
fn plan_of(
    told: &[Option<&Described<'_>>],
    fields: &[DeveloperFieldDefinition],
    names: &[&[u8]],
    start: u32,
) -> NamedPlan
    requires small { start + sum_by (λ field. field.size) fields.now ≤ 130050 }
    requires few { length names.now ≤ MOST_NAMES }
    ensures { AreNamedCells (map (λ told. option_map (λ d. d.now) told) told.now) fields.now start
        (map (λ name. name.now) names.now) (spread result.cells.items result.rest) }
{
    let mut cells = ArrayVec::new();
    let mut gap: u8 = 0;
    let mut left = names;
    while let [name, others @ ..] = left {
        left = others;
        let cell = cell_of(told, fields, name, start, gap);
        if cell.size == 0 {
            gap += 1;
            continue;
        }
        cells.push(cell);
        gap = 0;
    }
    NamedPlan { cells, rest: gap }
}

// The cell of a name: the first developer field whose description gives it this name.
fn cell_of(
    told: &[Option<&Described<'_>>],
    fields: &[DeveloperFieldDefinition],
    name: &[u8],
    start: u32,
    gap: u8,
) -> NamedCell
    requires { start + sum_by (λ field. field.size) fields.now ≤ 130050 }
    ensures cell { IsNamedCell (map (λ told. option_map (λ d. d.now) told) told.now) fields.now start
        name.now result }
    ensures gap { result.gap ≡ gap }
{
    let mut at = start;
    let mut left = told;
    let mut fields_left = fields;
    while let [field, other_fields @ ..] = fields_left {
        let [first, others @ ..] = left else {
            break;
        };
        if let Some(described) = first {
            if is_same(described.name, name) {
                return NamedCell {
                    at,
                    unit: described.unit,
                    size: field.size,
                    base: described.base,
                    gap,
                };
            }
        }
        at += u32::from(field.size);
        left = others;
        fields_left = other_fields;
    }
    NamedCell {
        at: 0,
        unit: Unit::Whole,
        size: 0,
        base: 0,
        gap,
    }
}

/// Writes the cells of a content, each after a comma. Numbers are those of the file if `raw` is set.
pub fn put_named_cells<W: Write>(
    pen: &mut Pen<'_, W>,
    raw: bool,
    plan: &NamedPlan,
    arch: Arch,
    content: &[u8],
) -> Result<(), WriteFailed>
    requires { AreNamedIn (length content.now) (spread plan.now.cells.items plan.now.rest) }
    ensures { PutsTokens pen.old pen.new result
        (tokens_of raw (spread plan.now.cells.items plan.now.rest) arch content.now) }
{
    let mut left = plan.cells.as_slice();
    while let [first, others @ ..] = left {
        put_commas(pen, usize::from(first.gap) + 1)?;
        put_named_cell(pen, raw, first, arch, content)?;
        left = others;
    }
    put_commas(pen, usize::from(plan.rest))
}

// A cell of a content.
fn put_named_cell<W: Write>(
    pen: &mut Pen<'_, W>,
    raw: bool,
    cell: &NamedCell,
    arch: Arch,
    content: &[u8],
) -> Result<(), WriteFailed>
    requires { cell.now.at + cell.now.size ≤ length content.now }
    ensures { PutsTokens pen.old pen.new result (read_cell raw (read_at cell.now arch content.now)) }
{
    let at = cell.at as usize;
    let field = FieldValue::new(cell.base, arch, &content[at..at + usize::from(cell.size)]);
    put_field(pen, b"", unit_if(raw, cell.unit), &field)
}

// The unit, unless the numbers are those of the file.
fn unit_if(raw: bool, unit: Unit) -> Unit
    ensures { result ≡ unit_if raw unit }
{
    if raw { Unit::Whole } else { unit }
}
