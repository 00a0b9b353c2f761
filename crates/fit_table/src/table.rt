// A table of a file's messages.

ghost use Rattle.std.specs.Prelude.{◌≡◌, ◌≤◌, ◌++◌, ◌∷◌, [], length, map, option_map, codes, decimal, IfOk};
ghost use Rattle.fit_grammar.specs.Calls.Output.{WritesText};
ghost use Rattle.fit_grammar.specs.Format.Message.{messages_of};
ghost use Rattle.fit_text.specs.Pen.{Puts};
ghost use Rattle.fit_profile.specs.Facts.{facts_of};
ghost use Rattle.fit_profile.specs.Row.{row_by};
ghost use Rattle.fit_columns.specs.declared.plans.TheConstants.{MOST_COLUMNS};
ghost use Rattle.fit_columns.specs.Places.{ArePlacesIn};
ghost use Rattle.fit_table.specs.declared.named.TheConstants.{MOST_NAMES};
ghost use Rattle.fit_table.specs.Lookup.{AreAscending};
ghost use Rattle.fit_table.specs.Unit.{AreUnits};
ghost use Rattle.fit_table.specs.Tokens.{Text, PutsTokens, WritesTokens};
ghost use Rattle.fit_table.specs.Table.{chosen_names, takes_all, column_name, name_by, names_from, head_of, head_with, cells_at, line_of, lines_by, lines_of, table_of, table_with};

use crate::cell::{has_cell, least_size, put_cell};
use crate::commas::put_commas;
use crate::described::descriptions_of;
use crate::layout::{DeveloperColumns, Layout};
use crate::lookup::Lookup;
use crate::named::{MOST_NAMES, NamedPlan, names_of, put_named_cells, put_titles};
use crate::unit::{Unit, suffix_in, units_of};
use crate::walk::{Line, put_lines};
use fit_base::Arch;
use fit_columns::{MOST_COLUMNS, Place, Plan};
use fit_grammar::{DataMessage, LentFile, Sink, WriteFailed};
use fit_profile::{FieldRow, row_by};
use fit_text::Pen;
use std::io::Write;

/// Writes the table of a file: its first line, and a line for each message with the global number of the layout, in order.
#[inline(never)]
pub fn write_table<W: Write>(
    layout: &Layout<'_>,
    file: &LentFile<'_>,
    out: &mut W,
) -> Result<(), WriteFailed>
    requires { length layout.now.fields.now ≤ MOST_COLUMNS }
    ensures { WritesTokens (W.contents out.old) (W.contents out.new) result
        (table_of layout.now (messages_of file.now.items)) }
{
    let mut pen = Pen::new(out);
    let done = put_table(&mut pen, layout, file);
    let _ = pen.into_writer();
    done
}

/// Writes the first line, with the names of the columns. It begins with `front`.
#[inline(never)]
pub fn write_head<W: Write>(
    layout: &Layout<'_>,
    front: &[u8],
    out: &mut W,
) -> Result<(), WriteFailed>
    ensures { WritesText (W.contents out.old) (W.contents out.new) result
        (head_of layout.now front.now) }
{
    let mut pen = Pen::new(out);
    let done = put_whole_head(&mut pen, layout, front);
    let _ = pen.into_writer();
    done
}

/// Writes a line for each message with the global number of the layout, in order. Each begins with `front`.
#[inline(never)]
pub fn write_lines<W: Write>(
    layout: &Layout<'_>,
    front: &[u8],
    file: &LentFile<'_>,
    out: &mut W,
) -> Result<(), WriteFailed>
    requires { length layout.now.fields.now ≤ MOST_COLUMNS }
    ensures { WritesTokens (W.contents out.old) (W.contents out.new) result
        (lines_of layout.now front.now (messages_of file.now.items)) }
{
    let mut pen = Pen::new(out);
    let done = put_own_lines(&mut pen, layout, front, file);
    let _ = pen.into_writer();
    done
}

fn put_table<W: Write>(
    pen: &mut Pen<'_, W>,
    layout: &Layout<'_>,
    file: &LentFile<'_>,
) -> Result<(), WriteFailed>
    requires { length layout.now.fields.now ≤ MOST_COLUMNS }
    ensures text { PutsTokens pen.old pen.new result
        (table_of layout.now (messages_of file.now.items)) }
    ensures none { IfOk result (λ _. pen.new.waiting ≡ []) }
{
    if takes_all(layout) {
        let known = descriptions_of(file);
        return put_described_table(pen, layout, &Lookup::new(known.as_slice()), file);
    }
    put_chosen_table(pen, layout, file)
}

// Whether each developer field that the file names has a column.
fn takes_all(layout: &Layout<'_>) -> bool
    ensures { result ≡ takes_all layout.now.developer }
{
    match layout.developer {
        DeveloperColumns::All => true,
        DeveloperColumns::Without | DeveloperColumns::Named(_) => false,
    }
}

// The table of a file, with columns for the developer fields that the layout names.
fn put_chosen_table<W: Write>(
    pen: &mut Pen<'_, W>,
    layout: &Layout<'_>,
    file: &LentFile<'_>,
) -> Result<(), WriteFailed>
    requires { length layout.now.fields.now ≤ MOST_COLUMNS }
    ensures text { PutsTokens pen.old pen.new result (Text (head_of layout.now [])
        ∷ lines_of layout.now [] (messages_of file.now.items)) }
    ensures none { IfOk result (λ _. pen.new.waiting ≡ []) }
{
    put_head(pen, layout, chosen_names(layout), &[])?;
    put_own_lines(pen, layout, &[], file)
}

// The lines of a file, with cells for the developer fields that the layout names.
fn put_own_lines<W: Write>(
    pen: &mut Pen<'_, W>,
    layout: &Layout<'_>,
    front: &[u8],
    file: &LentFile<'_>,
) -> Result<(), WriteFailed>
    requires { length layout.now.fields.now ≤ MOST_COLUMNS }
    ensures text { PutsTokens pen.old pen.new result
        (lines_of layout.now front.now (messages_of file.now.items)) }
    ensures none { IfOk result (λ _. pen.new.waiting ≡ []) }
{
    let names = chosen_names(layout);
    if names.is_empty() {
        return put_all_lines(pen, layout, &Lookup::new(&[]), names, front, file);
    }
    let known = descriptions_of(file);
    put_all_lines(
        pen,
        layout,
        &Lookup::new(known.as_slice()),
        names,
        front,
        file,
    )
}

// The names of developer fields that have a column in each file.
fn chosen_names<'a>(layout: &Layout<'a>) -> &'a [&'a [u8]]
    ensures names { map (λ name. name.now) result.now ≡ chosen_names layout.now.developer }
    ensures few { length result.now ≤ MOST_NAMES }
{
    match layout.developer {
        DeveloperColumns::Named(names) => names.as_slice(),
        DeveloperColumns::Without | DeveloperColumns::All => &[],
    }
}

// The table of a file, with columns for the developer fields that these describe.
fn put_described_table<W: Write>(
    pen: &mut Pen<'_, W>,
    layout: &Layout<'_>,
    known: &Lookup<'_, '_>,
    file: &LentFile<'_>,
) -> Result<(), WriteFailed>
    requires few { length layout.now.fields.now ≤ MOST_COLUMNS }
    requires ascending { AreAscending known.now }
    ensures text { PutsTokens pen.old pen.new result
        (table_with layout.now known.now (messages_of file.now.items)) }
    ensures none { IfOk result (λ _. pen.new.waiting ≡ []) }
{
    let names = names_of(known.known());
    put_head(pen, layout, names.as_slice(), &[])?;
    put_all_lines(pen, layout, known, names.as_slice(), &[], file)
}

fn put_whole_head<W: Write>(
    pen: &mut Pen<'_, W>,
    layout: &Layout<'_>,
    front: &[u8],
) -> Result<(), WriteFailed>
    ensures text { Puts pen.old pen.new result (head_of layout.now front.now) }
    ensures none { IfOk result (λ _. pen.new.waiting ≡ []) }
{
    put_head(pen, layout, chosen_names(layout), front)?;
    pen.hand_over()
}

fn put_all_lines<W: Write>(
    pen: &mut Pen<'_, W>,
    layout: &Layout<'_>,
    known: &Lookup<'_, '_>,
    names: &[&[u8]],
    front: &[u8],
    file: &LentFile<'_>,
) -> Result<(), WriteFailed>
    requires few { length layout.now.fields.now ≤ MOST_COLUMNS }
    requires few_names { length names.now ≤ MOST_NAMES }
    requires ascending { AreAscending known.now }
    ensures text { PutsTokens pen.old pen.new result
        (lines_by (line_of layout.now known.now (map (λ name. name.now) names.now) front.now)
        layout.now.message 0 (messages_of file.now.items)) }
    ensures none { IfOk result (λ _. pen.new.waiting ≡ []) }
{
    let row = Row {
        layout,
        front,
        units: units_of(layout),
    };
    put_lines(pen, &row, layout.message, layout.fields, known, names, file)?;
    pen.hand_over()
}

fn put_head<W: Write>(
    pen: &mut Pen<'_, W>,
    layout: &Layout<'_>,
    names: &[&[u8]],
    front: &[u8],
) -> Result<(), WriteFailed>
    ensures { Puts pen.old pen.new result
        (head_with layout.now (map (λ name. name.now) names.now) front.now) }
{
    pen.put(front)?;
    put_names(pen, layout)?;
    put_titles(pen, names)?;
    pen.put(b"\r\n")
}

fn put_names<W: Write>(pen: &mut Pen<'_, W>, layout: &Layout<'_>) -> Result<(), WriteFailed>
    ensures { Puts pen.old pen.new result (names_from layout.now [] layout.now.fields.now) }
{
    let mut front: &[u8] = &[];
    let mut left = layout.fields;
    while let [number, others @ ..] = left {
        pen.put(front)?;
        put_name(pen, layout, *number)?;
        front = b",";
        left = others;
    }
    Ok(())
}

// The name of a column.
fn put_name<W: Write>(
    pen: &mut Pen<'_, W>,
    layout: &Layout<'_>,
    number: u8,
) -> Result<(), WriteFailed>
    ensures { Puts pen.old pen.new result (column_name layout.now number) }
{
    let row = row_by(layout.profile, layout.message, number);
    put_name_by(pen, row, number)?;
    pen.put(suffix_in(layout, number))
}

/// The name of a field, by its row if it has one.
pub fn put_name_by<S: Sink>(
    pen: &mut Pen<'_, S>,
    row: Option<&'static FieldRow>,
    number: u8,
) -> Result<(), S::Fault>
    ensures { Puts pen.old pen.new result
        (name_by (option_map (λ row. facts_of row.now) row.entry) number) }
{
    match row {
        Some(row) => pen.put(row.1.as_bytes()),
        None => put_number_name(pen, number),
    }
}

// The name of a field that has none.
fn put_number_name<S: Sink>(pen: &mut Pen<'_, S>, number: u8) -> Result<(), S::Fault>
    ensures { Puts pen.old pen.new result (codes "field_" ++ decimal number) }
{
    pen.put(b"field_")?;
    pen.put_number(u64::from(number))
}

// The line of a message.
#[derive(Drop)]
struct Row<'a> {
    layout: &'a Layout<'a>,
    front: &'a [u8],
    units: [Unit; 256],
    ghost units_are: { AreUnits layout.now units },
}

impl<'a> Line for Row<'a> {
    ghost fields = { λ row. row.layout.now.fields.now };

    ghost tokens = { λ row known names. line_of row.layout.now known names row.front.now };

    fn put<W: Write>(
        &self,
        pen: &mut Pen<'_, W>,
        plan: &Plan,
        named: &NamedPlan,
        time: Option<u32>,
        found: &DataMessage<'_>,
    ) -> Result<(), WriteFailed> {
        pen.put(self.front)?;
        let places = plan.places.as_slice();
        put_cells(
            pen,
            self.layout,
            &self.units,
            places,
            plan.arch,
            time,
            found.content,
        )?;
        put_named_cells(pen, self.layout.raw, named, plan.arch, found.content)?;
        pen.put(b"\r\n")
    }
}

fn put_cells<W: Write>(
    pen: &mut Pen<'_, W>,
    layout: &Layout<'_>,
    units: &[Unit; 256],
    places: &[Place],
    arch: Arch,
    time: Option<u32>,
    content: &[u8],
) -> Result<(), WriteFailed>
    requires units { AreUnits layout.now units.now }
    requires few { length places.now ≤ MOST_COLUMNS }
    requires inside { ArePlacesIn (length content.now) places.now }
    ensures { PutsTokens pen.old pen.new result
        (cells_at layout.now arch time content.now [] places.now) }
{
    let least = least_size(layout);
    let mut commas = 0; // They are left before the next cell. Those of empty ones are put together.
    let mut left = places;
    while let [place, others @ ..] = left {
        left = others;
        if !has_cell(place, least) {
            commas += 1;
            continue;
        }
        put_commas(pen, commas)?;
        put_cell(pen, layout, units, place, arch, time, content)?;
        commas = 1;
    }
    if commas == 0 {
        return Ok(());
    }
    put_commas(pen, commas - 1)
}
