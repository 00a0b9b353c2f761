// The track of an activity as GPX 1.1.

ghost use Rattle.std.specs.Prelude.{◌≡◌, ◌<◌, ◌∷◌, [], IfOk, IfSome, slice_index_or};
ghost use Rattle.std.specs.List.{flat_map};
ghost use Rattle.std.specs.Option.{is_some};
ghost use Rattle.fit_grammar.specs.Calls.Output.{WritesText};
ghost use Rattle.fit_grammar.specs.Format.Message.{message_under, messages_of};
ghost use Rattle.fit_text.specs.Pen.{Puts};
ghost use Rattle.fit_columns.specs.Columns.{messages_numbered};
ghost use Rattle.fit_columns.specs.Places.{IsPlanOf, IsSmall};
ghost use Rattle.fit_table.specs.Gpx.{fields, value, altitude, dated, between, has_sensors, sensors, has_extensions, extensions, has_position, point, gpx_of};
ghost use Rattle.fit_table.specs.Tokens.{Text};

use crate::lookup::Lookup;
use crate::named::NamedPlan;
use crate::number::{is_date, put_value};
use crate::unit::Unit;
use crate::walk::{Line, put_lines};
use fit_columns::{Plan, cell};
use fit_grammar::{DataMessage, LentFile, WriteFailed};
use fit_profile::Scale;
use fit_text::Pen;
use std::io::Write;
use std::marker::Model;

// The global number of a record.
const RECORD: u16 = 20;

// The fields that a point reads: position, both altitudes, time, power, temperature, heart rate and cadence.
const FIELDS: [u8; 9] = [0, 1, 78, 2, 253, 7, 13, 3, 4];

const DEGREES: Unit = Unit::Scaled(Scale::Semicircles);

const METRES: Unit = Unit::Scaled(Scale::Height);

/// Writes the track of an activity as GPX 1.1: a point for each record that has a position.
#[inline(never)]
pub fn write_gpx<W: Write>(file: &LentFile<'_>, out: &mut W) -> Result<(), WriteFailed>
    ensures { WritesText (W.contents out.old) (W.contents out.new) result
        (gpx_of (messages_of file.now.items)) }
{
    let mut pen = Pen::new(out);
    let done = put_track(&mut pen, file);
    let _ = pen.into_writer();
    done
}

fn put_track<W: Write>(pen: &mut Pen<'_, W>, file: &LentFile<'_>) -> Result<(), WriteFailed>
    ensures text { Puts pen.old pen.new result (gpx_of (messages_of file.now.items)) }
    ensures none { IfOk result (λ _. pen.new.waiting ≡ []) }
{
    pen.put(
        b"<?xml version=\"1.0\" encoding=\"UTF-8\"?>\n<gpx version=\"1.1\" creator=\"fitrec\" xmlns=\"http://www.topografix.com/GPX/1/1\" xmlns:gpxtpx=\"http://www.garmin.com/xmlschemas/TrackPointExtension/v1\">\n<trk><trkseg>\n",
    )?;
    put_points(pen, file)?;
    pen.put(b"</trkseg></trk>\n</gpx>\n")?;
    pen.hand_over()
}

fn put_points<W: Write>(pen: &mut Pen<'_, W>, file: &LentFile<'_>) -> Result<(), WriteFailed>
    ensures { Puts pen.old pen.new result
        (flat_map point (messages_numbered 20 (messages_of file.now.items))) }
{
    put_lines(pen, &Points, RECORD, &FIELDS, &Lookup::new(&[]), &[], file)
}

// The points of a track.
#[derive(Drop)]
struct Points;

impl Line for Points {
    ghost fields = { λ _. fields };

    ghost tokens = { λ _ _ _ _ m. Text (point m) ∷ [] };

    fn put<W: Write>(
        &self,
        pen: &mut Pen<'_, W>,
        plan: &Plan,
        _named: &NamedPlan,
        time: Option<u32>,
        found: &DataMessage<'_>,
    ) -> Result<(), WriteFailed> {
        put_point(pen, &Values { plan, time, found })
    }
}

// The values of a record, which are read as they are needed.
#[derive(Drop)]
struct Values<'a> {
    plan: &'a Plan,
    time: Option<u32>,
    found: &'a DataMessage<'a>,
}

impl<'a> Model for Values<'a> {
    ghost use Rattle.fit_grammar.specs.Format.Message.{Message, message_under};
    ghost use Rattle.fit_columns.specs.Places.{IsPlanOf};
    ghost use Rattle.fit_table.specs.Gpx.{fields};

    ghost Value = { Message };

    ghost view = { λ r. message_under r.found.now.definition r.time r.found.now.content.now };

    ghost invariant = { λ r. IsPlanOf fields r.found.now.definition r.plan.now };
}

impl<'a> Values<'a> {
    // The value of the field in this place of `FIELDS`.
    fn value(&self, at: usize) -> Option<i64>
        requires { at < 9 }
        ensures value { result ≡ value (slice_index_or fields at 0) self.now }
        ensures small { IfSome result IsSmall }
    {
        let place = &self.plan.places.as_slice()[at];
        cell(place, self.plan.arch, self.time, self.found.content)
    }

    fn has(&self, at: usize) -> bool
        requires { at < 9 }
        ensures { result ≡ is_some (value (slice_index_or fields at 0) self.now) }
    {
        self.value(at).is_some()
    }

    fn has_position(&self) -> bool
        ensures { result ≡ has_position self.now }
    {
        self.has(0) && self.has(1)
    }

    fn has_sensors(&self) -> bool
        ensures { result ≡ has_sensors self.now }
    {
        self.has(6) || self.has(7) || self.has(8)
    }

    fn has_extensions(&self) -> bool
        ensures { result ≡ has_extensions self.now }
    {
        self.has(5) || self.has_sensors()
    }

    fn altitude(&self) -> Option<i64>
        ensures value { result ≡ altitude self.now }
        ensures small { IfSome result IsSmall }
    {
        self.value(2).or(self.value(3))
    }

    // The time, if it is a calendar time.
    fn date(&self) -> Option<i64>
        ensures value { result ≡ dated (value 253 self.now) }
        ensures small { IfSome result IsSmall }
    {
        match self.value(4) {
            Some(time) if is_date(time) => Some(time),
            _ => None,
        }
    }

    // Puts the value of a field in its unit between two texts.
    fn put<W: Write>(
        &self,
        pen: &mut Pen<'_, W>,
        before: &[u8],
        unit: Unit,
        at: usize,
        after: &[u8],
    ) -> Result<(), WriteFailed>
        requires { at < 9 }
        ensures { Puts pen.old pen.new result
            (between before.now unit (value (slice_index_or fields at 0) self.now) after.now) }
    {
        put_between(pen, before, unit, self.value(at), after)
    }
}

fn put_between<W: Write>(
    pen: &mut Pen<'_, W>,
    before: &[u8],
    unit: Unit,
    value: Option<i64>,
    after: &[u8],
) -> Result<(), WriteFailed>
    requires { IfSome value IsSmall }
    ensures { Puts pen.old pen.new result (between before.now unit value after.now) }
{
    let Some(value) = value else {
        return Ok(());
    };
    pen.put(before)?;
    put_value(pen, b"", unit, value)?;
    pen.put(after)
}

fn put_point<W: Write>(pen: &mut Pen<'_, W>, values: &Values<'_>) -> Result<(), WriteFailed>
    ensures { Puts pen.old pen.new result (point values.now) }
{
    if !values.has_position() {
        return Ok(());
    }
    values.put(pen, b"<trkpt lat=\"", DEGREES, 0, b"\"")?;
    values.put(pen, b" lon=\"", DEGREES, 1, b"\">")?;
    put_between(pen, b"<ele>", METRES, values.altitude(), b"</ele>")?;
    put_between(pen, b"<time>", Unit::Date, values.date(), b"</time>")?;
    put_extensions(pen, values)?;
    pen.put(b"</trkpt>\n")
}

fn put_extensions<W: Write>(pen: &mut Pen<'_, W>, values: &Values<'_>) -> Result<(), WriteFailed>
    ensures { Puts pen.old pen.new result (extensions values.now) }
{
    if !values.has_extensions() {
        return Ok(());
    }
    pen.put(b"<extensions>")?;
    values.put(pen, b"<power>", Unit::Whole, 5, b"</power>")?;
    put_sensors(pen, values)?;
    pen.put(b"</extensions>")
}

fn put_sensors<W: Write>(pen: &mut Pen<'_, W>, values: &Values<'_>) -> Result<(), WriteFailed>
    ensures { Puts pen.old pen.new result (sensors values.now) }
{
    if !values.has_sensors() {
        return Ok(());
    }
    pen.put(b"<gpxtpx:TrackPointExtension>")?;
    values.put(pen, b"<gpxtpx:atemp>", Unit::Whole, 6, b"</gpxtpx:atemp>")?;
    values.put(pen, b"<gpxtpx:hr>", Unit::Whole, 7, b"</gpxtpx:hr>")?;
    values.put(pen, b"<gpxtpx:cad>", Unit::Whole, 8, b"</gpxtpx:cad>")?;
    pen.put(b"</gpxtpx:TrackPointExtension>")
}
