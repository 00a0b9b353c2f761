// The settings of a sample: the words after its time, such as `hr=100`.

ghost use Rattle.std.specs.Prelude.{◌≡◌, ◌==◌, ◌<◌, ◌≤◌, ℕ, List, length, true, false, Some, None, [], map, if◌then◌else◌, IfOk, OnOk, IfErr, IfSome, slice_index_or};
ghost use Rattle.std.specs.List.{position, position_or_len};
ghost use Rattle.std.specs.Result.{result_ok};
ghost use Rattle.std.specs.Str.{bytes_eq};
ghost use Rattle.fit_activity.specs.Rides.Fields.{SampleField as AnyRow, rows_of, sample_rows};
ghost use Rattle.fit_scripts.specs.Scripts.Faults.{has_equals, setting_fault, settings_fault};
ghost use Rattle.fit_scripts.specs.Scripts.Sample.{key_in, setting_value, is_new_setting, are_settings, sample_at, values_stated, with_setting};
ghost use Rattle.fit_scripts.specs.Scripts.Words.{number_as};
ghost use Rattle.fit_scripts.specs.declared.script.fault.ScriptFaultKind.TheVariants as kinds;

use crate::script::fault::ScriptFaultKind;
use crate::script::number::number_as;
use fit_activity::{FIELDS, SAMPLE_FIELDS, Sample, SampleField};

/// The sample at a time, in seconds since 1989-12-31T00:00:00Z, with these settings.
pub fn sample_at(time: u32, settings: &[&[u8]]) -> Result<Sample, ScriptFaultKind>
    ensures value { result_ok result ≡ (if are_settings (map (λ word. word.now) settings.now)
        then Some (sample_at time (map (λ word. word.now) settings.now)) else None) }
    ensures fault { IfErr result
        (λ kind. kind ≡ settings_fault [] (map (λ word. word.now) settings.now)) }
{
    let mut values = [None; FIELDS];
    for setting in settings {
        add_setting(&mut values, setting)?;
    }
    Ok(Sample::of_raw(time, values))
}

// Adds the number of a setting to those of the settings before it.
fn add_setting(values: &mut [Option<u32>; FIELDS], setting: &[u8]) -> Result<(), ScriptFaultKind>
    ensures new { (earlier : List (List ℕ)) → are_settings earlier ≡ true
        → values.old ≡ values_stated sample_rows earlier
        → OnOk result (is_new_setting earlier setting.now ≡ true) }
    ensures fault { (earlier : List (List ℕ)) → are_settings earlier ≡ true
        → values.old ≡ values_stated sample_rows earlier
        → IfErr result (λ kind. (is_new_setting earlier setting.now ≡ false)
        × (kind ≡ setting_fault earlier setting.now)) }
    ensures value { OnOk result (values.new
        ≡ with_setting sample_rows values.old (key_in setting.now) (setting_value setting.now)) }
{
    let (key, value) = cut(setting)?;
    let Some(at) = row_of(&SAMPLE_FIELDS, key) else {
        return Err(ScriptFaultKind::UnknownKey);
    };
    if values[at].is_some() {
        return Err(ScriptFaultKind::RepeatedKey);
    }
    let Some(number) = number_at(&SAMPLE_FIELDS, at, value) else {
        return Err(ScriptFaultKind::BadNumber);
    };
    values[at] = Some(number);
    Ok(())
}

// The key of a setting and its value.
fn cut<'a>(setting: &'a [u8]) -> Result<(&'a [u8], &'a [u8]), ScriptFaultKind>
    ensures key { IfOk result (λ parts. parts.0.now ≡ key_in setting.now) }
    ensures value { IfOk result (λ parts. parts.1.now ≡ setting_value setting.now) }
    ensures none { IfErr result (λ _. setting_value setting.now ≡ []) }
    ensures parts { IfOk result (λ _. has_equals setting.now ≡ true) }
    ensures fault { IfErr result (λ kind. (kind ≡ kinds.UnknownKey)
        × (has_equals setting.now ≡ false)) }
{
    let at = key_len(setting);
    if at == setting.len() {
        return Err(ScriptFaultKind::UnknownKey);
    }
    Ok((&setting[..at], &setting[at + 1..]))
}

// The number of bytes before the first `=`, or of all bytes if there is none.
fn key_len(setting: &[u8]) -> usize
    ensures value { result ≡ position_or_len (λ byte. byte == 61) setting.now }
    ensures within { result ≤ length setting.now }
{
    match equals_at(setting) {
        Some(at) => at,
        None => setting.len(),
    }
}

fn equals_at(setting: &[u8]) -> Option<usize>
    ensures { result ≡ position (λ byte. byte == 61) setting.now }
{
    setting.iter().position(|byte| *byte == b'=')
}

// The place of the row with this key.
fn row_of(rows: &[SampleField], key: &[u8]) -> Option<usize>
    ensures place { result ≡ position (λ row. bytes_eq key.now row.2) (rows_of rows.now) }
    ensures within { IfSome result (λ at. at < length rows.now) }
{
    place_of(rows, key)
}

// The same, by what the rows borrow.
fn place_of(rows: &[SampleField], key: &[u8]) -> Option<usize>
    ensures place { result ≡ position (λ row. bytes_eq key.now row.2.now) rows.now }
    ensures within { IfSome result (λ at. at < length rows.now) }
{
    rows.iter().position(|row| key == row.2.as_bytes())
}

// The number that a value states for the row at this place.
fn number_at(rows: &[SampleField], at: usize, value: &[u8]) -> Option<u32>
    requires { at < length rows.now }
    ensures { (none : AnyRow) → result
        ≡ number_as (slice_index_or (rows_of rows.now) at none).1 value.now }
{
    number_as(rows[at].1, value)
}
