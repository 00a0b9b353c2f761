// What is known of the Profile without `--profile`. Made by crates/fit_profile/make from python/fitrec/profile.txt.

ghost use Rattle.std.specs.Prelude.{◌≡◌, ◌≤◌, true, length, option_map, IfSome};
ghost use Rattle.fit_profile.specs.Facts.{field_rows, are_short};
ghost use Rattle.fit_profile.specs.Known.{known_named, known_at};
ghost use Rattle.fit_profile.specs.Row.{times_at, usual_at};

use crate::row::FieldRow;
use crate::scale::Scale;

// The known fields of `file_id`.
pub const KNOWN_FILE_ID: &[FieldRow] = &[
    (0, "type", "", Scale::Whole),
    (1, "manufacturer", "", Scale::Whole),
    (2, "product", "", Scale::Whole),
    (3, "serial_number", "", Scale::Whole),
    (4, "time_created", "_s", Scale::Time),
];

// The known fields of `sport`.
pub const KNOWN_SPORT: &[FieldRow] = &[
    (0, "sport", "", Scale::Whole),
    (1, "sub_sport", "", Scale::Whole),
];

// The known fields of `session`.
pub const KNOWN_SESSION: &[FieldRow] = &[
    (254, "message_index", "", Scale::Whole),
    (253, "timestamp", "_s", Scale::Time),
    (0, "event", "", Scale::Whole),
    (1, "event_type", "", Scale::Whole),
    (2, "start_time", "_s", Scale::Time),
    (5, "sport", "", Scale::Whole),
    (6, "sub_sport", "", Scale::Whole),
    (7, "total_elapsed_time", "_s", Scale::Thousandth),
    (8, "total_timer_time", "_s", Scale::Thousandth),
    (9, "total_distance", "_m", Scale::Hundredth),
    (14, "avg_speed", "_m_s", Scale::Thousandth),
    (15, "max_speed", "_m_s", Scale::Thousandth),
    (16, "avg_heart_rate", "_bpm", Scale::Whole),
    (17, "max_heart_rate", "_bpm", Scale::Whole),
    (20, "avg_power", "_w", Scale::Whole),
    (21, "max_power", "_w", Scale::Whole),
    (25, "first_lap_index", "", Scale::Whole),
    (26, "num_laps", "", Scale::Whole),
    (28, "trigger", "", Scale::Whole),
];

// The known fields of `lap`.
pub const KNOWN_LAP: &[FieldRow] = &[
    (254, "message_index", "", Scale::Whole),
    (253, "timestamp", "_s", Scale::Time),
    (0, "event", "", Scale::Whole),
    (1, "event_type", "", Scale::Whole),
    (2, "start_time", "_s", Scale::Time),
    (7, "total_elapsed_time", "_s", Scale::Thousandth),
    (8, "total_timer_time", "_s", Scale::Thousandth),
    (9, "total_distance", "_m", Scale::Hundredth),
    (13, "avg_speed", "_m_s", Scale::Thousandth),
    (14, "max_speed", "_m_s", Scale::Thousandth),
    (15, "avg_heart_rate", "_bpm", Scale::Whole),
    (16, "max_heart_rate", "_bpm", Scale::Whole),
    (19, "avg_power", "_w", Scale::Whole),
    (20, "max_power", "_w", Scale::Whole),
    (24, "lap_trigger", "", Scale::Whole),
];

// The known fields of `record`.
pub const KNOWN_RECORD: &[FieldRow] = &[
    (253, "timestamp", "_s", Scale::Time),
    (0, "position_lat", "_deg", Scale::Semicircles),
    (1, "position_long", "_deg", Scale::Semicircles),
    (2, "altitude", "_m", Scale::Height),
    (3, "heart_rate", "_bpm", Scale::Whole),
    (4, "cadence", "_rpm", Scale::Whole),
    (5, "distance", "_m", Scale::Hundredth),
    (6, "speed", "_m_s", Scale::Thousandth),
    (7, "power", "_w", Scale::Whole),
    (13, "temperature", "_c", Scale::Whole),
    (73, "enhanced_speed", "_m_s", Scale::Thousandth),
    (78, "enhanced_altitude", "_m", Scale::Height),
];

// The known fields of `event`.
pub const KNOWN_EVENT: &[FieldRow] = &[
    (253, "timestamp", "_s", Scale::Time),
    (0, "event", "", Scale::Whole),
    (1, "event_type", "", Scale::Whole),
];

// The known fields of `activity`.
pub const KNOWN_ACTIVITY: &[FieldRow] = &[
    (253, "timestamp", "_s", Scale::Time),
    (0, "total_timer_time", "_s", Scale::Thousandth),
    (1, "num_sessions", "", Scale::Whole),
    (2, "type", "", Scale::Whole),
    (3, "event", "", Scale::Whole),
    (4, "event_type", "", Scale::Whole),
];

// The known fields of `others`.
pub const KNOWN_OTHERS: &[FieldRow] = &[(253, "timestamp", "_s", Scale::Time)];

// The known fields of `common`.
pub const KNOWN_COMMON: &[FieldRow] = &[
    (253, "timestamp", "_s", Scale::Time),
    (254, "message_index", "", Scale::Whole),
];

/// The name of the message with this global number; none if it is not known.
pub fn known_name(number: u16) -> Option<&'static str>
    ensures named { option_map (λ name. name.now) result ≡ known_named number }
    ensures short { IfSome result (λ name. length name.now ≤ 30) }
{
    match number {
        0 => Some("file_id"),
        12 => Some("sport"),
        18 => Some("session"),
        19 => Some("lap"),
        20 => Some("record"),
        21 => Some("event"),
        34 => Some("activity"),
        _ => None,
    }
}

/// The known fields of the message with this global number, in the order of a table's columns.
#[tactic(auto, unfolding(crate::specs::Known::file_id_known, crate::specs::Known::sport_known, crate::specs::Known::session_known, crate::specs::Known::lap_known, crate::specs::Known::record_known, crate::specs::Known::event_known, crate::specs::Known::activity_known, crate::specs::Known::others_known))]
pub fn known_fields_of(number: u16) -> &'static [FieldRow]
    ensures rows { field_rows result.now ≡ known_at number }
    ensures short { are_short (known_at number) ≡ true }
{
    match number {
        0 => KNOWN_FILE_ID,
        12 => KNOWN_SPORT,
        18 => KNOWN_SESSION,
        19 => KNOWN_LAP,
        20 => KNOWN_RECORD,
        21 => KNOWN_EVENT,
        34 => KNOWN_ACTIVITY,
        _ => KNOWN_OTHERS,
    }
}

/// Their numbers: the columns of a table if no others are asked for.
#[tactic(auto, unfolding(crate::specs::Known::file_id_known, crate::specs::Known::sport_known, crate::specs::Known::session_known, crate::specs::Known::lap_known, crate::specs::Known::record_known, crate::specs::Known::event_known, crate::specs::Known::activity_known, crate::specs::Known::others_known))]
pub fn usual_fields(number: u16) -> &'static [u8]
    ensures fields { result.now ≡ usual_at number }
    ensures few { length result.now ≤ 128 }
{
    match number {
        0 => &[0, 1, 2, 3, 4],
        12 => &[0, 1],
        18 => &[
            254, 253, 0, 1, 2, 5, 6, 7, 8, 9, 14, 15, 16, 17, 20, 21, 25, 26, 28,
        ],
        19 => &[254, 253, 0, 1, 2, 7, 8, 9, 13, 14, 15, 16, 19, 20, 24],
        20 => &[253, 0, 1, 2, 3, 4, 5, 6, 7, 13, 73, 78],
        21 => &[253, 0, 1],
        34 => &[253, 0, 1, 2, 3, 4],
        _ => &[253],
    }
}

/// The numbers of the fields that hold times.
#[tactic(auto, unfolding(crate::specs::Known::file_id_known, crate::specs::Known::sport_known, crate::specs::Known::session_known, crate::specs::Known::lap_known, crate::specs::Known::record_known, crate::specs::Known::event_known, crate::specs::Known::activity_known, crate::specs::Known::others_known))]
pub fn times_of(number: u16) -> &'static [u8]
    ensures { result.now ≡ times_at number }
{
    match number {
        0 => &[253, 4],
        12 => &[253],
        18 => &[253, 2],
        19 => &[253, 2],
        20 => &[253],
        21 => &[253],
        34 => &[253],
        _ => &[253],
    }
}
