// The fields of each message of a recording.

ghost use Rattle.std.specs.Prelude.{◌≡◌, ◌∷◌};
ghost use Rattle.std.specs.List.{AllByRecursion};
ghost use Rattle.fit_activity.specs.Messages.ProfileField.{ProfileFieldFits};
ghost use Rattle.fit_activity.specs.Messages.ProfileMessage.{file_id_message, sport_message, event_message, lap_message, session_message, activity_message};

use crate::recording::start::Sport;
use crate::speaking::numbers::{ACTIVITY_FILE, MESSAGE_INDEX, TIMESTAMP};
use crate::speaking::profile_field::ProfileField;
use crate::totals::summary::{ActivitySummary, LapSummary, SessionSummary};

pub(crate) fn file_id_fields(time: u32, serial: u32) -> [ProfileField; 5]
    ensures fields { result ≡ (file_id_message time serial).fields }
    ensures fit { AllByRecursion ProfileFieldFits result }
{
    [
        ProfileField::enumeration(0, ACTIVITY_FILE),
        ProfileField::uint16(1, 255),
        ProfileField::uint16(2, 1),
        ProfileField::uint32z(3, serial),
        ProfileField::uint32(4, time),
    ]
}

pub(crate) fn sport_fields(sport: Sport) -> [ProfileField; 2]
    ensures fields { result ≡ (sport_message sport).fields }
    ensures fit { AllByRecursion ProfileFieldFits result }
{
    [
        ProfileField::enumeration(0, sport.number()),
        ProfileField::enumeration(1, 0),
    ]
}

// An event of the timer. The event type is start, stop or stop_all.
pub(crate) fn event_fields(time: u32, event_type: u8) -> [ProfileField; 3]
    ensures fields { result ≡ (event_message time event_type).fields }
    ensures fit { AllByRecursion ProfileFieldFits result }
{
    [
        ProfileField::uint32(TIMESTAMP, time),
        ProfileField::enumeration(0, 0),
        ProfileField::enumeration(1, event_type),
    ]
}

pub(crate) fn lap_fields(lap: &LapSummary, trigger: u8) -> [ProfileField; 15]
    ensures fields { result ≡ (lap_message lap.now trigger).fields }
    ensures fit { AllByRecursion ProfileFieldFits result }
{
    let stretch = &lap.stretch;
    [
        ProfileField::uint16(MESSAGE_INDEX, lap.index),
        ProfileField::uint32(TIMESTAMP, stretch.end),
        ProfileField::enumeration(0, 9),
        ProfileField::enumeration(1, 1),
        ProfileField::uint32(2, stretch.start),
        ProfileField::uint32(7, stretch.elapsed),
        ProfileField::uint32(8, stretch.timer),
        ProfileField::uint32_or_invalid(9, stretch.distance),
        ProfileField::uint16_or_invalid(13, stretch.average_speed),
        ProfileField::uint16_or_invalid(14, stretch.greatest_speed),
        ProfileField::uint8_or_invalid(15, stretch.average_heart_rate),
        ProfileField::uint8_or_invalid(16, stretch.greatest_heart_rate),
        ProfileField::uint16_or_invalid(19, stretch.average_power),
        ProfileField::uint16_or_invalid(20, stretch.greatest_power),
        ProfileField::enumeration(24, trigger),
    ]
}

pub(crate) fn session_fields(session: &SessionSummary) -> [ProfileField; 19]
    ensures fields { result ≡ (session_message session.now).fields }
    ensures fit { AllByRecursion ProfileFieldFits result }
{
    let stretch = &session.stretch;
    [
        ProfileField::uint16(MESSAGE_INDEX, 0),
        ProfileField::uint32(TIMESTAMP, stretch.end),
        ProfileField::enumeration(0, 8),
        ProfileField::enumeration(1, 1),
        ProfileField::uint32(2, stretch.start),
        ProfileField::enumeration(5, session.sport.number()),
        ProfileField::enumeration(6, 0),
        ProfileField::uint32(7, stretch.elapsed),
        ProfileField::uint32(8, stretch.timer),
        ProfileField::uint32_or_invalid(9, stretch.distance),
        ProfileField::uint16_or_invalid(14, stretch.average_speed),
        ProfileField::uint16_or_invalid(15, stretch.greatest_speed),
        ProfileField::uint8_or_invalid(16, stretch.average_heart_rate),
        ProfileField::uint8_or_invalid(17, stretch.greatest_heart_rate),
        ProfileField::uint16_or_invalid(20, stretch.average_power),
        ProfileField::uint16_or_invalid(21, stretch.greatest_power),
        ProfileField::uint16(25, 0),
        ProfileField::uint16(26, session.laps),
        ProfileField::enumeration(28, 0),
    ]
}

pub(crate) fn activity_fields(activity: ActivitySummary) -> [ProfileField; 6]
    ensures fields { result ≡ (activity_message activity).fields }
    ensures fit { AllByRecursion ProfileFieldFits result }
{
    [
        ProfileField::uint32(TIMESTAMP, activity.time),
        ProfileField::uint32(0, activity.timer),
        ProfileField::uint16(1, 1),
        ProfileField::enumeration(2, 0),
        ProfileField::enumeration(3, 26),
        ProfileField::enumeration(4, 1),
    ]
}
