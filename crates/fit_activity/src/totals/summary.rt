// What a recording adds up to.

use crate::recording::start::Sport;

/// What a stretch of a recording adds up to.
#[derive(Clone, Copy, Debug, PartialEq, Eq)]
pub struct Stretch {
    /// The time at which it begins, in seconds since 1989-12-31T00:00:00Z.
    pub start: u32,
    /// The time at which it ends, in seconds since 1989-12-31T00:00:00Z.
    pub end: u32,
    /// Its length, in ms.
    pub elapsed: u32,
    /// How long the timer ran in it, in ms.
    pub timer: u32,
    /// The distance covered in it, in cm. `None` if no distance is known at its end.
    pub distance: Option<u32>,
    /// The distance divided by the timer's time, in mm/s. `None` if there is no distance, if the timer did
    /// not run, or if it is above 65534.
    pub average_speed: Option<u16>,
    /// The greatest speed of its samples, in mm/s. The speed of a sample is the greater of its two. `None` if
    /// no sample has one, or if it is above 65534.
    pub greatest_speed: Option<u16>,
    /// In beats a minute, rounded down. `None` if no sample has a heart rate.
    pub average_heart_rate: Option<u8>,
    /// In beats a minute. `None` if no sample has a heart rate.
    pub greatest_heart_rate: Option<u8>,
    /// In W, rounded down. `None` if no sample has a power.
    pub average_power: Option<u16>,
    /// In W. `None` if no sample has a power.
    pub greatest_power: Option<u16>,
}

/// A lap.
#[derive(Clone, Copy, Debug, PartialEq, Eq)]
pub struct LapSummary {
    /// Its number, from 0.
    pub index: u16,
    pub stretch: Stretch,
}

/// The whole recording.
#[derive(Clone, Copy, Debug, PartialEq, Eq)]
pub struct SessionSummary {
    pub sport: Sport,
    /// The number of laps. It includes the last one, which the end of the recording closes.
    pub laps: u16,
    pub stretch: Stretch,
}

/// The activity. It has one session.
#[derive(Clone, Copy, Debug, PartialEq, Eq)]
pub struct ActivitySummary {
    /// The time of the last entry, in seconds since 1989-12-31T00:00:00Z.
    pub time: u32,
    /// How long the timer ran, in ms.
    pub timer: u32,
}
