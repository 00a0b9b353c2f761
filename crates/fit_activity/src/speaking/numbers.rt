// Numbers of the profile.

// The global numbers of messages.
pub(crate) const FILE_ID: u16 = 0;

pub(crate) const SPORT: u16 = 12;

pub(crate) const SESSION: u16 = 18;

pub(crate) const LAP: u16 = 19;

pub(crate) const RECORD: u16 = 20;

pub(crate) const EVENT: u16 = 21;

pub(crate) const ACTIVITY: u16 = 34;

// The fields that have the same number in each message.
pub(crate) const TIMESTAMP: u8 = 253;

pub(crate) const MESSAGE_INDEX: u8 = 254;

// The type of a file that is an activity.
pub(crate) const ACTIVITY_FILE: u8 = 4;

// The types of an event: start, stop, stop_all.
pub(crate) const START: u8 = 0;

pub(crate) const STOP: u8 = 1;

pub(crate) const STOP_ALL: u8 = 4;

// The triggers of a lap: manual, session_end.
pub(crate) const MANUAL: u8 = 0;

pub(crate) const SESSION_END: u8 = 7;
