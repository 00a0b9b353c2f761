// The words that subcommands take, with their help.

use clap::{Arg, ArgAction, Error};
use std::alloc::Global;

/// A word of a subcommand, by its name in the matches and its help. An option has two hyphens before its name.
#[derive(Clone, Copy)]
pub(crate) enum Argument {
    /// A word that has to be there.
    Required(&'static str, &'static str),
    /// An option without a value.
    Flag(&'static str, &'static str),
    /// An option without a value that needs the option of the third text, and may have a letter for its name.
    FlagWith(&'static str, &'static str, &'static str, Option<char>),
    /// An option without a value that these options exclude.
    FlagWithout(&'static str, &'static str, &'static [&'static str]),
    /// An option with a value, whose name is the third text.
    Value(&'static str, &'static str, &'static str),
    /// An option with a value, whose name is the third text, that needs the option of the fourth.
    ValueWith(&'static str, &'static str, &'static str, &'static str),
    /// An option with a value, whose name is the third text. Of such options of a subcommand exactly one has to be there.
    OneOf(&'static str, &'static str, &'static str),
    /// Any number of words, which need the option of the third text.
    MoreWith(&'static str, &'static str, &'static str),
    /// One word or more.
    Several(&'static str, &'static str),
}

pub(crate) const UTC: Argument = Argument::Flag("utc", "Shows times as dates in UTC");

pub(crate) const JSON: Argument = Argument::Flag(
    "json",
    "Writes a JSON object on each line, for programs",
);

pub(crate) const ALL: Argument = Argument::Flag(
    "all",
    "Looks at every byte after the header, whatever size the header gives",
);

pub(crate) const ALL_FILES: Argument = Argument::Flag(
    "all",
    "Searches every byte for whole files, as in the image of a card, and writes each, named by its place",
);

pub(crate) const SKIP: Argument = Argument::Flag(
    "skip",
    "Goes on after a fault, and says which bytes are left out",
);

pub(crate) const LIKE: Argument = Argument::ValueWith(
    "like",
    "Takes the definitions of this FIT file where those of IN are lost, with --skip: another ride of the same device",
    "FILE",
    "skip",
);

pub(crate) const VERIFY: Argument = Argument::Flag(
    "verify",
    "Checks each answer of the system against what both files must hold, for a card that is dying",
);

pub(crate) const PLAIN: Argument = Argument::Flag(
    "plain",
    "Writes the time of every message out, as the command plain does",
);

pub(crate) const FINISH: Argument = Argument::Flag(
    "finish",
    "Adds the last lap, the session and the activity message that the ride of any device lacks",
);

pub(crate) const COMMIT: Argument = Argument::Value(
    "commit",
    "Commits after an entry that comes so many seconds of the ride after the last commit (10); 0 commits at the end alone",
    "SECONDS",
);

pub(crate) const BY: Argument = Argument::OneOf(
    "by",
    "Moves the times by so many seconds, or by -SECONDS into the past",
    "SECONDS",
);

pub(crate) const START: Argument = Argument::OneOf(
    "start",
    "Moves the times so that the ride starts at this time, such as 2026-05-01T08:00:00Z or 2026-05-01T10:00:00+02:00",
    "TIME",
);

pub(crate) const AS_GIVEN: Argument = Argument::Flag(
    "as-given",
    "Takes the parts in the order in which they are given, even if their sports differ or their times overlap",
);

pub(crate) const CHECKED: Argument = Argument::Flag(
    "checked",
    "Stores a checksum with each commit, so that changed bytes are noticed",
);

pub(crate) const EARLIER: Argument = Argument::Flag(
    "earlier",
    "Takes the commit before, if the bytes that the last one counts have changed",
);

pub(crate) const CHOICES: Argument = Argument::Value(
    "choices",
    "Says what a power cut leaves, two digits a byte; missing bytes are 00",
    "HEX",
);

pub(crate) const RAW: Argument = Argument::Flag(
    "raw",
    "Writes the whole numbers of the file, without units",
);

pub(crate) const PROFILE: Argument = Argument::Flag(
    "profile",
    "Uses the names and units of the whole public FIT Profile and of developer fields",
);

pub(crate) const JSON_PROFILE: Argument = Argument::FlagWith(
    "profile",
    "Uses the names and units of the whole public FIT Profile and of developer fields, with --json",
    "json",
    None,
);

pub(crate) const GPX: Argument = Argument::FlagWithout(
    "gpx",
    "Writes the track as GPX: a point for each record that has a position",
    &["utc", "json", "profile"],
);

pub(crate) const MESSAGE: Argument = Argument::Value(
    "message",
    "Takes messages of this name, such as lap or message_23, and not records",
    "NAME",
);

pub(crate) const FIELDS: Argument = Argument::Value(
    "fields",
    "Takes these fields, with commas between their names, such as timestamp,heart_rate,field_39",
    "NAMES",
);

pub(crate) const EACH: Argument = Argument::Flag(
    "each",
    "Takes several files, and goes on after one that is refused; the name - stands for names on standard input, a line each",
);

pub(crate) const NULL: Argument = Argument::FlagWith(
    "null",
    "The names on standard input end with zero bytes, as find -print0 writes them",
    "each",
    Some('0'),
);

pub(crate) const EACH_JSON: Argument = Argument::FlagWith(
    "json",
    "Writes a JSON object for each file, with --each",
    "each",
    None,
);

pub(crate) const MORE: Argument = Argument::MoreWith("MORE", "More files, with --each", "each");

pub(crate) const FILE: Argument = Argument::Required("FILE", "The path of a FIT file");

pub(crate) const TABLE_FILE: Argument = Argument::Required(
    "FILE",
    "The path of a FIT file, or - for standard input",
);

pub(crate) const SCRIPT: Argument = Argument::Required("SCRIPT", "The path of a script");

pub(crate) const FOLDER: Argument = Argument::Required(
    "FOLDER",
    "The path of the folder of a recording",
);

pub(crate) const INTO: Argument = Argument::Required(
    "FOLDER",
    "The path of the folder in which the files are made or replaced",
);

pub(crate) const DAMAGED: Argument = Argument::Required("IN", "The path of the damaged file");

pub(crate) const CHAINED: Argument = Argument::Required(
    "IN",
    "The path of the chained files, or of the image",
);

pub(crate) const IN: Argument = Argument::Required("IN", "The path of a FIT file");

pub(crate) const OTHERS: Argument = Argument::Several("MORE", "The paths of the other FIT files");

pub(crate) const OUT: Argument = Argument::Required(
    "OUT",
    "The path of the file that is made or replaced",
);

pub(crate) fn arg_of<'a>(alloc: Global, argument: Argument) -> Result<Arg<'a>, Error> {
    match argument {
        Argument::Required(name, help) => Ok(word(alloc, name, help).required(true)),
        Argument::Flag(name, help) => Ok(flag(alloc, name, help)),
        Argument::FlagWith(name, help, option, None) => {
            Ok(flag(alloc, name, help).requires_arg(option)?)
        }
        Argument::FlagWith(name, help, option, Some(letter)) => {
            Ok(flag(alloc, name, help).short(letter).requires_arg(option)?)
        }
        Argument::FlagWithout(name, help, others) => {
            Ok(flag(alloc, name, help).conflicts_with_all(others)?)
        }
        Argument::Value(name, help, value) => {
            Ok(word(alloc, name, help).long(name).value_name(value))
        }
        Argument::ValueWith(name, help, value, option) => {
            let word = word(alloc, name, help).long(name).value_name(value);
            Ok(word.requires_arg(option)?)
        }
        Argument::OneOf(name, help, value) => Ok(
            word(alloc, name, help)
                .long(name)
                .value_name(value)
                .allow_negative_numbers(true),
        ),
        Argument::MoreWith(name, help, option) => {
            Ok(word(alloc, name, help).num_args(0..).requires_arg(option)?)
        }
        Argument::Several(name, help) => {
            Ok(word(alloc, name, help).num_args(1..).required(true))
        }
    }
}

fn word<'a>(alloc: Global, name: &'a str, help: &'a str) -> Arg<'a> {
    Arg::new(alloc, name).help(help).action(ArgAction::Set)
}

fn flag<'a>(alloc: Global, name: &'a str, help: &'a str) -> Arg<'a> {
    Arg::new(alloc, name)
        .long(name)
        .help(help)
        .action(ArgAction::SetTrue)
}
