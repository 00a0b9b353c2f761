// The subcommands, and the words that each takes.

use crate::arguments::{
    ALL, ALL_FILES, AS_GIVEN, Argument, BY, CHAINED, CHECKED, CHOICES, COMMIT, DAMAGED, EACH,
    EACH_JSON, EARLIER, FIELDS, FILE, FINISH, FOLDER, GPX, IN, INTO, JSON, JSON_PROFILE, LIKE,
    MESSAGE, MORE, NULL, OTHERS, OUT, PLAIN, PROFILE, RAW, SCRIPT, SKIP, START, TABLE_FILE, UTC,
    VERIFY, arg_of,
};
use clap::{ArgGroup, Command, Error};
use std::alloc::Global;

// Each subcommand with its help and its words. Help lists them in this order.
const SUBCOMMANDS: [(&'static str, &'static str, &'static [Argument]); 14] = [
    (
        "show",
        "Shows every message of a FIT file, a line each",
        &[UTC, JSON, JSON_PROFILE, GPX, FILE],
    ),
    (
        "table",
        "Writes the values of a FIT file as a table (CSV): a line for each record, in units",
        &[
            UTC, RAW, PROFILE, MESSAGE, FIELDS, EACH, NULL, TABLE_FILE, MORE,
        ],
    ),
    (
        "check",
        "Says whether a FIT file is an activity, and sums it up in one line",
        &[EACH, NULL, EACH_JSON, FILE, MORE],
    ),
    (
        "replay",
        "Records a ride into a folder, as a script tells it",
        &[CHECKED, SCRIPT, FOLDER],
    ),
    (
        "record",
        "Records a ride into a folder, as the lines of standard input tell it, and answers each line",
        &[COMMIT, FOLDER],
    ),
    (
        "save",
        "Saves the ride of a folder as a plain FIT file, and writes nothing to the folder",
        &[EARLIER, FOLDER, OUT],
    ),
    (
        "repair",
        "Makes the recording of a folder whole again, and sums it up in one line",
        &[VERIFY, FOLDER],
    ),
    (
        "salvage",
        "Makes a FIT file of what is readable of a damaged one that has no journal; show and check say what it holds",
        &[ALL, SKIP, LIKE, PLAIN, FINISH, DAMAGED, OUT],
    ),
    (
        "split",
        "Writes each of the FIT files that are chained in one, at most 1,000, as 1.fit, 2.fit and so on",
        &[ALL_FILES, CHAINED, INTO],
    ),
    (
        "plain",
        "Makes the same FIT file with the time of every message written out, for readers that take compressed ones wrong",
        &[IN, OUT],
    ),
    (
        "shift",
        "Makes the same FIT file with every time in it moved, for a clock that was wrong; each time is written out, as plain does",
        &[BY, START, IN, OUT],
    ),
    (
        "join",
        "Makes one activity of several FIT files, the parts of a ride, in the order of their times; each time is written out, as plain does",
        &[AS_GIVEN, OUT, IN, OTHERS],
    ),
    (
        "simulate",
        "Runs a script over a disk in memory, whose calls fail and whose power goes where it says so",
        &[CHECKED, CHOICES, SCRIPT],
    ),
    (
        "version",
        "Prints the version, and the kit and the logic that it was proved by",
        &[],
    ),
];

// The program's whole command line.
pub(crate) fn fitrec_command<'a>(alloc: Global) -> Result<Command<'a>, Error> {
    let mut fitrec = Command::new(alloc, "fitrec")
        .no_binary_name(true)
        .bin_name("fitrec")?
        .about(
            "Records rides as FIT files, and reads the FIT files of sports watches and bicycle computers",
        )
        .subcommand_required(true);
    for &(name, about, arguments) in &SUBCOMMANDS {
        fitrec = fitrec.subcommand(command_of(alloc, name, about, arguments)?)?;
    }
    Ok(fitrec)
}

fn command_of<'a>(
    alloc: Global,
    name: &'a str,
    about: &'a str,
    arguments: &[Argument],
) -> Result<Command<'a>, Error> {
    let mut command = Command::new(alloc, name).about(about);
    let mut choice = ArgGroup::new(alloc, "choice");
    for &argument in arguments {
        command = command.arg(arg_of(alloc, argument)?)?;
        if let Argument::OneOf(name, _, _) = argument {
            choice = choice.arg(name)?.required(true);
        }
    }
    if choice.is_required_set() {
        command = command.group(choice)?;
    }
    Ok(command)
}
