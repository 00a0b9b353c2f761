//! Laws of the definitions in `specs/`. Each is the contract of a function that does nothing.

ghost use Rattle.fit_runs.specs.Rides.Lost.{LosesLastSeconds};

/// A recording that commits by itself every so many seconds loses by a power cut at most the entries of that many seconds before the last
/// one of the lines that are done, as long as each commit was ok.
pub fn at_most_the_last_seconds_are_lost()
    ensures { LosesLastSeconds }
{}
