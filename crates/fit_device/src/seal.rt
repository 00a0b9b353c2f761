// The check code by which a handle that is none is recognized.

ghost use Rattle.std.specs.Prelude.{◌≡◌};
ghost use Rattle.std.specs.List.{fold};
ghost use Rattle.fit_device.specs.Seal.{with_number, sealed_with, with_short_definition, sums_numbers, totals_numbers, recorder_numbers, reading_numbers, seal_of, recovery_seal};

use fit_activity::{FrozenSums, FrozenTotals};
use fit_base::Crc;
use fit_grammar::FrozenShort;
use fit_recorder::{FrozenDefinition, FrozenRecorder, FrozenRecovery};

// How many numbers say what a recovery asks for.
pub(crate) const ASKED: usize = 6;

// The check code of a recorder's numbers.
pub(crate) fn seal_of(recorder: &FrozenRecorder, data_size: u64) -> u16
    ensures { result ≡ seal_of recorder.now data_size }
{
    let mut check = Crc::new();
    add_numbers(&mut check, &[data_size]);
    add_totals(&mut check, &recorder.totals);
    add_numbers(&mut check, &recorder_numbers(recorder));
    check.add(&recorder.page);
    add_definitions(&mut check, &recorder.definitions);
    check.value()
}

// The check code of the numbers of a recovery by windows, with what it asks for.
pub(crate) fn seal_of_recovery(recovery: &FrozenRecovery, asked: &[u64; ASKED]) -> u16
    ensures { result ≡ recovery_seal recovery.now asked.now }
{
    let mut check = Crc::new();
    add_numbers(&mut check, asked);
    add_totals(&mut check, &recovery.heard.totals);
    add_numbers(&mut check, &reading_numbers(recovery));
    add_short_definitions(&mut check, &recovery.definitions);
    check.value()
}

fn add_numbers(check: &mut Crc, numbers: &[u64])
    ensures { check.new ≡ fold with_number check.old numbers.now }
{
    for number in numbers {
        check.add(&number.to_le_bytes());
    }
}

fn add_definitions(check: &mut Crc, definitions: &[FrozenDefinition])
    ensures { check.new ≡ fold sealed_with check.old definitions.now }
{
    for definition in definitions {
        check.add(&definition.bytes);
        check.add(&u64::from(definition.len).to_le_bytes());
    }
}

fn add_short_definitions(check: &mut Crc, definitions: &[FrozenShort])
    ensures { check.new ≡ fold with_short_definition check.old definitions.now }
{
    for definition in definitions {
        check.add(&definition.bytes);
        check.add(&u64::from(definition.len).to_le_bytes());
    }
}

// Adds the totals, a part at a time: fewer numbers lie on the stack.
fn add_totals(check: &mut Crc, totals: &FrozenTotals)
    ensures { check.new ≡ fold with_number check.old (totals_numbers totals.now) }
{
    let clock = &totals.clock;
    add_numbers(check, &sums_numbers(&totals.whole));
    add_numbers(check, &sums_numbers(&totals.lap));
    add_numbers(
        check,
        &[
            u64::from(clock.start),
            u64::from(clock.end),
            u64::from(clock.lap),
            u64::from(clock.timer),
            u64::from(clock.lap_timer),
            u64::from(clock.running),
        ],
    );
    add_numbers(
        check,
        &[
            u64::from(totals.time),
            u64::from(totals.serial),
            u64::from(totals.distance),
            u64::from(totals.laps),
            u64::from(totals.sport),
            u64::from(totals.stopped),
            u64::from(totals.has_distance),
        ],
    );
}

fn sums_numbers(sums: &FrozenSums) -> [u64; 11]
    ensures { result ≡ sums_numbers sums.now }
{
    [
        sums.heart_rate.total,
        sums.heart_rate.count,
        u64::from(sums.heart_rate.greatest),
        u64::from(sums.heart_rate.has_greatest),
        sums.power.total,
        sums.power.count,
        u64::from(sums.power.greatest),
        u64::from(sums.power.has_greatest),
        u64::from(sums.known),
        u64::from(sums.speed),
        u64::from(sums.has_speed),
    ]
}

// The numbers of a recorder besides its totals, page and definitions.
fn recorder_numbers(recorder: &FrozenRecorder) -> [u64; 16]
    ensures { result ≡ recorder_numbers recorder.now }
{
    let journal = &recorder.journal;
    [
        u64::from(journal.first),
        u64::from(journal.second),
        u64::from(journal.third),
        u64::from(journal.first_checksum),
        u64::from(journal.second_checksum),
        u64::from(journal.third_checksum),
        u64::from(journal.form),
        u64::from(journal.has_first),
        u64::from(journal.has_second),
        u64::from(journal.has_third),
        u64::from(recorder.len),
        u64::from(recorder.crc32),
        u64::from(recorder.checksum),
        u64::from(recorder.page_len),
        u64::from(recorder.turn),
        u64::from(recorder.failed),
    ]
}

// The numbers of a recovery besides its totals and definitions.
fn reading_numbers(recovery: &FrozenRecovery) -> [u64; 17]
    ensures { result ≡ reading_numbers recovery.now }
{
    let journal = &recovery.journal;
    [
        u64::from(journal.first),
        u64::from(journal.second),
        u64::from(journal.third),
        u64::from(journal.first_checksum),
        u64::from(journal.second_checksum),
        u64::from(journal.third_checksum),
        u64::from(journal.form),
        u64::from(journal.has_first),
        u64::from(journal.has_second),
        u64::from(journal.has_third),
        u64::from(recovery.heard.records),
        u64::from(recovery.heard.kind),
        u64::from(recovery.time),
        u64::from(recovery.at),
        u64::from(recovery.len),
        u64::from(recovery.crc32),
        u64::from(recovery.checksum),
    ]
}
