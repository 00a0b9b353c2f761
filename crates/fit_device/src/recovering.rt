// What comes after a power cut, over files that C lends: a recovery, a reopening and an erasing.

ghost use Rattle.std.specs.Prelude.{◌≡◌, ◌+◌, ◌-◌, ◌≤◌, min, length, Err, IfErr, IfOk, IsErrOf, OnOk};
ghost use Rattle.fit_device.specs.Lending.{Begun, SyncsAndFinds};
ghost use Rattle.fit_device.specs.Recovering.{SoundFiles, AreLent, RecoversFiles, Reopens, Erases};
ghost use Rattle.fit_disk.specs.Calls.{IsSound};
ghost use Rattle.fit_disk.specs.State.{seen_in};
ghost use Rattle.fit_disk.specs.Story.{Story, seen_of};
ghost use Rattle.fit_disk.specs.declared.disk.Which.TheVariants.{Data, Journal};
ghost use Rattle.fit_plan.specs.Plan.{plan_story, plan_log};
ghost use Rattle.fit_recorder.specs.Calls.Recovery.{InRecovery, RecoveryAnswers};
ghost use Rattle.fit_recorder.specs.Calls.Ride.{MayGoOn, TakesUp};
ghost use Rattle.fit_recorder.specs.Calls.Windows.{AreAt, place_of};
ghost use Rattle.fit_recorder.specs.Files.Committed.{HasCounted};
ghost use Rattle.fit_recorder.specs.declared.fault.RecFault.TheVariants as faults;

use crate::answer::{code_of_fault, number_of};
use crate::files::Files;
use crate::handle::Handle;
use crate::plan::DevicePlan;
use fit_activity::Summary;
use fit_disk::Notes;
use fit_plan::{LentJournal, Plan};
use fit_recorder::{FoundRide, RecFault, Recovery, erase_known, settle};

// How many bytes of a file are read at once.
const WINDOW: usize = 512;

/// Plans the calls that turn the data file into the finished file of everything that was committed. The two slices are the whole
/// files. A recovery may be cut off anywhere and begun anew.
#[unsafe(no_mangle)]
pub extern "C" fn fitrec_recover(
    data_bytes: &[u8],
    journal_bytes: &[u8],
    plan: &mut DevicePlan,
) -> u8
    ghost before: { SoundFiles }
    ensures { AreLent before data_bytes.now journal_bytes.now
        → RecoversFiles before.story plan.new result }
{
    let mut files = lent(data_bytes, journal_bytes);
    match recover(&mut files, data_bytes, journal_bytes) {
        Ok(_) => {
            plan.fill(&files);
            0
        }
        Err(fault) => {
            plan.clear();
            number_of(&fault, data_bytes.len() as u64, journal_bytes)
        }
    }
}

/// Puts a recorder into the handle that continues the ride as it was committed, and plans the calls that cut off what comes
/// after that. The two slices are the whole files.
#[unsafe(no_mangle)]
pub extern "C" fn fitrec_reopen(
    handle: &mut Handle,
    data_bytes: &[u8],
    journal_bytes: &[u8],
    plan: &mut DevicePlan,
) -> u8
    ghost before: { SoundFiles }
    ensures { AreLent before data_bytes.now journal_bytes.now
        → Reopens before.story handle.new plan.new result }
{
    let mut files = lent(data_bytes, journal_bytes);
    match take_up(&mut files, data_bytes, journal_bytes) {
        Ok(ride) => {
            handle.put_ride(ride, Files::after(&files, plan));
            0
        }
        Err(fault) => {
            handle.leave();
            plan.clear();
            number_of(&fault, data_bytes.len() as u64, journal_bytes)
        }
    }
}

/// Plans the calls that empty the data file for the next start. The two slices are the whole files.
#[unsafe(no_mangle)]
pub extern "C" fn fitrec_erase(data_bytes: &[u8], journal_bytes: &[u8], plan: &mut DevicePlan) -> u8
    ghost before: { SoundFiles }
    ensures { AreLent before data_bytes.now journal_bytes.now
        → Erases before.story plan.new result }
{
    let mut files = lent(data_bytes, journal_bytes);
    match erase_known(&mut files, journal_bytes) {
        Ok(()) => {
            plan.fill(&files);
            0
        }
        Err(fault) => {
            plan.clear();
            code_of_fault(&fault)
        }
    }
}

// No calls yet, over files of which reads give these bytes.
fn lent(data_bytes: &[u8], _journal_bytes: &[u8]) -> Plan
    ghost before: { Story }
    requires sound { IsSound before.now }
    requires lent { (seen_of Data before ≡ data_bytes.now)
        × (seen_of Journal before ≡ _journal_bytes.now) }
    ensures story { plan_story result ≡ before }
    ensures begun { Begun result }
{
    Plan::over(data_bytes.len() as u64, Notes::over())
}

// As `recover` of fit_recorder does over these files.
fn recover(files: &mut Plan, data_bytes: &[u8], journal_bytes: &[u8]) -> Result<Summary, RecFault>
    requires begun { Begun files.old }
    requires lent { (seen_of Data (plan_story files.old) ≡ data_bytes.now)
        × (seen_of Journal (plan_story files.old) ≡ journal_bytes.now) }
    ensures decides { RecoveryAnswers (seen_in (plan_story files.old).now)
        (plan_story files.new) result }
    ensures checked { OnOk result
        (HasCounted (seen_of Journal (plan_story files.old))
        (seen_of Data (plan_story files.new))) }
    ensures any_moment { InRecovery (plan_story files.old) (plan_story files.new) }
    ensures memory { (plan_log files.new).memory ≡ (plan_log files.old).memory }
    ensures no_device { IsErrOf result faults.Device → ⊥ }
{
    let mut recovery = Recovery::idle();
    find(files, journal_bytes, &mut recovery)?;
    loop {
        if let Some(answer) = recovery.go_on(files, next_window(&recovery, data_bytes)) {
            return answer;
        }
    }
}

// As `take_up` of fit_recorder does over these files.
fn take_up(files: &mut Plan, data_bytes: &[u8], journal_bytes: &[u8]) -> Result<FoundRide, RecFault>
    requires begun { Begun files.old }
    requires lent { (seen_of Data (plan_story files.old) ≡ data_bytes.now)
        × (seen_of Journal (plan_story files.old) ≡ journal_bytes.now) }
    ensures taken { TakesUp (seen_in (plan_story files.old).now) (plan_story files.new) result }
    ensures goes_on { IfOk result MayGoOn }
    ensures checked { OnOk result
        (HasCounted (seen_of Journal (plan_story files.old))
        (seen_of Data (plan_story files.new))) }
    ensures any_moment { InRecovery (plan_story files.old) (plan_story files.new) }
    ensures memory { (plan_log files.new).memory ≡ (plan_log files.old).memory }
    ensures no_device { IsErrOf result faults.Device → ⊥ }
{
    let mut recovery = Recovery::idle();
    find(files, journal_bytes, &mut recovery)?;
    loop {
        if let Some(answer) = recovery.take_up_on(files, next_window(&recovery, data_bytes)) {
            return answer;
        }
    }
}

// Syncs both files, and finds in the journal how much is committed.
fn find(files: &mut Plan, journal_bytes: &[u8], recovery: &mut Recovery) -> Result<(), RecFault>
    requires begun { Begun files.old }
    requires lent { seen_of Journal (plan_story files.old) ≡ journal_bytes.now }
    ensures found { OnOk result (SyncsAndFinds files.old files.new recovery.new) }
    ensures refused { IfErr result (λ fault.
        RecoveryAnswers (seen_in (plan_story files.old).now) (plan_story files.new) (Err fault)) }
    ensures no_device { IsErrOf result faults.Device → ⊥ }
    ensures any_moment { InRecovery (plan_story files.old) (plan_story files.new) }
    ensures memory { (plan_log files.new).memory ≡ (plan_log files.old).memory }
{
    settle(files)?;
    let mut journal = LentJournal::over(files.size, files.notes.same(), journal_bytes, true);
    recovery.begin(&mut journal)
}

// What a recovery reads next of the data file.
fn next_window<'a>(recovery: &Recovery, data_bytes: &'a [u8]) -> &'a [u8]
    requires { place_of recovery.now +
        (recovery.now.reader.len - recovery.now.reader.at) ≤ length data_bytes.now }
    ensures at { AreAt (place_of recovery.now) result.now data_bytes.now }
    ensures long { length result.now ≡ min 512 (recovery.now.reader.len - recovery.now.reader.at) }
{
    let from = recovery.place() as usize;
    let count = WINDOW.min(recovery.left() as usize);
    &data_bytes[from..from + count]
}
