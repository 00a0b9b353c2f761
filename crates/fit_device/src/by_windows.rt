// What comes after a power cut, where C reads a window of a file at a time: a recovery, a reopening and an erasing.

ghost use Rattle.std.specs.Prelude.{◌≡◌};
ghost use Rattle.fit_device.specs.Asking.{finding_phase};
ghost use Rattle.fit_device.specs.Windowed.{BeginsRecovery, TakesJournalWindow, TakesWindow, ReadsRide, ReopensOn, ErasesOn, IsRecovery, IsShort, recovery_story};
ghost use Rattle.fit_device.specs.Planned.{Leads};
ghost use Rattle.fit_disk.specs.Story.{Story};
ghost use Rattle.fit_recorder.specs.Calls.FaultCode.{fault_code};
ghost use Rattle.fit_recorder.specs.declared.fault.RecFault.TheVariants.{Device};

use crate::answer::{NEEDS_WINDOW, NO_RECORDER, code_of_fault, number_of};
use crate::files::Files;
use crate::handle::{Handle, no_files};
use crate::plan::DevicePlan;
use crate::windowed::{FINDS, RecoveryHandle};
use fit_recorder::{FoundRide, RecFault, Recovery, erase_known, settle};

/// Begins a recovery, a reopening or an erasing: plans a sync of each file, and asks for the journal.
#[unsafe(no_mangle)]
pub extern "C" fn fitrec_recover_begin(recovery: &mut RecoveryHandle, plan: &mut DevicePlan) -> u8
    ensures { BeginsRecovery recovery.old recovery.new plan.new result }
{
    let journal_size = recovery.journal_size;
    let mut files = recovery.take_files();
    let answer = settle(&mut files);
    let files = Files::after(&files, plan);
    match answer {
        Ok(()) => {
            let count = journal_size.min(512) as u16;
            recovery.ask(files, journal_size, FINDS, 0, count);
            NEEDS_WINDOW
        }
        Err(_) => {
            recovery.put_files(files, journal_size);
            code_of_fault(&RecFault::Device)
        }
    }
}

/// Goes on with the window that was asked for: asks for the next one, or ends as `fitrec_recover` does.
#[unsafe(no_mangle)]
pub extern "C" fn fitrec_recover_next(recovery: &mut RecoveryHandle, plan: &mut DevicePlan) -> u8
    ensures { TakesWindow recovery.old recovery.new plan.new result }
{
    if !recovery.is_recovery() {
        plan.clear();
        return NO_RECORDER;
    }
    if recovery.is_short() {
        return fails(recovery, plan);
    }
    if recovery.phase == FINDS {
        find_body(recovery, plan)
    } else {
        read_body(recovery, plan)
    }
}

/// Goes on with the window that was asked for: asks for the next one, or ends as `fitrec_reopen` does. Until then the handle stays
/// as it is.
#[unsafe(no_mangle)]
pub extern "C" fn fitrec_reopen_next(
    recovery: &mut RecoveryHandle,
    handle: &mut Handle,
    plan: &mut DevicePlan,
) -> u8
    ensures { ReopensOn recovery.old recovery.new handle.old handle.new plan.new result }
{
    if !recovery.is_recovery() {
        plan.clear();
        return NO_RECORDER;
    }
    if recovery.is_short() {
        return fails(recovery, plan);
    }
    if recovery.phase == FINDS {
        return find_body(recovery, plan);
    }
    match read_ride(recovery, plan) {
        Ok((ride, files)) => {
            handle.put_ride(ride, files);
            0
        }
        Err(code) => code,
    }
}

/// Ends as `fitrec_erase` does, with the window of the journal that `fitrec_recover_begin` asked for.
#[unsafe(no_mangle)]
pub extern "C" fn fitrec_erase_next(recovery: &mut RecoveryHandle, plan: &mut DevicePlan) -> u8
    ensures { ErasesOn recovery.old recovery.new plan.new result }
{
    if !recovery.asks_for_journal() {
        plan.clear();
        return NO_RECORDER;
    }
    if recovery.lacks_front() {
        return fails(recovery, plan);
    }
    let mut files = recovery.take_files();
    match erase_known(&mut files, recovery.given()) {
        Ok(()) => {
            plan.fill(&files);
            0
        }
        Err(fault) => {
            plan.clear();
            code_of_fault(&fault)
        }
    }
}

// Ends with the fault of a call that failed, since the window has too little.
fn fails(recovery: &mut RecoveryHandle, plan: &mut DevicePlan) -> u8
    ensures code { result ≡ fault_code Device }
    ensures ended { IsRecovery recovery.new → ⊥ }
    ensures story { recovery_story recovery.new ≡ recovery_story recovery.old }
    ensures none { plan.new.count ≡ 0 }
    ensures leads { (story : Story) → Leads plan.new story story }
{
    recovery.leave();
    plan.clear();
    code_of_fault(&RecFault::Device)
}

// Finds in the journal how much is committed.
// Not inlined, like the next: only one of them takes its stack.
#[inline(never)]
fn find_body(handle: &mut RecoveryHandle, plan: &mut DevicePlan) -> u8
    requires asks { IsRecovery handle.old }
    requires finds { handle.old.phase ≡ finding_phase }
    requires full { IsShort handle.old → ⊥ }
    ensures { TakesJournalWindow handle.old handle.new plan.new result }
{
    let mut recovery = Recovery::idle();
    let journal_size = handle.journal_size;
    let files = handle.take_files();
    let mut journal = handle.lend(&files, journal_size);
    let answer = recovery.begin(&mut journal);
    let files = Files::after(&files, plan);
    match answer {
        Ok(()) => {
            handle.ask_for_body(files, journal_size, &recovery);
            NEEDS_WINDOW
        }
        Err(fault) => {
            let code = number_of(&fault, files.size, handle.given());
            handle.put_files(files, journal_size);
            code
        }
    }
}

// Reads on in the body.
#[inline(never)]
fn read_body(handle: &mut RecoveryHandle, plan: &mut DevicePlan) -> u8
    requires asks { IsRecovery handle.old }
    requires reads { handle.old.phase ≡ finding_phase → ⊥ }
    requires full { IsShort handle.old → ⊥ }
    ensures { TakesWindow handle.old handle.new plan.new result }
{
    let mut recovery = Recovery::idle();
    let journal_size = handle.journal_size;
    let mut files = no_files();
    handle.take_reading(&mut recovery, &mut files);
    let answer = recovery.go_on(&mut files, handle.given());
    let files = Files::after(&files, plan);
    match answer {
        None => {
            handle.ask_for_body(files, journal_size, &recovery);
            NEEDS_WINDOW
        }
        Some(answer) => {
            handle.put_files(files, journal_size);
            match answer {
                Ok(_) => 0,
                Err(fault) => code_of_fault(&fault),
            }
        }
    }
}

// Reads on in the body of a ride that is reopened. It returns the ride and the files once it is taken up, and else the code.
#[inline(never)]
fn read_ride(handle: &mut RecoveryHandle, plan: &mut DevicePlan) -> Result<(FoundRide, Files), u8>
    requires asks { IsRecovery handle.old }
    requires reads { handle.old.phase ≡ finding_phase → ⊥ }
    requires full { IsShort handle.old → ⊥ }
    ensures { ReadsRide handle.old handle.new plan.new result }
{
    let mut recovery = Recovery::idle();
    let journal_size = handle.journal_size;
    let mut files = no_files();
    handle.take_reading(&mut recovery, &mut files);
    let answer = recovery.take_up_on(&mut files, handle.given());
    let files = Files::after(&files, plan);
    match answer {
        None => {
            handle.ask_for_body(files, journal_size, &recovery);
            Err(NEEDS_WINDOW)
        }
        Some(answer) => match answer {
            Ok(ride) => Ok((ride, files)),
            Err(fault) => {
                handle.put_files(files, journal_size);
                Err(code_of_fault(&fault))
            }
        },
    }
}
