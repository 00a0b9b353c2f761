// The two real files of a folder.

use super::Call::{self, Cut, Read, Size, Sync, Write};
use crate::equality::equal;
use Step::{Becomes, Fails, Gives, Holds, Locks, Passes};
use fit_disk::Which::{Data, Journal};
use fit_disk::{DeviceError, Disk, Files, OpenFault, Shadow, Trusting, Which, Witness};
use std::fs::{self, Permissions};
use std::io;
use std::os::unix::fs::PermissionsExt;
use std::process::Abort;
use std::test::Fail;

// A call of the files, and what it has to answer.
#[derive(Drop)]
enum Step {
    Passes(Call),
    // A number, and what is in the buffer then, which had eight dots before.
    Gives(Call, u64, &'static [u8]),
    Fails(Call),
    // Nobody else can open the files of the folder meanwhile.
    Locks(&'static str),
    // Another program finds these bytes in the file of this path.
    Holds(&'static str, &'static [u8]),
    // Another program makes these bytes of it.
    Becomes(&'static str, &'static [u8]),
}

// Takes these steps with the files of this folder, under a witness.
fn follow_under<W: Witness>(
    rt: &impl Abort,
    host: &HostRuntime,
    folder: &str,
    witness: W,
    steps: &[Step],
) -> Result<(), Fail> {
    let mut files = Files::open(host, folder, witness)?;
    follow(rt, host, &mut files, steps)
}

// Takes these steps, one after another.
fn follow<W: Witness>(
    rt: &impl Abort,
    host: &HostRuntime,
    files: &mut Files<W>,
    steps: &[Step],
) -> Result<(), Fail> {
    for step in steps {
        take(rt, host, files, step)?;
    }
    Ok(())
}

fn take<W: Witness>(
    rt: &impl Abort,
    host: &HostRuntime,
    files: &mut Files<W>,
    step: &Step,
) -> Result<(), Fail> {
    match step {
        Passes(call) => {
            make(files, &mut [0; 8], call)?;
        }
        Gives(call, number, expected) => expect_answer(rt, files, call, *number, expected)?,
        Fails(call) => equal(rt, make(files, &mut [0; 8], call), Err(DeviceError)),
        Locks(folder) => equal(rt, is_refused(host, folder), true),
        Holds(path, content) => expect_file(rt, host, path, content)?,
        Becomes(path, content) => make_file(host, path, content)?,
    }
    Ok(())
}

fn expect_answer<W: Witness>(
    rt: &impl Abort,
    files: &mut Files<W>,
    call: &Call,
    number: u64,
    expected: &[u8],
) -> Result<(), DeviceError> {
    let mut buffer = *b"........";
    let answer = make(files, &mut buffer, call)?;
    equal(rt, (answer, buffer.as_slice()), (number, expected));
    Ok(())
}

fn expect_file(
    rt: &impl Abort,
    host: &HostRuntime,
    path: &str,
    content: &[u8],
) -> Result<(), Fail> {
    equal(rt, fs::read(host, path)?.as_slice(), content);
    Ok(())
}

fn make_file(host: &HostRuntime, path: &str, content: &[u8]) -> io::Result<()> {
    fs::write(host, path, content)
}

// Makes a call. Returns the size, the number of bytes that were read, or 0.
fn make<W: Witness>(
    files: &mut Files<W>,
    buffer: &mut [u8; 8],
    call: &Call,
) -> Result<u64, DeviceError> {
    match call {
        Write(which, at, bytes) => write(files, *which, *at as u64, bytes)?,
        Cut(which, len) => cut(files, *which, *len as u64)?,
        Sync(which) => files.sync(*which)?,
        Size(which) => return files.size(*which),
        Read(which, at, room) => {
            let count = files.read(*which, *at, &mut buffer[..(*room).min(8)])?;
            return Ok(count as u64);
        }
    }
    Ok(0)
}

// Writes at a place, or at the end of a shorter file.
fn write<W: Witness>(
    files: &mut Files<W>,
    which: Which,
    at: u64,
    bytes: &[u8],
) -> Result<(), DeviceError> {
    let at = at.min(files.size(which)?);
    files.write(which, at, bytes)
}

// Cuts to a length, or leaves a shorter file as long as it is.
fn cut<W: Witness>(files: &mut Files<W>, which: Which, len: u64) -> Result<(), DeviceError> {
    let len = len.min(files.size(which)?);
    files.cut(which, len)
}

// Makes this folder anew.
fn make_folder(rt: &HostRuntime, folder: &str) -> io::Result<()> {
    let _ = fs::remove_dir_all(rt, folder);
    fs::create_dir(rt, folder)
}

// Whether the files of the folder cannot be opened.
fn is_refused(rt: &HostRuntime, folder: &str) -> bool {
    matches!(Files::open(rt, folder, Trusting), Err(OpenFault::Open))
}

// No file is so long.
fn expect_too_long(rt: &impl Abort, host: &HostRuntime, folder: &str) -> Result<(), Fail> {
    let mut files = Files::open(host, folder, Trusting)?;
    equal(rt, files.write(Data, u64::MAX, b"x"), Err(DeviceError));
    equal(
        rt,
        files.read(Data, u64::MAX, &mut [0; 6]),
        Err(DeviceError),
    );
    equal(rt, files.cut(Data, u64::MAX), Err(DeviceError));
    equal(rt, files.size(Data)?, 5);
    Ok(())
}

static KEPT: [Step; 11] = [
    Gives(Size(Data), 0, b"........"),
    Passes(Write(Data, 0, b"abcd")),
    Passes(Write(Data, 2, b"XYZ")),
    Passes(Write(Journal, 0, b"journal")),
    Passes(Cut(Journal, 1)),
    Gives(Read(Data, 1, 6), 4, b"bXYZ...."),
    Gives(Read(Data, 5, 6), 0, b"........"),
    Gives(Size(Journal), 1, b"........"),
    Passes(Sync(Data)),
    Passes(Sync(Journal)),
    Locks("fit_disk_test_kept"),
];

static FOUND: [Step; 3] = [
    Gives(Read(Data, 0, 5), 5, b"abXYZ..."),
    Holds("fit_disk_test_kept/activity.fit", b"abXYZ"),
    Holds("fit_disk_test_kept/activity.frj", b"j"),
];

#[test]
fn files_are_made_and_keep_what_was_written(rt: HostRuntime) -> Result<(), Fail> {
    let folder = "fit_disk_test_kept";
    make_folder(&rt, folder)?;
    follow_under(&rt, &rt, folder, Trusting, &KEPT)?;
    expect_too_long(&rt, &rt, folder)?;
    follow_under(&rt, &rt, folder, Trusting, &FOUND)?;
    fs::remove_dir_all(&rt, folder)?;
    Ok(())
}

#[test]
fn a_folder_that_cannot_hold_the_files_is_refused(rt: HostRuntime) -> Result<(), Fail> {
    let folder = "fit_disk_test_refused";
    let _ = fs::remove_dir_all(&rt, folder);
    assert!(rt; is_refused(&rt, folder));
    fs::create_dir(&rt, folder)?;
    fs::create_dir(&rt, "fit_disk_test_refused/activity.frj")?;
    assert!(rt; is_refused(&rt, folder));
    fs::remove_dir_all(&rt, folder)?;
    let codes = [OpenFault::Open.code(), OpenFault::Memory.code()];
    equal(&rt, codes, [1, 2]);
    Ok(())
}

#[test]
fn a_folder_that_cannot_be_written_is_refused(rt: HostRuntime) -> Result<(), Fail> {
    let folder = "fit_disk_test_unwritable";
    make_folder(&rt, folder)?;
    fs::set_permissions(&rt, folder, Permissions::from_mode(0o555))?;
    // A user who may write everywhere creates a file there all the same.
    assert!(rt;
        make_file(&rt, "fit_disk_test_unwritable/other", b"").is_ok() || is_refused(&rt, folder)
    );
    fs::set_permissions(&rt, folder, Permissions::from_mode(0o755))?;
    fs::remove_dir_all(&rt, folder)?;
    Ok(())
}

// Opens the files again if memory was refused.
fn open_again(rt: &HostRuntime, folder: &str) -> Result<Files<Trusting>, OpenFault> {
    match Files::open(rt, folder, Trusting) {
        Err(OpenFault::Memory) => Files::open(rt, folder, Trusting),
        opened => opened,
    }
}

// Run with each allocation refused in turn: want of memory is reported as such, and the next call succeeds.
#[test]
fn want_of_memory_is_reported(rt: HostRuntime) -> Result<(), Fail> {
    let folder = "fit_disk_test_memory";
    make_folder(&rt, folder)?;
    equal(&rt, open_again(&rt, folder)?.size(Data)?, 0);
    fs::remove_dir_all(&rt, folder)?;
    Ok(())
}

// Also at the end of a file.
static AGREES: [Step; 11] = [
    Passes(Write(Data, 3, b"YZ")),
    Passes(Cut(Journal, 1)),
    Gives(Size(Data), 5, b"........"),
    Gives(Size(Journal), 1, b"........"),
    Gives(Read(Data, 1, 6), 4, b"bXYZ...."),
    Gives(Read(Data, 5, 6), 0, b"........"),
    Gives(Read(Journal, 0, 1), 1, b"j......."),
    Gives(Read(Journal, 0, 0), 0, b"........"),
    Passes(Sync(Data)),
    Passes(Sync(Journal)),
    Gives(Read(Data, 4, 1), 1, b"Z......."),
];

#[test]
fn answers_that_agree_pass_a_shadow(rt: HostRuntime) -> Result<(), Fail> {
    let folder = "fit_disk_test_agrees";
    make_folder(&rt, folder)?;
    make_file(&rt, "fit_disk_test_agrees/activity.fit", b"abXY")?;
    make_file(&rt, "fit_disk_test_agrees/activity.frj", b"journal")?;
    let shadow = Shadow::holding(rt.alloc(), b"abXY", b"journal")?;
    follow_under(&rt, &rt, folder, shadow, &AGREES)?;
    fs::remove_dir_all(&rt, folder)?;
    Ok(())
}

const CHANGED: &str = "fit_disk_test_disagrees/activity.fit";

static CHANGES: [Step; 17] = [
    Passes(Write(Data, 0, b"abXYZ")),
    Passes(Sync(Data)),
    // One bit differs.
    Becomes(CHANGED, b"abXY["),
    Gives(Size(Data), 5, b"........"),
    Gives(Read(Data, 0, 4), 4, b"abXY...."),
    Fails(Read(Data, 0, 8)),
    // The file is empty, a byte short, or a byte longer.
    Becomes(CHANGED, b""),
    Fails(Size(Data)),
    Fails(Read(Data, 0, 8)),
    Becomes(CHANGED, b"abXY"),
    Fails(Size(Data)),
    Fails(Read(Data, 0, 8)),
    Becomes(CHANGED, b"abXYZ\0"),
    Fails(Size(Data)),
    Fails(Read(Data, 0, 8)),
    Becomes(CHANGED, b"abXYZ"),
    Gives(Read(Data, 0, 8), 5, b"abXYZ..."),
];

// A change by another program is refused when it is read. Once the file is as before, answers pass again.
#[test]
fn an_answer_that_does_not_agree_is_refused(rt: HostRuntime) -> Result<(), Fail> {
    let folder = "fit_disk_test_disagrees";
    make_folder(&rt, folder)?;
    let shadow = Shadow::holding(rt.alloc(), b"", b"")?;
    follow_under(&rt, &rt, folder, shadow, &CHANGES)?;
    fs::remove_dir_all(&rt, folder)?;
    Ok(())
}
