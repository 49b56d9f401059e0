//! The two files of a machine as a volume: files of the machine itself, in the folder where the
//! test runs.

ghost use Rattle.std.specs.Prelude.{◌≤◌, ◌+◌, ◌^◌, length};

mod on_the_machine;

use outside_io::{Failed, FileVolume, VolFile, Volume};
use std::alloc::Global;
use std::process::Abort;
use std::rt::Files;

const BOTH: [VolFile; 2] = [VolFile::Bundle, VolFile::Journal];

fn other(file: VolFile) -> VolFile {
    match file {
        VolFile::Bundle => VolFile::Journal,
        VolFile::Journal => VolFile::Bundle,
    }
}

fn volume_of<R: Files + Drop>(
    rt: &impl Abort,
    alloc: Global,
    files: R,
    bundle: &str,
    journal: &str,
) -> FileVolume<R> {
    let bundle = String::from_str(alloc, bundle).expect(rt, "memory");
    let journal = String::from_str(alloc, journal).expect(rt, "memory");
    FileVolume::new(files, bundle, journal)
}

// The five calls without what they promise: the run shows what they do, and a test that is told
// less is proved sooner.

fn len<R: Files + Drop>(vol: &mut FileVolume<R>, file: VolFile) -> Result<u64, Failed> {
    vol.len(file)
}

fn read<R: Files + Drop>(
    vol: &mut FileVolume<R>,
    file: VolFile,
    at: u64,
    buf: &mut [u8],
) -> Result<usize, Failed> {
    vol.read(file, at, buf)
}

fn write<R: Files + Drop>(
    vol: &mut FileVolume<R>,
    file: VolFile,
    at: u64,
    bytes: &[u8],
) -> Result<(), Failed>
    requires { at + length bytes.now ≤ 2 ^ 62 }
{
    vol.write(file, at, bytes)
}

fn cut<R: Files + Drop>(vol: &mut FileVolume<R>, file: VolFile, len: u64) -> Result<(), Failed> {
    vol.cut(file, len)
}

fn sync<R: Files + Drop>(vol: &mut FileVolume<R>, file: VolFile) -> Result<(), Failed> {
    vol.sync(file)
}

// Which of the five calls are Ok.
fn calls<R: Files + Drop>(vol: &mut FileVolume<R>, file: VolFile) -> [bool; 5] {
    let mut buf = [0; 5];
    [
        len(vol, file).is_ok(),
        read(vol, file, 0, &mut buf).is_ok(),
        write(vol, file, 0, b"abcde").is_ok(),
        cut(vol, file, 3).is_ok(),
        sync(vol, file).is_ok(),
    ]
}
