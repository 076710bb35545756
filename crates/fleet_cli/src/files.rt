//! Inputs and files, read whole; stores of files, the disk, and the files that a command names.

ghost use Rattle.std.specs.Prelude.{◌≡◌, ◌≤◌, ◌+◌, ◌↔◌, Err, None, Option, IfOk, IfErr, IfSome, IsTrue, MatchResult, OnOk, length};
ghost use Rattle.fleet_cli.specs.Files.{Store, HoldsBytes, IsUnreadable, AreUnchanged, ChangesOnly, Replaces, IsOwnLog, BeginsLog, PutsBehind, whole_lines, IsGivenAs, IsUnread, IsGiven, given_name, given_names, AreTexts};
ghost use Rattle.fleet_cli.specs.Command.{names_for};
ghost use Rattle.fleet_cli.specs.Output.{WritesGiven};

use crate::fault::Fault;
use fleet_args::Tasks;
use fleet_text::{WriteOut, put_all};
use std::alloc::Global;
use std::fs::{OpenFile, OpenOptions};
use std::io::Read;
use std::path::Path;
use std::{fs, rt};
use thiserror::Error;

/// Why a file or an input was not read, or a file not written.
#[derive(Clone, Copy, Debug, Error)]
pub enum FileFault {
    #[error("out of memory")]
    OutOfMemory,
    /// It cannot be read or written, or has more than `MAX_BYTES` bytes.
    #[error("the file cannot be read or written")]
    Failed,
}

/// The greatest number of bytes of a file or an input that is read.
pub const MAX_BYTES: usize = 268_435_456;

/// How many bytes are asked for at a time.
pub const CHUNK: usize = 4_096;

/// Whether so many bytes more make no more than `MAX_BYTES`.
fn has_room(held: usize, count: usize) -> bool
    requires { held ≤ MAX_BYTES }
    ensures { IsTrue result ↔ held + count ≤ MAX_BYTES }
{
    count <= MAX_BYTES - held
}

/// All bytes of the reader, by way of the chunk. Errors: `Failed` if a read fails or is interrupted, or if there are
/// more than `MAX_BYTES` bytes, and `OutOfMemory`.
pub fn read_whole<R: Read>(
    alloc: Global,
    reader: &mut R,
    chunk: &mut [u8; CHUNK],
) -> Result<Vec<u8>, FileFault>
    ensures whole { IfOk result (λ bytes. IfSome (R.remaining reader.old)
        (λ rest. bytes.items ≡ rest)) }
    ensures within { IfOk result (λ bytes. length bytes.items ≤ MAX_BYTES) }
{
    let mut bytes = Vec::new(alloc);
    'chunks: loop {
        let count = match reader.read(&mut chunk[..]) {
            Ok(count) => count,
            Err(_) => return Err(FileFault::Failed),
        };
        if count == 0 {
            return Ok(bytes);
        }
        if !has_room(bytes.len(), count) {
            return Err(FileFault::Failed);
        }
        if bytes.extend_from_slice(&chunk[..count]).is_err() {
            return Err(FileFault::OutOfMemory);
        }
    }
}

/// A store of files, each with its bytes under its name.
pub trait Files {
    ghost use Rattle.std.specs.Prelude.{ℕ, List, Option, ⊤};
    ghost use Rattle.fleet_cli.specs.declared.files.FileFault.{FileFault};

    /// The bytes of each file by its name, if the store says what it holds.
    ghost contents: { Self → Option Store };

    /// Whether a read of the named file may end in this fault.
    ghost refuses_read: { Self → List ℕ → FileFault → Type 0 } = { λ _ _ _. ⊤ };

    /// Whether a write of the named file may end in this fault.
    ghost refuses_write: { Self → List ℕ → FileFault → Type 0 } = { λ _ _ _. ⊤ };

    /// The whole file. Errors: `OutOfMemory`, or `Failed` if it cannot be read or has more than `MAX_BYTES` bytes; a
    /// store that says what it holds answers `Failed` only if there is no such file or it has more.
    fn read(&mut self, alloc: Global, name: &str) -> Result<Vec<u8>, FileFault>
        ensures bytes { IfOk result (λ bytes. HoldsBytes (contents self.old) name.now bytes.items) }
        ensures within { IfOk result (λ bytes. length bytes.items ≤ MAX_BYTES) }
        ensures refused { IfErr result (refuses_read self.old name.now) }
        ensures unreadable { result ≡ Err FileFault.Failed
            → IsUnreadable (contents self.old) name.now }
        ensures kept { AreUnchanged (contents self.old) (contents self.new) };

    /// Makes the file hold the bytes. After a refusal it may hold any bytes.
    fn write(&mut self, name: &str, bytes: &[u8]) -> Result<(), FileFault>
        ensures replaced { OnOk result
            (Replaces (contents self.old) (contents self.new) name.now bytes.now) }
        ensures refused { IfErr result (refuses_write self.old name.now) }
        ensures others { ChangesOnly (contents self.old) (contents self.new) name.now };

    /// Begins the log of a dispatch that goes on after the bytes `past`: of a file that holds nothing or just these it
    /// cuts off what stands behind the last LF, and one that is not there is begun. If it holds something else it
    /// answers `false`, and every file is as it was. After a refusal it may hold any bytes.
    fn begin_log(&mut self, alloc: Global, name: &str, past: &[u8]) -> Result<bool, FileFault>
        ensures begun { IfOk result
            (BeginsLog (contents self.old) (contents self.new) name.now past.now) }
        ensures refused { IfErr result (refuses_write self.old name.now) }
        ensures others { ChangesOnly (contents self.old) (contents self.new) name.now };

    /// Puts the bytes behind those of the file, and stores them before it answers; a file that is not there is begun or
    /// refused. After a refusal a front of them stands there, or all, or none.
    fn append(&mut self, name: &str, bytes: &[u8]) -> Result<(), FileFault>
        ensures grown { PutsBehind (contents self.old) (contents self.new) name.now result
            bytes.now }
        ensures refused { IfErr result (refuses_write self.old name.now) }
        ensures others { ChangesOnly (contents self.old) (contents self.new) name.now };
}

/// The whole lines: the bytes up to the last LF, and with it.
pub fn whole_lines(bytes: &[u8]) -> &[u8]
    ensures { result.now ≡ whole_lines bytes.now }
{
    let mut end = bytes.len();
    while end > 0 {
        let ends_line = bytes[end - 1] == b'\n';
        if ends_line {
            return &bytes[..end];
        }
        end -= 1;
    }
    &[]
}

/// Whether a log that holds so much is one of a dispatch that goes on after the bytes `past`.
pub fn is_own_log(held: &[u8], past: &[u8]) -> bool
    ensures { IsTrue result ↔ IsOwnLog past.now held.now }
{
    held.is_empty() || held == past
}

/// The files of the disk, by their paths, and a chunk by way of which they are read.
#[derive(Drop)]
pub struct Disk<'r, R: rt::Files> {
    runtime: &'r R,
    chunk: [u8; CHUNK],
}

impl<'r, R: rt::Files> Disk<'r, R> {
    /// The files that the runtime gives.
    pub fn new(runtime: &'r R) -> Disk<'r, R> {
        Disk {
            runtime,
            chunk: [0; CHUNK],
        }
    }
}

impl<'r, R: rt::Files> Files for Disk<'r, R> {
    ghost use Rattle.std.specs.Prelude.{None};

    ghost contents = { λ _. None };

    fn read(&mut self, alloc: Global, name: &str) -> Result<Vec<u8>, FileFault> {
        let mut file = fs::open(self.runtime, name).or(Err(FileFault::Failed))?;
        read_whole(alloc, &mut file, &mut self.chunk)
    }

    fn write(&mut self, name: &str, bytes: &[u8]) -> Result<(), FileFault> {
        fs::write(self.runtime, name, bytes).or(Err(FileFault::Failed))
    }

    /// What is no file, as a pipe or a terminal, holds nothing. The folder of a file is on the disk when it is
    /// answered, so that a log that was begun is found there after a power cut.
    fn begin_log(&mut self, alloc: Global, name: &str, past: &[u8]) -> Result<bool, FileFault> {
        let mut file = open_to_append(self.runtime, name, true)?;
        if !is_file(&file)? {
            return Ok(true);
        }
        let bytes = read_whole(alloc, &mut file, &mut self.chunk)?;
        if !is_own_log(&bytes, past) {
            return Ok(false);
        }
        let end = whole_lines(&bytes).len();
        if end < bytes.len() && file.set_len(end as u64).is_err() {
            return Err(FileFault::Failed);
        }
        sync_folder(self.runtime, name);
        Ok(true)
    }

    /// What is put behind a file is on the disk when it is answered. A file that is not there is refused: a log that
    /// was moved away while a dispatch runs would go on without its front.
    fn append(&mut self, name: &str, bytes: &[u8]) -> Result<(), FileFault> {
        let mut file = open_to_append(self.runtime, name, false)?;
        put_all(&mut WriteOut::new(&mut file), bytes).or(Err(FileFault::Failed))?;
        if is_file(&file)? && file.sync_data().is_err() {
            return Err(FileFault::Failed);
        }
        Ok(())
    }
}

/// The file of this path, to be read, and written behind its bytes. One that is not there is begun if `create` says so.
fn open_to_append<R: rt::Files>(
    runtime: &R,
    name: &str,
    create: bool,
) -> Result<R::File, FileFault> {
    let mut options = OpenOptions::new();
    options.read(true).append(true).create(create);
    options.open(runtime, name).or(Err(FileFault::Failed))
}

/// Has the folder of this path stored. A system that opens no folder, or stores none, is no failure of the file.
fn sync_folder<R: rt::Files>(runtime: &R, name: &str) {
    let folder = match Path::new(name).parent() {
        Some(folder) if !folder.as_str().is_empty() => folder,
        _ => Path::new("."),
    };
    if let Ok(folder) = fs::open(runtime, folder) {
        let _ = folder.sync_all();
    }
}

/// Whether it is a file with bytes of its own, and no pipe, terminal or other device. Of what is open the system can
/// say it; if it does not, that is a failure, and not "no file".
fn is_file<F: OpenFile>(file: &F) -> Result<bool, FileFault> {
    let metadata = file.metadata().or(Err(FileFault::Failed))?;
    Ok(metadata.is_file())
}

/// The files that a command reads, by their names, in this order: the map and the scenario of its tasks, if it is about
/// some; the plan or the program that it is about, the holds (of `times` the costs), and the log of reports (of
/// `dispatch` that after which it goes on, and not the one that it writes).
#[derive(Clone, Copy)]
pub(crate) struct FileNames<'a> {
    pub(crate) tasks: Option<Tasks<'a>>,
    pub(crate) subject: Option<&'a str>,
    pub(crate) holds: Option<&'a str>,
    pub(crate) log: Option<&'a str>,
}

/// What those files hold; nothing of a file that is not named.
pub(crate) struct FileTexts {
    pub(crate) map: Vec<u8>,
    pub(crate) scen: Vec<u8>,
    pub(crate) subject: Vec<u8>,
    pub(crate) holds: Vec<u8>,
    pub(crate) log: Vec<u8>,
}

impl Drop for FileTexts {
    fn drop(self) {
        let FileTexts {
            map,
            scen,
            subject,
            holds,
            log,
        } = self;
        drop(map);
        drop(scen);
        drop(subject);
        drop(holds);
        drop(log);
    }
}

/// The texts where no file is named.
pub(crate) fn no_texts(alloc: Global) -> FileTexts
    ensures { (files : Option Store) → AreTexts files (names_for None None None None) result }
{
    FileTexts {
        map: Vec::new(alloc),
        scen: Vec::new(alloc),
        subject: Vec::new(alloc),
        holds: Vec::new(alloc),
        log: Vec::new(alloc),
    }
}

/// The bytes of the file, none if no file is named. Want of memory is `Memory`, and a file that cannot be read is
/// `File` with its name.
fn read_given<'a, F: Files>(
    alloc: Global,
    files: &mut F,
    name: Option<&'a str>,
) -> Result<Vec<u8>, Fault<'a>>
    ensures bytes { IfOk result (λ bytes. IsGiven (F.contents files.old) name.entry bytes.items) }
    ensures refused { IfErr result (IsGivenAs (F.refuses_read files.old) name.entry) }
    ensures fault { IfErr result (IsUnread (F.contents files.old) (given_name name.entry)) }
    ensures kept { AreUnchanged (F.contents files.old) (F.contents files.new) }
{
    let Some(name) = name else {
        return Ok(Vec::new(alloc));
    };
    match files.read(alloc, name) {
        Ok(bytes) => Ok(bytes),
        Err(FileFault::OutOfMemory) => Err(Fault::Memory),
        Err(FileFault::Failed) => Err(Fault::File(name)),
    }
}

/// What the named files hold, read in the order of the fields, each as `read_given` reads it.
#[tactic(auto, using(crate::proofs::FileLemmas::unread_first, crate::proofs::FileLemmas::unread_later))]
pub(crate) fn read_files<'a, F: Files>(
    alloc: Global,
    files: &mut F,
    names: FileNames<'a>,
) -> Result<FileTexts, Fault<'a>>
    ensures read { MatchResult result (AreTexts (F.contents files.old) names.entry)
        (IsUnread (F.contents files.old) (given_names names.entry)) }
    ensures kept { AreUnchanged (F.contents files.old) (F.contents files.new) }
{
    let mut texts = no_texts(alloc);
    texts.map = read_given(alloc, files, names.tasks.map(|tasks| tasks.map))?;
    texts.scen = read_given(alloc, files, names.tasks.map(|tasks| tasks.scen))?;
    texts.subject = read_given(alloc, files, names.subject)?;
    texts.holds = read_given(alloc, files, names.holds)?;
    texts.log = read_given(alloc, files, names.log)?;
    Ok(texts)
}

/// Writes the bytes to the file, if one is named. Want of memory is `Memory`, and a write that failed is `File` with
/// the file's name.
pub(crate) fn write_given<'a, F: Files>(
    files: &mut F,
    name: Option<&'a str>,
    bytes: &[u8],
) -> Result<(), Fault<'a>>
    ensures written { WritesGiven (F.contents files.old) (F.contents files.new) name.entry bytes.now
        result }
    ensures refused { IfErr result (IsGivenAs (F.refuses_write files.old) name.entry) }
{
    let Some(name) = name else {
        return Ok(());
    };
    match files.write(name, bytes) {
        Ok(()) => Ok(()),
        Err(FileFault::OutOfMemory) => Err(Fault::Memory),
        Err(FileFault::Failed) => Err(Fault::File(name)),
    }
}
