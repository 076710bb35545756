//! Files in memory, for tests.

ghost use Rattle.std.specs.Prelude.{◌≡◌, ◌≢◌, ℕ, List, [], Some, None, OnOk, OnErr, IfOk, IfErr, IfSome, IfNone, unwrap_or};
ghost use Rattle.fleet_cli.specs.Files.{Replaces};

use crate::files::{FileFault, Files, MAX_BYTES, is_own_log, whole_lines};
use fleet_model::OutOfMemory;
use indexmap::IndexMap;
use std::alloc::Global;

/// A store of files in memory: the bytes of each, under its name.
#[derive(Drop)]
pub struct MemFiles {
    files: IndexMap<String, Vec<u8>>,
    alloc: Global,
}

impl MemFiles {
    ghost use Rattle.fleet_cli.specs.MemFiles.{file_in};

    /// A store without files. Takes no memory.
    pub fn new(alloc: Global) -> MemFiles
        ensures { (name : List ℕ) → file_in result name ≡ None }
    {
        MemFiles {
            files: IndexMap::new(alloc),
            alloc,
        }
    }

    /// Makes the file hold the bytes. A refusal changes nothing.
    pub fn put(&mut self, name: &str, bytes: &[u8]) -> Result<(), OutOfMemory>
        ensures held { OnOk result (file_in self.new name.now ≡ Some bytes.now) }
        ensures others { (n : List ℕ) → n ≢ name.now → file_in self.new n ≡ file_in self.old n }
        ensures refused { OnErr result ((n : List ℕ) → file_in self.new n ≡ file_in self.old n) }
    {
        let key = String::from_str(self.alloc, name)?;
        let value = Vec::from_slice(self.alloc, bytes)?;
        self.files.insert(key, value)?;
        Ok(())
    }

    /// The file's bytes, if there is one of this name.
    pub fn get(&self, name: &str) -> Option<&[u8]>
        ensures found { IfSome result (λ bytes. file_in self.now name.now ≡ Some bytes.now) }
        ensures missing { IfNone result (file_in self.now name.now ≡ None) }
    {
        self.files.get(name).map(|bytes| bytes.as_slice())
    }

    /// A copy of the file's bytes, none if there is no file of this name.
    fn copy_of(&self, name: &str) -> Result<Vec<u8>, OutOfMemory>
        ensures { IfOk result (λ bytes. bytes.items ≡ unwrap_or (file_in self.now name.now) []) }
    {
        match self.get(name) {
            Some(bytes) => Ok(Vec::from_slice(self.alloc, bytes)?),
            None => Ok(Vec::new(self.alloc)),
        }
    }
}

impl Files for MemFiles {
    ghost use Rattle.std.specs.Prelude.{Some};
    ghost use Rattle.fleet_cli.specs.MemFiles.{file_in};
    ghost use Rattle.fleet_cli.specs.declared.files.FileFault.TheVariants.{OutOfMemory};

    ghost contents = { λ s. Some (file_in s) };

    ghost refuses_write = { λ _ _ fault. fault ≡ OutOfMemory };

    fn read(&mut self, alloc: Global, name: &str) -> Result<Vec<u8>, FileFault> {
        let bytes = self.get(name).ok_or(FileFault::Failed)?;
        if bytes.len() > MAX_BYTES {
            return Err(FileFault::Failed);
        }
        Vec::from_slice(alloc, bytes).or(Err(FileFault::OutOfMemory))
    }

    /// Fails only if memory is refused, and then changes nothing.
    fn write(&mut self, name: &str, bytes: &[u8]) -> Result<(), FileFault>
        ensures replaced { OnOk result
            (Replaces (Some (file_in self.old)) (Some (file_in self.new)) name.now bytes.now) }
        ensures others { (n : List ℕ) → n ≢ name.now → file_in self.new n ≡ file_in self.old n }
        ensures refused { IfErr result (λ e. (e ≡ FileFault.OutOfMemory)
            × ((n : List ℕ) → file_in self.new n ≡ file_in self.old n)) }
    {
        self.put(name, bytes).or(Err(FileFault::OutOfMemory))
    }

    fn begin_log(&mut self, _: Global, name: &str, past: &[u8]) -> Result<bool, FileFault> {
        let bytes = self.copy_of(name).or(Err(FileFault::OutOfMemory))?;
        if !is_own_log(&bytes, past) {
            return Ok(false);
        }
        self.write(name, whole_lines(&bytes))?;
        Ok(true)
    }

    fn append(&mut self, name: &str, bytes: &[u8]) -> Result<(), FileFault> {
        let mut all = self.copy_of(name).or(Err(FileFault::OutOfMemory))?;
        all.extend_from_slice(bytes)
            .or(Err(FileFault::OutOfMemory))?;
        self.write(name, &all)
    }
}
