//! The files of a command that fail at a call.

use fleet_cli::{FileFault, Files, MemFiles};
use std::alloc::Global;

/// Files of which so many calls are done, and none after them.
#[derive(Drop)]
pub struct FailingFiles {
    pub files: MemFiles,
    pub calls: u8,
}

impl FailingFiles {
    /// Counts a call that is done, if one more is.
    fn count(&mut self) -> Result<(), FileFault> {
        if self.calls == 0 {
            return Err(FileFault::Failed);
        }
        self.calls -= 1;
        Ok(())
    }
}

impl Files for FailingFiles {
    ghost use Rattle.std.specs.Prelude.{None};

    ghost contents = { λ _. None };

    fn read(&mut self, alloc: Global, name: &str) -> Result<Vec<u8>, FileFault> {
        self.count()?;
        self.files.read(alloc, name)
    }

    fn write(&mut self, name: &str, bytes: &[u8]) -> Result<(), FileFault> {
        self.count()?;
        self.files.write(name, bytes)
    }

    /// No command that is tried over them keeps a log.
    fn begin_log(&mut self, _: Global, _: &str, _: &[u8]) -> Result<bool, FileFault> {
        Err(FileFault::Failed)
    }

    fn append(&mut self, _: &str, _: &[u8]) -> Result<(), FileFault> {
        Err(FileFault::Failed)
    }
}
