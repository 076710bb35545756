//! What is due. A test that finds other bytes ends here, and prints both; one comparison for all tests, since each
//! costs the proof of the function that it stands in a second or two.

use std::process::Abort;

/// These bytes are due.
pub fn due_bytes(rt: &impl Abort, found: &[u8], due: &[u8]) {
    assert_eq!(*rt; found, due);
}

/// These numbers are due.
pub fn due_numbers(rt: &impl Abort, found: &[u32], due: &[u32]) {
    assert_eq!(*rt; found, due);
}

/// A status, and what is written to the output and of a refusal.
pub type Ended<'a> = (u8, &'a [u8], &'a [u8]);

/// A command, which has this name, is due to end so.
pub fn due_end(rt: &impl Abort, name: &str, found: Ended<'_>, due: Ended<'_>) {
    assert_eq!(*rt; found, due, "{name}");
}
