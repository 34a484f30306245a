//! Who holds a lock.
use pit_num::whole_from_bytes;
use pit_text::Fields;

/// The process that holds a lock on the file of a number, by the system's list of locks (Linux's `/proc/locks`).
pub fn holder_in(locks: &[u8], file: u64) -> Option<u32> {
    let mut lines = locks.split(|b| *b == b'\n');
    while let Some(line) = lines.next() {
        if let Some((process, locked)) = lock_of(line) {
            if locked == file {
                return Some(process);
            }
        }
    }
    None
}

/// The process and the file of a line, `1: FLOCK ADVISORY WRITE PROCESS MAJOR:MINOR:FILE 0 EOF`. One that waits has `->` before the kind.
fn lock_of(line: &[u8]) -> Option<(u32, u64)> {
    let mut fields = Fields::new(line);
    let kind = fields.nth(1)?;
    if kind == b"->".as_slice() {
        return None;
    }
    let process = whole_from_bytes(fields.nth(2)?).ok()?;
    let file = whole_from_bytes(fields.nth(2)?).ok()?;
    Some((process, u64::from(file)))
}
