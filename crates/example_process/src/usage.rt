//! What a process uses, by the files in which Linux tells it. What a file doesn't say is `None`.

use std::fs;
use std::rt::Files;

/// What a process uses.
#[derive(Clone, Copy)]
pub struct Usage {
    /// User and system time.
    pub cpu_milliseconds: Option<u64>,
    /// Since 1970.
    pub start_milliseconds: Option<i64>,
    pub resident_bytes: Option<i64>,
    pub virtual_bytes: Option<i64>,
    /// With the one that reads their list.
    pub open_files: Option<i64>,
    pub most_files: Option<i64>,
}

/// Milliseconds of a tick, in which Linux tells times.
const TICK: u64 = 10;

/// Returns the number in `/proc/PID/stat` at this place, counted from 0 after the program's name, which may have blanks.
pub fn number_at(stat: &str, place: usize) -> Option<u64> {
    let (_, rest) = stat.rsplit_once(')')?;
    rest.split_whitespace().nth(place)?.parse::<u64>().ok()
}

/// Returns the first number of the line that begins with these words.
pub fn number_after(text: &str, words: &str) -> Option<u64> {
    for line in text.lines() {
        if let Some(rest) = line.strip_prefix(words) {
            return rest.split_whitespace().next()?.parse::<u64>().ok();
        }
    }
    None
}

/// Returns the processor time that `/proc/PID/stat` tells, in milliseconds.
pub fn cpu_milliseconds(stat: &str) -> Option<u64> {
    let user = number_at(stat, 11)?;
    user.checked_add(number_at(stat, 12)?)?.checked_mul(TICK)
}

/// Returns when the process began, in milliseconds since 1970, by its own `stat` and by that of the system.
pub fn start_milliseconds(stat: &str, system: &str) -> Option<i64> {
    let since_boot = number_at(stat, 19)?.checked_mul(TICK)?;
    let boot = number_after(system, "btime")?.checked_mul(1000)?;
    i64::try_from(boot.checked_add(since_boot)?).ok()
}

/// Returns the size that `/proc/PID/status` tells after these words, in bytes.
pub fn status_bytes(status: &str, words: &str) -> Option<i64> {
    let kilobytes = number_after(status, words)?;
    i64::try_from(kilobytes.checked_mul(1024)?).ok()
}

/// Returns how many files `/proc/PID/limits` lets the process open. Without a limit it is `None`.
pub fn most_files(limits: &str) -> Option<i64> {
    i64::try_from(number_after(limits, "Max open files")?).ok()
}

/// Returns a file's text, without one an empty text.
fn text_at<R: AllocGlobal + Files>(rt: &R, path: &str) -> String {
    match fs::read_to_string(rt, path) {
        Ok(text) => text,
        Err(_) => String::new(rt.alloc()),
    }
}

/// Counts the open files of this process.
fn open_files<R: AllocGlobal + Clone + Drop + Files>(rt: &R) -> Option<i64> {
    let mut count: i64 = 0;
    for entry in fs::read_dir(rt, "/proc/self/fd").ok()? {
        entry.ok()?;
        count = count.checked_add(1)?;
    }
    Some(count)
}

/// Reads what this process uses.
pub fn read_usage<R: AllocGlobal + Clone + Drop + Files>(rt: &R) -> Usage {
    let stat = text_at(rt, "/proc/self/stat");
    let system = text_at(rt, "/proc/stat");
    let status = text_at(rt, "/proc/self/status");
    let limits = text_at(rt, "/proc/self/limits");
    Usage {
        cpu_milliseconds: cpu_milliseconds(stat.as_str()),
        start_milliseconds: start_milliseconds(stat.as_str(), system.as_str()),
        resident_bytes: status_bytes(status.as_str(), "VmRSS:"),
        virtual_bytes: status_bytes(status.as_str(), "VmSize:"),
        open_files: open_files(rt),
        most_files: most_files(limits.as_str()),
    }
}
