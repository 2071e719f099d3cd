//! How far a build, a verification or the reading of files has come, shown on a terminal.
use std::cell::Cell;
use std::fmt::{self, Display, Formatter};
use std::io::{self, Write};
use std::time::{Clock, Duration, Instant};
use szg_files::ReadWatcher;
use szg_subtable::Watcher;
use szg_values::Material;
use szg_verify::Watcher as WalkWatcher;

/// Returns to the beginning of the terminal's line and erases it.
const ERASE: &str = "\r\x1b[K";

/// The least time between two texts of the line, but for the first one of a subtable and of its rounds and tries.
const PAUSE_MILLIS: u64 = 100;

/// A subtable that is being built.
#[derive(Clone, Copy)]
struct Subtable {
    number: usize,
    count: usize,
    values: usize,
}

impl Display for Subtable {
    fn fmt<W: fmt::Write>(&self, f: &mut Formatter<W>) -> fmt::Result {
        let Subtable {
            number,
            count,
            values,
        } = *self;
        write!(f, "subtable {number} of {count}, {values} values")
    }
}

/// A walk over a material's positions, when it was first seen.
#[derive(Clone, Copy)]
struct WalkSeen {
    began: Instant,
    done: u64,
    positions: u64,
}

/// Shows on standard error how far a build or a verification has come: one line, which is rewritten, and erased at the end. Nothing is
/// written if standard error is no terminal. It is ignored if a text can't be written.
#[derive(Drop)]
pub struct ProgressLine<'a, E, C> {
    errors: &'a E,
    clock: &'a C,
    is_terminal: bool,
    // None if no build's line is shown
    shown: Option<Subtable>,
    // None if no walk was seen
    walk: Option<WalkSeen>,
    // when the line was written last. None before, and if the clock failed
    written: Option<Instant>,
}

impl<'a, E: Eprint, C: Clock> ProgressLine<'a, E, C> {
    /// Creates it without a line; `is_terminal` is whether `errors` is a terminal.
    pub fn new(errors: &'a E, clock: &'a C, is_terminal: bool) -> ProgressLine<'a, E, C> {
        ProgressLine {
            errors,
            clock,
            is_terminal,
            shown: None,
            walk: None,
            written: None,
        }
    }

    /// Returns the subtable that is shown if its line is to be rewritten now. A first text is never held back.
    fn due(&mut self, is_first: bool) -> Option<Subtable> {
        let subtable = self.shown?;
        let now = Instant::now(self.clock).ok();
        if !is_first && !self.is_late(now) {
            return None;
        }
        self.written = now;
        Some(subtable)
    }

    /// Returns whether the line was written long enough before.
    fn is_late(&self, now: Option<Instant>) -> bool {
        match (self.written, now) {
            (Some(written), Some(now)) => {
                now.duration_since(written) >= Duration::from_millis(PAUSE_MILLIS)
            }
            _ => false,
        }
    }

    /// Writes how far a walk has come, the positions in a second, and the time that is left if it goes on so.
    fn show_walk(
        &self,
        walk: WalkSeen,
        now: Instant,
        material: &Material,
        done: u64,
        to: u64,
        positions: u64,
    ) {
        let millis = now.duration_since(walk.began).as_millis();
        let millis = u64::try_from(millis).unwrap_or(u64::MAX).max(1);
        let numbers = done.saturating_sub(walk.done).saturating_mul(1000) / millis;
        let rate = positions
            .saturating_sub(walk.positions)
            .saturating_mul(1000)
            / millis;
        let left = to.saturating_sub(done) / numbers.max(1);
        let (left, unit) = match left {
            0..=119 => (left, "s"),
            120..=7199 => (left / 60, "min"),
            _ => (left / 3600, "h"),
        };
        let name = material.name();
        let name = name.as_str();
        let _ = eprint!(self.errors;
            "{ERASE}{name}: {positions} positions, {rate} a second, {left} {unit} left"
        );
    }
}

impl<'a, E: Eprint, C: Clock> Watcher for ProgressLine<'a, E, C> {
    fn subtable(&mut self, number: usize, count: usize, values: usize) {
        if !self.is_terminal {
            return;
        }
        let subtable = Subtable {
            number,
            count,
            values,
        };
        self.shown = Some(subtable);
        let _ = eprint!(self.errors; "{ERASE}{subtable}");
    }

    fn round(&mut self, done: u32, rounds: u32) {
        if let Some(subtable) = self.due(done == 0) {
            let _ = eprint!(self.errors; "{ERASE}{subtable}: {done} of {rounds} rounds");
        }
    }

    fn attempt(&mut self, done: u64, bytes: Option<u64>) {
        if let Some(subtable) = self.due(done == 0) {
            let _ = match bytes {
                Some(bytes) => {
                    eprint!(self.errors; "{ERASE}{subtable}: {done} tries, {bytes} bytes")
                }
                None => eprint!(self.errors; "{ERASE}{subtable}: {done} tries"),
            };
        }
    }

    fn end(&mut self) {
        if self.shown.is_some() {
            let _ = eprint!(self.errors; "{ERASE}");
        }
        self.shown = None;
    }
}

impl<'a, E: Eprint, C: Clock> WalkWatcher for ProgressLine<'a, E, C> {
    fn see_progress(&mut self, material: &Material, done: u64, to: u64, positions: u64) {
        if !self.is_terminal {
            return;
        }
        let Ok(now) = Instant::now(self.clock) else {
            return;
        };
        let Some(walk) = self.walk else {
            self.walk = Some(WalkSeen {
                began: now,
                done,
                positions,
            });
            self.written = Some(now);
            return;
        };
        if self.is_late(Some(now)) {
            self.written = Some(now);
            self.show_walk(walk, now, material, done, to, positions);
        }
    }

    fn end(&mut self) {
        if self.walk.is_some() {
            let _ = eprint!(self.errors; "{ERASE}");
        }
        self.walk = None;
    }
}

/// What was read of files.
#[derive(Clone, Copy)]
struct ReadSoFar {
    files: u64,
    bytes: u64,
    /// When the first file was opened. None before, and if the clock failed.
    began: Option<Instant>,
    /// When the line was written last, or else the first file was opened.
    written: Option<Instant>,
    is_shown: bool,
}

/// Shows on standard error how many files and bytes were read, and how fast: one line, as `ProgressLine` does.
#[derive(Drop)]
pub struct ReadLine<'a, E, C> {
    errors: &'a E,
    clock: &'a C,
    is_terminal: bool,
    so_far: Cell<ReadSoFar>,
}

impl<'a, E: Eprint, C: Clock> ReadLine<'a, E, C> {
    /// Creates it without a line; `is_terminal` is whether `errors` is a terminal.
    pub fn new(errors: &'a E, clock: &'a C, is_terminal: bool) -> ReadLine<'a, E, C> {
        ReadLine {
            errors,
            clock,
            is_terminal,
            so_far: Cell::new(ReadSoFar {
                files: 0,
                bytes: 0,
                began: None,
                written: None,
                is_shown: false,
            }),
        }
    }

    /// Erases the line if there is one.
    pub fn erase(&self) {
        let mut so_far = self.so_far.get();
        if so_far.is_shown {
            let _ = eprint!(self.errors; "{ERASE}");
            so_far.is_shown = false;
            self.so_far.set(so_far);
        }
    }

    /// Adds files and bytes, and writes the line if that was long ago.
    fn add(&self, files: u64, bytes: u64) {
        let Ok(now) = Instant::now(self.clock) else {
            return;
        };
        let mut so_far = self.so_far.get();
        so_far.files = so_far.files.saturating_add(files);
        so_far.bytes = so_far.bytes.saturating_add(bytes);
        let began = so_far.began.unwrap_or(now);
        so_far.began = Some(began);
        let written = so_far.written.unwrap_or(now);
        so_far.written = Some(written);
        if now.duration_since(written) >= Duration::from_millis(PAUSE_MILLIS) {
            let ReadSoFar { files, bytes, .. } = so_far;
            let megabytes = bytes / 1_000_000;
            let millis = now.duration_since(began).as_millis();
            let rate = bytes / 1000 / u64::try_from(millis).unwrap_or(u64::MAX).max(1);
            let _ = eprint!(self.errors;
                "{ERASE}files {files}, {megabytes} MB, {rate} MB a second"
            );
            so_far.written = Some(now);
            so_far.is_shown = true;
        }
        self.so_far.set(so_far);
    }
}

impl<'a, E: Eprint, C: Clock> ReadWatcher for ReadLine<'a, E, C> {
    fn see_open(&self) {
        if self.is_terminal {
            self.add(1, 0);
        }
    }

    fn see_read(&self, bytes: u64) {
        if self.is_terminal {
            self.add(0, bytes);
        }
    }
}

/// An output whose lines come above what a terminal shows of reads.
#[derive(Drop)]
pub struct Above<'a, 'b, W, E, C> {
    /// Where the lines are written.
    pub output: W,
    /// The line of reads, which is erased before each write.
    pub reads: &'a ReadLine<'b, E, C>,
}

impl<'a, 'b, W: Write, E: Eprint, C: Clock> Write for Above<'a, 'b, W, E, C> {
    ghost contents = { λ above. W.contents above.output };

    fn write(&mut self, buf: &[u8]) -> io::Result<usize> {
        self.reads.erase();
        self.output.write(buf)
    }

    fn flush(&mut self) -> io::Result<()> {
        self.output.flush()
    }
}
