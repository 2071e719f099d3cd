//! The numbers of files that were checked.
use crate::file_verdict::FileVerdict;

/// The numbers of files that were good, refused, not read, or left out, and of paths that were skipped.
#[derive(Clone, Copy, Default)]
pub struct CheckCounts {
    pub good: u64,
    pub refused: u64,
    pub unread: u64,
    pub kept: u64,
    pub skipped: u64,
}

impl CheckCounts {
    ghost use Rattle.std.specs.Prelude.{◌≡◌, ◌+◌, ◌^◌, ◌<◌};
    ghost use Rattle.szg_archive.specs.Verdicts.{good_of, kept_of, refused_of, skipped_of, unread_of};

    /// Returns the number of files.
    pub fn files(&self) -> u64
        requires { self.now.good + self.now.refused + self.now.unread + self.now.kept < 2 ^ 64 }
        ensures { result ≡ self.now.good + self.now.refused + self.now.unread + self.now.kept }
    {
        self.good + self.refused + self.unread + self.kept
    }

    /// Returns the tally with one more file.
    pub fn with(self, verdict: &FileVerdict, allow_trailing: bool) -> CheckCounts
        requires good { self.good < 2 ^ 63 }
        requires refused { self.refused < 2 ^ 63 }
        requires unread { self.unread < 2 ^ 63 }
        requires kept { self.kept < 2 ^ 63 }
        requires skipped { self.skipped < 2 ^ 63 }
        ensures good { result.good ≡ self.good + good_of allow_trailing verdict.now }
        ensures refused { result.refused ≡ self.refused + refused_of allow_trailing verdict.now }
        ensures unread { result.unread ≡ self.unread + unread_of verdict.now }
        ensures kept { result.kept ≡ self.kept + kept_of verdict.now }
        ensures skipped { result.skipped ≡ self.skipped + skipped_of verdict.now }
    {
        let mut tally = self;
        match verdict {
            FileVerdict::Whole(_) => tally.good += 1,
            FileVerdict::Trailing(_) if allow_trailing => tally.good += 1,
            FileVerdict::Unopened(_)
            | FileVerdict::Unread(_)
            | FileVerdict::NoText
            | FileVerdict::Empty => tally.unread += 1,
            FileVerdict::Kept(_) => tally.kept += 1,
            FileVerdict::Skipped(_) => tally.skipped += 1,
            _ => tally.refused += 1,
        }
        tally
    }
}
