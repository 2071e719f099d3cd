//! How files are checked.

use crate::log::Log;
use szg_named::{FileShard, Naming, ReportFormat};
use szg_sums::Sums;

/// How files are checked.
#[derive(Clone, Copy)]
pub struct CheckOptions<'a> {
    /// The name and the kind of each file, if they are given.
    pub naming: Naming<'a>,
    /// Whether bytes may follow a table.
    pub allow_trailing: bool,
    /// How the report is written.
    pub format: ReportFormat,
    /// Whether the report has only files that are refused or unread.
    pub quiet: bool,
    /// The lists of sums that the files are compared with, if there are any.
    pub sums: Option<&'a Sums>,
    /// Which files are checked, if not all.
    pub shard: Option<FileShard>,
    /// The records of earlier runs, if there are any: files that were good and didn't change are left out.
    pub log: Option<&'a Log>,
    /// Whether the digests of files that pass are listed.
    pub has_manifest: bool,
}

impl CheckOptions<'_> {
    ghost use Rattle.std.specs.Prelude.{◌≡◌};
    ghost use Rattle.szg_archive.specs.Verdicts.{plain_options};

    /// Each file by its own name, no trailing bytes, a report for a reader, no lists of sums, all files, no log, no manifest.
    pub fn plain() -> CheckOptions<'static>
        ensures { result ≡ plain_options }
    {
        CheckOptions {
            naming: Naming {
                name: None,
                kind: None,
            },
            allow_trailing: false,
            format: ReportFormat::Text,
            quiet: false,
            sums: None,
            shard: None,
            log: None,
            has_manifest: false,
        }
    }
}
