//! How a check of files is asked for.

/// How the report of a check is written.
#[derive(Clone, Copy)]
pub enum ReportFormat {
    /// A line for a reader about each file, and a summary.
    Text,
    /// A record for programs about each file: fields separated by tabs, one record a line.
    Tsv,
    /// The same record as a JSON object, one object a line.
    Json,
}

/// One of `count` runs that share the files out: every `count`-th in their order, beginning with that of this number, from 1
/// on.
#[derive(Clone, Copy)]
pub struct FileShard {
    pub number: u64,
    pub count: u64,
}
