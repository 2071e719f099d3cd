//! Tests of whole files: `szg_file`.

mod assembling;
mod contents;
mod fronts;
mod hostile;
mod lookups;
mod reading;
mod writing;
