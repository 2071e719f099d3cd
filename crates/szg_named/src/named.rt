//! The table's name and kind in a path.
ghost use Rattle.std.specs.Prelude.{◌≡◌, option_map};
ghost use Rattle.szg_named.specs.Named.{name_given, named_as, named_by};

use std::path::Path;
use szg_values::Kind;

/// A name and a kind that are given with a path: each replaces what the path says.
#[derive(Clone, Copy)]
pub struct Naming<'a> {
    pub name: Option<&'a str>,
    pub kind: Option<Kind>,
}

/// Returns the table's name and kind from a path's file name: `KQvK.rtbw` is the WDL table of `KQvK`. None if the
/// extension is neither `rtbw` nor `rtbz`.
pub fn named_by(path: &str) -> Option<(&str, Kind)>
    ensures { option_map (λ named. (named.0.now, named.1)) result ≡ named_by path.now }
{
    let naming = Naming {
        name: None,
        kind: None,
    };
    named_as(naming, path)
}

/// Returns the table's name and kind: those that are given, else those in the path. None if one is missing.
pub fn named_as<'a>(naming: Naming<'a>, path: &'a str) -> Option<(&'a str, Kind)>
    ensures { option_map (λ named. (named.0.now, named.1)) result ≡ named_as (name_given naming.entry) naming.entry.kind path.now }
{
    let kind = match Path::new(path).extension() {
        Some("rtbw") => Some(Kind::Wdl),
        Some("rtbz") => Some(Kind::Dtz),
        _ => None,
    };
    let name = naming.name.or(Path::new(path).file_stem());
    match (name, naming.kind.or(kind)) {
        (Some(name), Some(kind)) => Some((name, kind)),
        _ => None,
    }
}
