//! Tests of placements and indexes: `szg_place`.

mod indexes;
mod placements;
