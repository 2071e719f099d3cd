//! Laws of tables in memory.

ghost use Rattle.szg_probe.specs.Images.{AreSymmetric as HaveSymmetricClasses};
ghost use Rattle.szg_verify.specs.Entries.{tables_of};
ghost use Rattle.szg_verify.specs.Verified.{AreSymmetric};
ghost use Rattle.szg_tables.specs.Distances.{stored_distances};
ghost use Rattle.szg_tables.specs.Fetched.{FetchedIsStored};
ghost use Rattle.szg_tables.specs.Images.{HaveSymmetricNumbers};
ghost use Rattle.szg_tables.specs.Stored.{stored_classes, stored_numbers};

use szg_file::Table;
use szg_place::laws::table_numbering;

/// Tables store one class, one number and one distance for a position and for the images that share its value: its men in
/// another order, the colors exchanged, and the board flipped as far as the pawns allow it.
pub fn stored_at_images(tables: &[Table])
    ensures classes { HaveSymmetricClasses (stored_classes tables.now) }
    ensures numbers { HaveSymmetricNumbers (stored_numbers tables.now) }
    ensures tables { AreSymmetric (tables_of (stored_classes tables.now) (stored_distances tables.now)) }
{
    for table in tables {
        table_numbering(table);
    }
}

/// What was fetched of the files of tables is what the tables store.
pub fn fetched_is_stored()
    ensures { FetchedIsStored }
{}
