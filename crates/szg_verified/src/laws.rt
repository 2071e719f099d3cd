//! Laws of tables that are true.

ghost use Rattle.szg_verified.specs.Verified.{AnswersAreTrue, FolderIsTrue, ProbesAreTrue};

use szg_results::laws::answers_of_tables;

/// If tables are true for materials, the answer for a position of these materials is its class in chess, with the
/// halfmove counter as tables count it.
pub fn answers_are_true()
    ensures { AnswersAreTrue }
{}

/// If tables are true for materials, so is the answer over what was fetched of their files: for each position of these
/// materials `szg probe` finds the class in chess.
pub fn probes_are_true()
    ensures { ProbesAreTrue }
{
    answers_of_tables();
    answers_are_true();
}

/// If the tables that `verify_folder` read of a folder are all verified, then for each position of their materials the answer
/// over what was fetched of the same files, which `szg probe` writes, is its class in chess.
pub fn folder_is_true()
    ensures { FolderIsTrue }
{}
