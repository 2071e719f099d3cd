//! Laws of answers.

ghost use Rattle.szg_results.specs.Objects.{FetchedDtzs};
ghost use Rattle.szg_results.specs.Results.{FetchedAnswers};

use szg_tables::laws::fetched_is_stored;

/// The answer over what was fetched of the files of tables is the answer over the tables.
pub fn answers_of_tables()
    ensures { FetchedAnswers }
{
    fetched_is_stored();
}

/// Each DTZ of the moves of an object over what was fetched of the files of tables is that of the position after the move
/// over the tables.
pub fn dtzs_of_tables()
    ensures { FetchedDtzs }
{
    fetched_is_stored();
}
