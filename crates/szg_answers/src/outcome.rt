ghost use Rattle.std.specs.Prelude.{◌≡◌};
ghost use Rattle.szg_answers.specs.Outcome.{status_of};

use clap::Error;

/// How a run ended.
#[derive(Drop)]
pub enum Outcome {
    /// The command was carried out.
    Done,
    /// The file, or what was asked of it, was refused: the text was written.
    Refused,
    /// The words make no command, or ask for help: `clap`'s text.
    Words(Error),
    /// The reader or the writer failed.
    Device,
    /// A growth was refused.
    Memory,
}

impl Outcome {
    /// The program's status.
    pub fn status(&self) -> u8
        ensures { result ≡ status_of self.now }
    {
        match self {
            Outcome::Done => 0,
            Outcome::Refused => 1,
            Outcome::Words(_) => 2,
            Outcome::Device => 3,
            Outcome::Memory => 4,
        }
    }
}
