//! Laws over the definitions. The contract of each function is a law, and its body is empty.
ghost use Rattle.szg_commands.specs.Laws.{ShardsShareFiles};

/// The shards 1 to N of N have all files together, each once.
pub fn shards_share_files()
    ensures { ShardsShareFiles }
{}
