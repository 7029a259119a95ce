//! What came of a row. An event that changes something is told without a growth of memory, since it is not to be made again.

use avm_call::Outcome;
use std::test::Fail;

/// What came of a row.
#[derive(Drop)]
pub enum Said {
    /// A look, or an event that changed nothing.
    Text(String),
    /// The same, in a word.
    Word(&'static str),
    /// A call begins at a timestamp.
    Begins(u64),
    /// A call is committed at a timestamp.
    Commits(u64),
    /// A call has ended behind so many reads.
    Ends(Outcome, usize),
    /// The low mark after a prune.
    Low(u64),
}

/// Prints it.
pub fn say(rt: &HostRuntime, said: &Said) -> Result<(), Fail> {
    match said {
        Said::Text(text) => println!(rt; "= {text}")?,
        Said::Word(word) => println!(rt; "= {word}")?,
        Said::Begins(timestamp) => println!(rt; "= begins at {timestamp}")?,
        Said::Commits(timestamp) => println!(rt; "= commits at {timestamp}")?,
        Said::Ends(outcome, reads) => println!(rt; "= {outcome:?}, {reads} reads")?,
        Said::Low(low) => println!(rt; "= low {low}")?,
    }
    Ok(())
}

/// Says that memory ended, and whether all is as before.
pub fn say_memory(rt: &HostRuntime, same: bool) -> Result<(), Fail> {
    println!(rt; "memory")?;
    if same {
        println!(rt; "as before")?;
    } else {
        println!(rt; "CHANGED")?;
    }
    Ok(())
}
