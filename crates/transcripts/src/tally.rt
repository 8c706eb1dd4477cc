// Counts how many commands ran, and how many of them differed.
use std::fmt;

/// How many commands ran, and how many of them printed another output than expected.
#[derive(Drop)]
pub struct CommandTally {
    commands: u64,
    differ: u64,
}

impl CommandTally {
    /// Returns counts of 0.
    pub fn new() -> CommandTally {
        CommandTally {
            commands: 0,
            differ: 0,
        }
    }

    /// Counts a command, and whether its output was as expected.
    pub fn count(&mut self, is_same: bool) {
        self.commands = self.commands.saturating_add(1);
        if !is_same {
            self.differ = self.differ.saturating_add(1);
        }
    }

    /// Adds the counts of another tally.
    pub fn add(&mut self, other: &CommandTally) {
        self.commands = self.commands.saturating_add(other.commands);
        self.differ = self.differ.saturating_add(other.differ);
    }

    /// Returns whether no command differed.
    pub fn is_good(&self) -> bool {
        self.differ == 0
    }
}

impl fmt::Display for CommandTally {
    fn fmt<W: fmt::Write>(&self, f: &mut fmt::Formatter<W>) -> fmt::Result {
        let commands = self.commands;
        let differ = self.differ;
        write!(f, "{commands} commands, {differ} differ")
    }
}
