// What is printed for the series, and how many of their cases differ.
use crate::series::asking::{CommandOutput, WantedOutput, ask};
use std::alloc::{AllocError, Global};
use std::sync::Wait;
use std::thread::Threads;
use test_devices::Folder;

/// The text to print, and the number of cases that differ.
#[derive(Drop)]
pub struct Report {
    text: String,
    differ: u64,
}

impl Report {
    /// Returns an empty report.
    pub fn new(alloc: Global) -> Report {
        Report {
            text: String::new(alloc),
            differ: 0,
        }
    }

    /// Returns the number of cases that differ.
    pub fn differ(&self) -> u64 {
        self.differ
    }

    /// Returns the text to print.
    pub fn text(&self) -> &str {
        self.text.as_str()
    }

    /// Appends a line.
    pub fn line(&mut self, line: &str) -> Result<(), AllocError> {
        self.text.push_str(line)?;
        self.text.push('\n')?;
        Ok(())
    }

    /// Counts a case that differs. Appends the case, what was printed and what was expected.
    pub fn differs(
        &mut self,
        case: &str,
        told: &CommandOutput,
        wanted: &str,
    ) -> Result<(), AllocError> {
        self.differ = self.differ.saturating_add(1);
        writeln!(self.text, "differs:\n{case}\ntold [{}]:", told.status)?;
        self.text.push_str(told.out.as_str())?;
        self.text.push_str(told.err.as_str())?;
        writeln!(self.text, "wanted:\n{wanted}")
    }
}

/// Runs each command line of `wanted` on the folder's files. Notes each that doesn't print what is
/// expected, under the name `case`.
pub fn check<H: Threads + Wait + Sync>(
    rt: &H,
    alloc: Global,
    case: &str,
    wanted: &[WantedOutput<'_>],
    folder: &mut Folder,
    report: &mut Report,
) -> Result<(), AllocError> {
    for each in wanted {
        let told = ask(rt, alloc, each.line, folder)?;
        if !each.is_met(&told) {
            let name = format!(in alloc; "{case}: {}", each.line)?;
            let both = format!(in alloc; "{}{}", each.out, each.err)?;
            report.differs(name.as_str(), &told, both.as_str())?;
        }
    }
    Ok(())
}
