// Runs a command line over files in memory, and captures what it prints.
use dmlw::execute;
use dmlw_files::Session;
use std::alloc::{AllocError, Global};
use std::sync::Wait;
use std::thread::Threads;
use test_devices::Folder;

/// The status of a command, its standard output and its standard error.
#[derive(Drop)]
pub struct CommandOutput {
    pub status: u8,
    pub out: String,
    pub err: String,
}

impl CommandOutput {
    /// Returns whether the command ended with this status, and printed exactly these texts.
    pub fn is(&self, status: u8, out: &str, err: &str) -> bool {
        self.status == status && self.out.as_str() == out && self.err.as_str() == err
    }
}

/// A command line with its expected output and error. The expected status is 1 if there is an
/// error, else 0.
#[derive(Clone, Copy)]
pub struct WantedOutput<'a> {
    pub line: &'a str,
    pub out: &'a str,
    pub err: &'a str,
}

impl WantedOutput<'_> {
    /// Returns whether the command printed what was expected, and ended with the expected status.
    pub fn is_met(&self, told: &CommandOutput) -> bool {
        told.is(u8::from(!self.err.is_empty()), self.out, self.err)
    }
}

/// Runs a command line, without the program's name, on the files of `folder`. Returns what it
/// prints.
pub fn ask<H: Threads + Wait + Sync>(
    rt: &H,
    alloc: Global,
    line: &str,
    folder: &mut Folder,
) -> Result<CommandOutput, AllocError> {
    let words = words_of(alloc, line)?;
    let mut session = Session {
        alloc,
        explains: false,
        files: folder,
        out: Vec::new(alloc),
        err: Vec::new(alloc),
    };
    let ended = execute(rt, &words, &mut session);
    Ok(CommandOutput {
        status: ended.exit.status(),
        out: text_of(alloc, session.out),
        err: text_of(alloc, session.err),
    })
}

// Returns the program's name, and the words of a command line after it.
fn words_of<'a>(alloc: Global, line: &'a str) -> Result<Vec<&'a str>, AllocError> {
    let mut words = vec![in alloc; "dmlw"]?;
    for word in line.split(' ') {
        words.push(word)?;
    }
    Ok(words)
}

// Returns bytes as a text, or an empty text if they aren't UTF-8.
fn text_of(alloc: Global, bytes: Vec<u8>) -> String {
    String::from_utf8(bytes).unwrap_or(String::new(alloc))
}

pub fn folder_of(alloc: Global, script: &str) -> Result<Folder, AllocError> {
    let mut folder = Folder::new(alloc);
    folder.put(alloc, "script", Vec::from_slice(alloc, script.as_bytes())?)?;
    Ok(folder)
}
