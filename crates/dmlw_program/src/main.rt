//! dmlw records block requests in a log, as the kernel's dm-log-writes does, and reads such logs
//! back. `dmlw help` prints its commands.
//!
//! The program calls `dmlw::execute` with the system's files and streams, or for `serve`
//! `dmlw_serve::serve`. Nothing is proved about what these hold.
#![tactic(auto)]

use clap::Error;
use clap::error::ErrorKind;
use dmlw::{Exit, HostFiles, Output, Session, execute, refuse};
use dmlw_commands::record::print_end;
use dmlw_commands::report;
use dmlw_serve::{
    Asked, Counts, ServeNames, ServedSession, Surroundings, print_session, read_words, serve,
};
use refusals::{Refusal, RunError};
use std::io::{BufWriter, Write};
use std::process::ExitCode;
use std::rt::{Env, Files};
use std::sync::Wait;
use std::thread::Threads;
use std::time::Clock;
use std::{env, io};

fn main(rt: HostRuntime) -> ExitCode {
    let mut err = rt.stderr();
    let status = match choose(&rt, &mut err) {
        Ok(status) => status,
        Err(error) => refuse(rt.alloc(), error, &mut err),
    };
    ExitCode::from(status)
}

// Serves a client if the command line asks for it, and executes it otherwise. Only the real
// standard input can be served, so `execute` doesn't know this command. It has no advice to add, so
// the word `--explain` says nothing to it.
fn choose<R: Files + Env + Print + Input + Clock + AllocGlobal + Threads + Wait + Sync, E: Write>(
    rt: &R,
    err: &mut E,
) -> io::Result<u8> {
    let words: Vec<String> = env::args(rt)?.collect(rt.alloc())?;
    let mut plain = Vec::new(rt.alloc());
    for word in &words {
        if word.as_str() != "--explain" {
            plain.push(word.as_str())?;
        }
    }
    match plain.as_slice() {
        [_, first, words @ ..] if *first == "serve" => serve_by(rt, words, err),
        [_, first, second, ..] if *first == "help" && *second == "serve" => {
            serve_by(rt, &["--help"], err)
        }
        _ => run(rt, err),
    }
}

// Does what these words ask for, which follow the word `serve`, and returns the exit status.
fn serve_by<R: Files + Print + Input + Clock + AllocGlobal, E: Write>(
    rt: &R,
    words: &[&str],
    err: &mut E,
) -> io::Result<u8> {
    let mut named = Vec::new(rt.alloc());
    named.push("dmlw serve")?;
    for word in words {
        named.push(*word)?;
    }
    let asked = read_words(rt.alloc(), named.as_slice());
    Ok(answer(rt, asked, err))
}

// Does what the words of `serve` ask for, and returns the exit status. Standard output is the
// client's, so what `record` prints goes to `err`.
fn answer<R: Files + Print + Input + Clock + AllocGlobal, E: Write>(
    rt: &R,
    asked: Asked<'_>,
    err: &mut E,
) -> u8 {
    match asked {
        Asked::Serve { names, marks } => match serve_client(rt, names, marks, err) {
            Ok((served, counts)) => {
                let _ = print_end(served.status, served.lies, err);
                let _ = print_session(counts, served.end, err);
                Exit::from(served.status.end).status()
            }
            Err(fault) => report(rt.alloc(), fault, "", err).exit.status(),
        },
        Asked::Show(text) => show(rt, &text, err),
    }
}

// Prints clap's text, and returns the exit status.
fn show<R: Print + AllocGlobal, E: Write>(rt: &R, text: &Error, err: &mut E) -> u8 {
    match text.kind() {
        ErrorKind::OutOfMemory => {
            let fault = RunError::from(Refusal::Memory);
            report(rt.alloc(), fault, "", err).exit.status()
        }
        ErrorKind::DisplayHelp => {
            let _ = print!(rt; "{text}");
            Exit::Done.status()
        }
        _ => {
            let _ = write!(err, "{text}");
            Exit::Usage.status()
        }
    }
}

// Serves the client at standard input and output.
fn serve_client<R: Files + Print + Input + Clock + AllocGlobal, E: Write>(
    rt: &R,
    names: ServeNames<'_>,
    marks: Option<&str>,
    err: &mut E,
) -> Result<(ServedSession, Counts), RunError> {
    let mut files = HostFiles::new(rt, rt.alloc());
    let mut host = Surroundings::new(rt, rt.alloc(), marks, err)?;
    let served = serve(
        rt.alloc(),
        names,
        &mut files,
        &mut rt.reader(),
        &mut io::writer(rt),
        &mut host,
    )?;
    Ok((served, host.counts()))
}

// Executes the process's command line. If the variable DMLW_EXPLAIN is `1`, it adds the word
// `--explain`. If nobody reads the output any more, the rest of it is dropped. An error is returned
// only if no command has begun.
fn run<R: Files + Env + Print + AllocGlobal + Threads + Wait + Sync, E: Write>(
    rt: &R,
    err: &mut E,
) -> io::Result<u8> {
    let mut words: Vec<String> = env::args(rt)?.collect(rt.alloc())?;
    if env::var(rt, "DMLW_EXPLAIN").is_ok_and(|value| value.as_str() == "1") {
        words.push(String::from_str(rt.alloc(), "--explain")?)?;
    }
    let mut session = Session {
        alloc: rt.alloc(),
        explains: false,
        files: HostFiles::new(rt, rt.alloc()),
        out: BufWriter::new(rt.alloc(), Output::new(io::writer(rt)))?,
        err,
    };
    Ok(execute(rt, &words, &mut session).exit.status())
}
