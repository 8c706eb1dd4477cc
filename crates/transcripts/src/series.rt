//! Series of commands over files in memory. Each output is compared with one that was computed
//! separately.
//!
//! A series goes through all cases of its kind, and prints a line with its counts. For each case
//! that differs, it prints the output and the expected output.

mod asking;
mod damage;
mod devices;
mod faults;
mod layers;
mod limits;
mod most_seats;
mod report;
mod seats;
mod targets;

pub(crate) use report::Report;
use std::alloc::{AllocError, Global};
use std::sync::Wait;
use std::thread::Threads;

pub(crate) fn run<H: Threads + Wait + Sync>(
    rt: &H,
    alloc: Global,
    name: &str,
    report: &mut Report,
) -> Result<(), AllocError> {
    match name {
        "layers" => devices::run(rt, alloc, report),
        "logs" => damage::run(rt, alloc, report),
        "targets" => targets::run(rt, alloc, report),
        "seats" => seats::run(rt, alloc, report),
        "limits" => limits::run(rt, alloc, report),
        _ => report.line("no such series"),
    }
}
