//! What tests use: devices over another device, files in memory, streams, random numbers, and
//! checks of tables of tests (`rows`). Three of the devices fail calls, one lies, and one notes its
//! calls. Each keeps the law of `blockdev`.
#![tactic(auto)]

mod failing;
mod failing_once;
mod folder;
mod lying;
mod nasty;
mod numbers;
mod one_file;
mod outlet;
mod rows;
mod watched;

pub use failing::Failing;
pub use failing_once::FailingOnce;
pub use folder::Folder;
pub use lying::Lying;
pub use nasty::Nasty;
pub use numbers::Numbers;
pub use one_file::OneFile;
pub use outlet::Outlet;
pub use rows::{holds, is_same, is_told, rows_are_told};
pub use watched::Watched;
