//! Block requests and their events, and the content of a device's sectors.
//!
//! A sector has 512 bytes. The `Content` of a device is the bytes of each sector. `specs/Content`
//! and `content` define the bytes of a range of sectors, and the content after a write or a
//! discard. Each crate about devices or logs uses these definitions. `specs/Places` has searches
//! and tests over indices.
//!
//! A request is a `Bio`. `check` decides whether it may be sent to a device, and `check_sized`
//! whether it also suits a log with sectors of a given `SectorSize`. The events of requests are a
//! list of `CoreEvent`s. An `Id` is the index of a request's submission, or of a mark, in that
//! list.
//!
//! `specs/Requests` defines which sectors a request covers. `specs/Events` defines at which index
//! of an event list a request ends, and which lists are lawful. `laws` has the laws of these
//! definitions.
#![tactic(auto)]

pub use bytes::Bytes;
pub use content::{MAX_DEVICE_SECTORS, SECTOR_BYTES};
pub use event::{CoreEvent, Event, Id};
pub use ms::Ms;
pub use outcome::{DevError, Status};
pub use refusals::End;
pub use request::{BadBio, Bio, MAX_REQUEST_SECTORS, SectorSize, check, check_sized};

mod bytes;
pub mod content;
mod event;
pub mod laws;
mod ms;
mod outcome;
mod request;
