//! What a session asks its surroundings for, and tells them.
use crate::wire::RequestHeader;
use bio::{End, Ms};

/// The surroundings of a session: the time, and the marks that somebody set. Nothing is proved
/// about the answers.
pub trait Host {
    /// Returns the time since the session's start.
    fn now(&mut self) -> Ms;

    /// Returns the text of the next mark that was set and not returned yet.
    fn next_mark(&mut self) -> Option<Vec<u8>>;

    /// Hears of a request before it is done. A request to disconnect isn't told.
    fn request_came(&mut self, header: &RequestHeader);

    /// Hears that logging ended. The session goes on, but it isn't recorded any more.
    fn logging_ended(&mut self, cause: End);
}
