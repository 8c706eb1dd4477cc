//! A count with its noun: `1 entry`, `3 entries`. Explanations of refusals, logs and verdicts use
//! it.
use std::fmt;

/// A count with its noun in the singular or the plural: `1 entry`, `3 entries`.
#[derive(Clone, Copy, Debug)]
pub struct Counted {
    /// The count.
    pub count: u64,
    /// The noun for a count of 1.
    pub one: &'static str,
    /// The noun for any other count.
    pub many: &'static str,
}

impl fmt::Display for Counted {
    fn fmt<W: fmt::Write>(&self, f: &mut fmt::Formatter<W>) -> fmt::Result {
        let Counted { count, one, many } = *self;
        if count == 1 {
            return write!(f, "1 {one}");
        }
        write!(f, "{count} {many}")
    }
}

pub fn counted_sectors(count: u64) -> Counted {
    Counted {
        count,
        one: "sector",
        many: "sectors",
    }
}

pub(crate) fn counted_entries(count: u64) -> Counted {
    Counted {
        count,
        one: "entry",
        many: "entries",
    }
}
