//! Chains of values in one table, generic over the type of the values.
//!
//! A chain is a ring of links: the link of its last row leads to its first row. So joining two
//! chains, or moving a row from one chain to another, changes a few links and moves no value. A
//! free row is used again.
pub use iter::Iter;
pub use table::Chains;

mod iter;
mod links;
mod marked;
mod marks;
mod rings;
mod rows;
mod table;
mod walk;
mod walking;
