//! Bytes from outside and to it.
//!
//! A [`Source`] gives bytes and a [`Sink`] takes them. Each may tell which bytes these are, and each counts the calls
//! that failed, so that whoever reports a fault can show one. [`MemSource`] and [`MemSink`] are in memory and fail
//! exactly where they are told to; [`InSource`] and [`OutSink`] are the edge to the system, where what a stream holds
//! isn't proved.
//!
//! [`read_all`] reads a source to its end, or until it has given one byte more than a limit. [`write_all`] writes all
//! bytes, or tells how many stand before the fault.
//!
//! [`leb_u`] and [`leb_s`] read numbers in LEB128 exactly where they are spelled, and [`put_u`] and [`put_s`] put the
//! shortest spelling.
#![tactic(auto)]

pub mod leb;
pub mod memory;
pub mod outside;
pub mod system;
pub mod transfer;

pub use leb::LebBad;
pub use leb::signed::{leb_s, put_s, read_put_s};
pub use leb::unsigned::{leb_u, put_u, read_put_u};
pub use memory::{MemSink, MemSource};
pub use outside::{Failed, Sink, Source};
pub use system::{InSource, OutSink};
pub use transfer::{ReadAll, WriteFault, read_all, write_all};
