//! Connections.

use crate::sinks::Sink;
use crate::sources::Source;

/// A connection: bytes come in and go out, and each direction has a count of its faults. A read keeps
/// the bytes held and the count of writes that failed, and a write keeps the bytes left and the count
/// of reads that failed.
pub trait Link: Source + Sink {}
