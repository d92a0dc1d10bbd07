//! Whether an epoch's log is given.
ghost use Rattle.cp_audit.specs.Given.{LogIsGiven};

use crate::fault::log_fault;
use crate::frames::Frames;
use crate::log::read_log;
use crate::part::Part;
use crate::{AuditRefusal, What};
use std::alloc::Global;

// The parts of the log of the frames' epoch that is right for their tables.
pub(crate) fn given_log<'a>(
    alloc: Global,
    frames: &Frames<'a>,
    bytes: &'a [u8],
) -> Result<Vec<Part<'a>>, AuditRefusal>
    ensures { LogIsGiven frames.now bytes.now result }
{
    let parts = match read_log(alloc, frames, bytes) {
        Ok(Some(parts)) => parts,
        Ok(None) => return Err(AuditRefusal::NotGiven {
            what: What::LogText,
        }),
        Err(_) => return Err(AuditRefusal::OutOfMemory),
    };
    match log_fault(frames, &parts) {
        Some(block) => Err(AuditRefusal::NotGiven {
            what: What::Log(block),
        }),
        None => Ok(parts),
    }
}
