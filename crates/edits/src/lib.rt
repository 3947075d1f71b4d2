// Edits of an opened volume: bytes put into a stream, and a stream's length changed. The units are listed in the work buffer before a byte is
// written, so nothing is read that a write has changed.
#![tactic(auto)]

pub mod overwrite;
pub mod resize;
