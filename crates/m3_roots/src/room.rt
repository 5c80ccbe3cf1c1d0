ghost use Rattle.std.specs.Prelude.{◌≤◌, IfOk};
ghost use Rattle.m3_roots.specs.RoomSizes.{IsRoomFor};

use crate::marks::{BLANK, Mark};
use m3_base::NoMemory;
use m3_run_frames::Frame;
use std::alloc::Global;

/// What a collection needs beside the machine's words, for one thread at a time: a list of frames,
/// and marks for the sixteen registers and each word of a stack. It is made once.
#[derive(Drop)]
pub struct Room {
    pub(crate) frames: Vec<Frame>,
    pub(crate) marks: Vec<Mark>,
}

impl Room {
    /// Room for the frames and the words of a stack of so many words.
    pub fn new(alloc: Global, stack: u64) -> Result<Room, NoMemory>
        requires { stack ≤ 1048576 }
        ensures { IfOk result (λ room. IsRoomFor stack room) }
    {
        let frames = Vec::with_capacity(alloc, stack as usize + 1)?;
        let marks = vec![in alloc; BLANK; stack as usize + 16]?;
        Ok(Room { frames, marks })
    }
}
