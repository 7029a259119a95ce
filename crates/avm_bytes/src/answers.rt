//! Answers, and the room that a caller lends for them.

ghost use Rattle.std.specs.Prelude.{◌≡◌};
ghost use Rattle.avm_bytes.specs.declared.statuses.Status.TheVariants as status;
ghost use Rattle.avm_bytes.specs.Answers.{IsPlaced, done, refusal};
ghost use Rattle.avm_bytes.specs.Shown.{answer_shown};
ghost use Rattle.avm_bytes.specs.Statuses.{status_number};

use crate::statuses::Status;
use std::alloc::Global;

/// A status, by its number, and the bytes that go with it.
#[derive(Drop)]
pub struct Answer {
    pub status: u32,
    pub bytes: Vec<u8>,
}

/// The answer of what was done.
pub fn done(bytes: Vec<u8>) -> Answer
    ensures { answer_shown result ≡ done bytes.items }
{
    let status = Status::Done.number();
    Answer { status, bytes }
}

/// An answer that has a status alone.
pub fn refusal(alloc: Global, why: Status) -> Answer
    ensures { answer_shown result ≡ refusal why }
{
    let status = why.number();
    let bytes = Vec::new(alloc);
    Answer { status, bytes }
}

/// Puts an answer at the beginning of the room, and says how many bytes it has; all of it or, where it is longer than the room,
/// none. The status is the answer's, or [`Status::NoRoom`].
pub fn place(answer: &Answer, room: &mut [u8], written: &mut usize) -> u32
    ensures { IsPlaced (answer_shown answer.now) room.old room.new written.new result }
{
    let bytes = answer.bytes.as_slice();
    let count = bytes.len();
    *written = count;
    if count > room.len() {
        return Status::NoRoom.number();
    }
    room[..count].copy_from_slice(bytes);
    answer.status
}

/// Says that nothing was written, since memory was refused.
pub fn place_nothing(written: &mut usize) -> u32
    ensures status { result ≡ status_number status.Memory }
    ensures written { written.new ≡ 0 }
{
    *written = 0;
    Status::Memory.number()
}
