//! Reading the whole input.

ghost use Rattle.std.specs.Prelude.{◌≡◌, ◌≤◌, ◌+◌, IfOk, IfSome, length};
ghost use Rattle.avm_input.specs.Answers.{IsInput, input_limit};

use std::alloc::Global;
use std::io::{self, ErrorKind, Read};

/// How many bytes an input has at most; this limit is the project's own.
pub const INPUT_LIMIT: usize = 16_777_216;

/// How many bytes are read at once: a page. A larger piece would be zeroed and touched for the smallest input too, and no longer
/// stand in the processor's nearest cache when it is copied.
const CHUNK: usize = 4_096;

/// How many bytes there is room for at first. Room that is not written costs nothing; what stands in too little room is copied.
const FIRST_ROOM: usize = 1_048_576;

/// A reader at which an interrupted read is a failed one, and is not tried again.
#[derive(Drop)]
struct Uninterrupted<R> {
    inner: R,
}

impl<R: Read> Read for Uninterrupted<R> {
    ghost remaining = { λ reader. R.remaining reader.inner };

    fn read(&mut self, buf: &mut [u8]) -> io::Result<usize> {
        match self.inner.read(buf) {
            Err(error) if error.kind() == ErrorKind::Interrupted => Err(io::Error::other(
                "an interrupted read",
            )),
            other => other,
        }
    }
}

/// The bytes of the reader to its end, or up to one more than an input has at most.
pub fn read_input<R: Read>(alloc: Global, reader: &mut R) -> io::Result<Vec<u8>>
    ensures { IfOk result (λ input. IsInput (R.remaining reader.old) input.items) }
{
    // glibc maps a large block by itself, and its pages are lost with it, until a mapped block as large was given back
    // (mallopt(3), M_MMAP_THRESHOLD). This one touches no page. Later ones stand on the heap, whose pages are used again.
    let _ = Vec::<u8>::with_capacity(alloc, INPUT_LIMIT);
    let mut limited = Uninterrupted { inner: reader }.take(INPUT_LIMIT as u64 + 1);
    let input = read_all(alloc, &mut limited)?;
    Ok(input)
}

/// The bytes of a reader to its end. They are put behind one another as they come, so that no room is zeroed for them.
fn read_all<R: Read>(alloc: Global, reader: &mut R) -> io::Result<Vec<u8>>
    ensures { IfOk result
        (λ input. IfSome (R.remaining reader.old) (λ bytes. input.items ≡ bytes)) }
{
    let mut input = Vec::with_capacity(alloc, FIRST_ROOM)?;
    let mut chunk = [0u8; CHUNK];
    'reads: for _ in 0..u64::MAX {
        let count = reader.read(&mut chunk)?;
        if count == 0 {
            return Ok(input);
        }
        input.extend_from_slice(&chunk[..count])?;
    }
    Err(io::Error::other("a reader without an end"))
}
