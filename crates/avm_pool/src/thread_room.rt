//! Room for what a thread allocates.

use std::alloc::Global;

/// How many bytes a thread takes at most.
const MOST: usize = 16 << 20;

/// Has the allocator take room for the thread that calls, in one step: so many bytes for each of a count of things, up to
/// 16 MiB. It is address space, of which a page is taken where it is first written.
///
/// The C library's allocator has room of its own for each thread, and makes it larger by a page or a few at a time. Each time
/// it asks the operating system, which holds up the other threads of the process meanwhile. What is taken at once and given
/// back stays the thread's. A first block may be mapped by itself, since it is large; as it is given back, the allocator
/// learns to keep blocks of its size, and the second one is in the thread's room. Where there is no memory for it, nothing is
/// lost.
pub fn take_room(alloc: Global, count: usize, bytes: usize) {
    let room = count.saturating_mul(bytes).min(MOST);
    for _ in 0..2 {
        let _block = Vec::<u8>::with_capacity(alloc, room);
    }
}
