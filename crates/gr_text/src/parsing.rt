ghost use Rattle.gr_text.specs.Reader.{IsRead};

use crate::faults::ReadFault;
use crate::graphs::Graph;
use crate::reader::GrReader;
use limits::MAX_BYTES;
use std::alloc::Allocator;

/// Returns the graph that a text describes.
///
/// Otherwise returns the first error of the text with its line, or `Memory` if the allocator had no memory for the
/// edges. It returns `TooLong` for more than [`MAX_BYTES`] bytes, and never `Source`. The time is linear in the number
/// of bytes. The edges take 16 bytes each, in a list whose capacity doubles as it grows: at most 48 bytes per edge
/// while the list moves, and 32 after that.
pub fn parse<A: Allocator>(alloc: A, bytes: &[u8]) -> Result<Graph<A>, ReadFault>
    ensures { IsRead MAX_BYTES bytes.now result }
{
    let mut reader = GrReader::new(alloc, MAX_BYTES);
    let _ = reader.feed(bytes);
    reader.finish()
}
