//! A buffer for one call.
ghost use Rattle.std.specs.Prelude.{◌<◌, IfOk, vec_len};

use std::alloc::{AllocError, Global};

/// How many octets one call reads at most.
const PIECE: usize = 65536;

/// A buffer of that many octets.
pub fn new_piece(alloc: Global) -> Result<Vec<u8>, AllocError>
    ensures { IfOk result (λ piece. 0 < vec_len piece) }
{
    vec![in alloc; 0u8; PIECE]
}
