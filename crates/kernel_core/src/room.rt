// The room that the body of a kernel is read into.
ghost use Rattle.std.specs.Prelude.{◌≡◌, ℕ, List, [], IfOk, length, vec_capacity};
ghost use Rattle.kernel_core.specs.Rooms.{HasBodyRoom};

use std::alloc::{AllocError, Global};
use std::marker::Model;

/// The most bytes that a kernel body has.
pub const LARGEST_BODY: u32 = 67108864;

/// The most bytes of a body that are read with one call.
pub const PIECE: u32 = 65536;

/// Room for the body of a kernel. Contracts see the body that it hands out.
#[derive(Drop)]
pub struct BodyRoom {
    pub(crate) body: Vec<u8>,
    pub(crate) piece: Vec<u8>,
}

impl Model for BodyRoom {
    ghost Value = { List ℕ };

    ghost view = { λ r. r.body.items };

    ghost invariant = { λ r. HasBodyRoom (vec_capacity r.body) (length r.piece.items) };
}

impl BodyRoom {
    /// Room for the largest body, with no body in it. The pages of the room are not touched before a body is read into them.
    ///
    /// `AllocError`: there is not so much memory.
    pub fn reserve(alloc: Global) -> Result<BodyRoom, AllocError>
        ensures { IfOk result (λ room. room ≡ []) }
    {
        let piece = vec![in alloc; 0; PIECE as usize]?;
        let body = Vec::with_capacity(alloc, LARGEST_BODY as usize)?;
        Ok(BodyRoom { body, piece })
    }

    /// The body of the kernel that was verified last, where that was good.
    pub fn bytes(&self) -> &[u8]
        ensures { result.now ≡ self.now }
    {
        &self.body
    }
}
