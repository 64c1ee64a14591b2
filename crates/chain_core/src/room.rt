// The room that a slot is verified in.
ghost use Rattle.std.specs.Prelude.{◌≡◌, ℕ, List, [], IfOk, length, vec_capacity};
ghost use Rattle.chain_core.specs.Room.{HasRoom};

use std::alloc::{AllocError, Global};
use std::marker::Model;

/// The most bytes that the area of a keyblock and preamble has.
pub const LARGEST_VBLOCK: usize = 65536;

/// The most bytes that the area of a firmware body has.
pub const LARGEST_MAIN: usize = 16777216;

/// Room for what is read of a slot. Contracts see the body that it hands out.
#[derive(Drop)]
pub struct SlotRoom {
    pub(crate) vblock: Vec<u8>,
    pub(crate) body: Vec<u8>,
}

impl Model for SlotRoom {
    ghost Value = { List ℕ };

    ghost view = { λ r. r.body.items };

    ghost invariant = { λ r. HasRoom (length r.vblock.items) (vec_capacity r.body) };
}

impl SlotRoom {
    /// Room for the largest slot, with no body in it. The pages of the body's room are not touched before a body is read into
    /// them. Of all calls on slots this one alone takes memory.
    ///
    /// `AllocError`: there is not so much memory.
    pub fn reserve(alloc: Global) -> Result<SlotRoom, AllocError>
        ensures { IfOk result (λ room. room ≡ []) }
    {
        let vblock = vec![in alloc; 0; LARGEST_VBLOCK]?;
        let body = Vec::with_capacity(alloc, LARGEST_MAIN)?;
        Ok(SlotRoom { vblock, body })
    }

    /// The body of the slot that was verified last, where that was good: the first bytes of its area.
    pub fn body(&self) -> &[u8]
        ensures { result.now ≡ self.now }
    {
        &self.body
    }
}
