// A range of the bytes of a device in memory.
ghost use Rattle.std.specs.Prelude.{◌≡◌, ◌+◌, ◌≤◌, length};
ghost use Rattle.board_core.specs.Flash.{spliced};

/// Puts these bytes in the place of as many from `at`.
pub fn replace(content: &mut Vec<u8>, at: usize, bytes: &[u8])
    requires { at + length bytes.now ≤ length content.old.items }
    ensures content { content.new.items ≡ spliced content.old.items at bytes.now }
    ensures same_length { length content.new.items ≡ length content.old.items }
{
    content[at..at + bytes.len()].copy_from_slice(bytes);
}
