// A flash: pages of 4,096 bytes that are erased to 0xff before they are programmed.
ghost use Rattle.std.specs.Prelude.{◌≡◌, ℕ, ◌+◌, ◌*◌, ◌%◌, ◌≤◌, length, IsTrue};
ghost use Rattle.board_core.specs.declared.counters.FuseState.TheVariants.{Armed};
ghost use Rattle.board_core.specs.Flash.{FlashState, Reads, Programs, Erases, erased_page};

use crate::device::Failed;

/// Bytes that are erased in pages of 4,096 and programmed within a page. Places and lengths are in bytes. This is the
/// project's own model of a device. `program` and `erase` are its changing calls.
///
/// Each call that answers `Failed` raises the count of faults, and a failed program or erase raises the number of failed
/// changes too. A failed change may leave any bytes in a front of its range, which it then notes as torn.
pub trait Flash {
    ghost state: { Self → FlashState };

    /// The number of bytes. No call changes it.
    fn size(&self) -> u32
        ensures { result ≡ (state self.now).medium.size };

    /// Fills `buf` with the bytes from `at`.
    ///
    /// `Failed`: `buf` holds any bytes. The flash is as it was, whatever the answer.
    fn read(&mut self, at: u32, buf: &mut [u8]) -> Result<(), Failed>
        requires { at + length buf.old ≤ (state self.old).medium.size }
        ensures meets { Reads at buf.new (state self.old) (state self.new) result };

    /// Programs the bytes from `at`, in a range that lies inside one page. The range holds them where all its bytes were
    /// 0xff; else any bytes may stand in it.
    ///
    /// `Failed`: any bytes may stand in a front of the range, which is noted as torn.
    fn program(&mut self, at: u32, bytes: &[u8]) -> Result<(), Failed>
        requires inside { at + length bytes.now ≤ (state self.old).medium.size }
        requires one_page { at % 4096 + length bytes.now ≤ 4096 }
        ensures meets { Programs at bytes.now (state self.old) (state self.new) result };

    /// Erases the page of this number: its 4,096 bytes are 0xff.
    ///
    /// `Failed`: any bytes may stand in a front of the page, which is noted as torn.
    fn erase(&mut self, page: u32) -> Result<(), Failed>
        requires { page * 4096 + 4096 ≤ (state self.old).medium.size }
        ensures meets { Erases page (state self.old) (state self.new) result };

    /// An armed stop has a call to go.
    ghost armed: { (flash : Self) (left keep : ℕ) → (state flash).counters.stop ≡ Armed left keep → 1 ≤ left };

    /// The bytes that are told are as many as the size.
    ghost told_size: { (flash : Self) → IsTrue (state flash).medium.told → length (state flash).medium.bytes ≡ (state flash).medium.size };
}

/// A page of 4,096 bytes after an erase: each byte is 0xff.
pub fn make_erased_page() -> [u8; 4096]
    ensures { result ≡ erased_page }
{
    [0xff; 4096]
}
