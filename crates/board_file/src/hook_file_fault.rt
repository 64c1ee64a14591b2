// Why a hook file was not read.
use thiserror::Error;

/// Why a hook file was not read.
#[derive(Clone, Copy, Debug, PartialEq, Eq, Error)]
pub enum HookFileFault {
    /// The number of the first row that is refused, from 1, or 0 where the text or the count of rows is refused.
    #[error("the hook file is refused at row {0} (0: as a whole)")]
    BadHookFile(u32),
    /// Want of memory. It says nothing of the text.
    #[error("out of memory while a hook file was read")]
    Memory,
}
