// What is set from outside a machine for one boot.

/// The drive that is chosen for a developer boot.
#[derive(Clone, Copy, Debug, PartialEq, Eq)]
pub enum Choice {
    /// None: nvdata decides.
    Default,
    /// The fixed drive.
    Internal,
    /// The removable drive.
    External,
}

/// The switches of one boot.
#[derive(Clone, Copy, Debug, PartialEq, Eq)]
pub struct Switches {
    /// The recovery switch: a recovery by hand is asked for.
    pub recovery: bool,
    /// In a recovery by hand, developer mode is to be switched on.
    pub enable_dev: bool,
    /// The drive of a developer boot.
    pub choice: Choice,
}
