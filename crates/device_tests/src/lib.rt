//! Devices, in memory and over files, and what stands on them: what failures and stops leave of nvdata and of a partition table, and
//! values of words that no command shows yet.
#![tactic(auto)]

#[cfg(test)]
mod commits;
#[cfg(test)]
mod files;
#[cfg(test)]
mod memory;
#[cfg(test)]
mod memory_disks;
#[cfg(test)]
mod nvdata;
#[cfg(test)]
mod values;
