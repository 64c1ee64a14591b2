//! What the calls over bytes alone answer, by rows from outside: checksums, fields of a record, texts, and numbers of faults.
#![tactic(auto)]

#[cfg(test)]
mod faults;
#[cfg(test)]
mod records;
#[cfg(test)]
mod texts;
#[cfg(test)]
mod wires;
