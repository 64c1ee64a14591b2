// What becomes of the attributes of a kernel's entry.
ghost use Rattle.std.specs.Prelude.{◌≡◌};
ghost use Rattle.walk_core.specs.Attributes as spec;

use gpt_core::{successful_of, tries_of};

// What one of priority, tries and the successful bit counts in the attributes.
const PRIORITY_UNIT: u64 = 1 << 48;

const TRIES_UNIT: u64 = 1 << 52;

const SUCCESSFUL_UNIT: u64 = 1 << 56;

/// Whether the kernel was booted with success: bit 56.
pub fn is_successful(attributes: u64) -> bool
    ensures { result ≡ spec.is_successful attributes }
{
    successful_of(attributes) != 0
}

// The attributes with priority 0 and no try left.
fn given_up(attributes: u64) -> u64
    ensures { result ≡ spec.given_up attributes }
{
    attributes / SUCCESSFUL_UNIT * SUCCESSFUL_UNIT + attributes % PRIORITY_UNIT
}

/// The attributes after the kernel was tried: those of a successful one stay. Any other has one try less, and with the last
/// one its priority goes, too.
pub fn tried_attributes(attributes: u64) -> u64
    ensures { result ≡ spec.tried attributes }
{
    if is_successful(attributes) {
        return attributes;
    }
    if tries_of(attributes) >= 2 {
        attributes - TRIES_UNIT
    } else {
        given_up(attributes)
    }
}

/// The attributes after the kernel was found bad: those of a successful one stay. Any other has no try left and priority 0.
pub fn bad_attributes(attributes: u64) -> u64
    ensures { result ≡ spec.found_bad attributes }
{
    let stays = is_successful(attributes);
    if stays {
        attributes
    } else {
        given_up(attributes)
    }
}
