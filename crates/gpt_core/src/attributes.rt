// The fields of a kernel's attributes.
ghost use Rattle.std.specs.Prelude.{◌≡◌, ◌≤◌};
ghost use Rattle.gpt_core.specs.Attributes as spec;

/// The GUID of a kernel's type, fe3a2a5d-4f32-41a7-b725-accc3285a309, as a disk stores it. Source: the ChromiumOS disk format.
pub const KERNEL_TYPE: [u8; 16] = [
    0x5d, 0x2a, 0x3a, 0xfe, 0x32, 0x4f, 0xa7, 0x41, 0xb7, 0x25, 0xac, 0xcc, 0x32, 0x85, 0xa3, 0x09,
];

// The lowest bit of each field, as a number.
const PRIORITY: u64 = 1 << 48;

const TRIES: u64 = 1 << 52;

const SUCCESSFUL: u64 = 1 << 56;

const REST: u64 = 1 << 57;

/// The priority of a kernel, from 0 to 15: bits 48 to 51.
pub fn priority_of(attributes: u64) -> u64
    ensures value { result ≡ spec.priority_of attributes }
    ensures most { result ≤ 15 }
{
    attributes / PRIORITY % 16
}

/// The tries that are left to a kernel, from 0 to 15: bits 52 to 55.
pub fn tries_of(attributes: u64) -> u64
    ensures { result ≡ spec.tries_of attributes }
{
    attributes / TRIES % 16
}

/// Whether a kernel was successful, 0 or 1: bit 56.
pub fn successful_of(attributes: u64) -> u64
    ensures { result ≡ spec.successful_of attributes }
{
    attributes / SUCCESSFUL % 2
}

/// The attributes with this priority.
pub fn with_priority(attributes: u64, priority: u8) -> u64
    requires { priority ≤ 15 }
    ensures { result ≡ spec.with_priority priority attributes }
{
    attributes / TRIES * TRIES + u64::from(priority) * PRIORITY + attributes % PRIORITY
}

/// The attributes with so many tries left.
pub fn with_tries(attributes: u64, tries: u8) -> u64
    requires { tries ≤ 15 }
    ensures { result ≡ spec.with_tries tries attributes }
{
    attributes / SUCCESSFUL * SUCCESSFUL + u64::from(tries) * TRIES + attributes % TRIES
}

/// The attributes of a kernel that was successful, 1, or not, 0.
pub fn with_successful(attributes: u64, successful: u8) -> u64
    requires { successful ≤ 1 }
    ensures { result ≡ spec.with_successful successful attributes }
{
    attributes / REST * REST + u64::from(successful) * SUCCESSFUL + attributes % SUCCESSFUL
}

/// The attributes with these as the highest 16 bits.
pub fn with_highest(attributes: u64, bits: u16) -> u64
    ensures { result ≡ spec.with_highest bits attributes }
{
    u64::from(bits) * PRIORITY + attributes % PRIORITY
}
