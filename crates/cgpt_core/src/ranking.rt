// The kernels of a table are ordered: by groups of one priority, from the top down.
ghost use Rattle.std.specs.Prelude.{◌≡◌, ◌<◌, ◌≤◌, ℕ, true, ◌&&◌, nat_eq, nat_le, nat_lt, get_or};
ghost use Rattle.gpt_core.specs.Format.{IsValidTable};
ghost use Rattle.cgpt_core.specs.Adding.{is_in_range, passes, Edits};
ghost use Rattle.cgpt_core.specs.Ranking as spec;

use crate::adding::is_in_range;
use crate::call::CgptCall;
use crate::fault::CgptFault;
use crate::putting::used_entry;
use gpt_core::{GptRoom, KERNEL_TYPE, priority_of, with_priority};

// The group of the entries that are moved to the top.
const TOP: u8 = 16;

// Gives the kernels of the room's table their new priorities.
pub(crate) fn prioritize(room: &mut GptRoom, call: &CgptCall) -> Result<(), CgptFault>
    requires known { 1 ≤ room.old.sectors }
    requires valid { IsValidTable room.old.sectors room.old.table }
    ensures { Edits (spec.prioritized call.now room.old.table) room.old room.new result }
{
    if !is_in_range(call) {
        return Err(CgptFault::BadValue);
    }
    if let Some(why) = refusal(call, room) {
        return Err(why);
    }
    let levels = levels_of(call, room);
    let attributes = attributes_ranked(call.priority, room, &levels);
    room.set_all_attributes(&attributes);
    Ok(())
}

// Why the entry that is given cannot be moved.
fn refusal(call: &CgptCall, room: &GptRoom) -> Option<CgptFault>
    requires known { 1 ≤ room.now.sectors }
    requires valid { IsValidTable room.now.sectors room.now.table }
    requires range { is_in_range call.now ≡ true }
    ensures { result ≡ spec.refusal_at call.now.index room.now.table.entries }
{
    match call.index {
        Some(index) => refusal_of(room, index - 1),
        None => None,
    }
}

fn refusal_of(room: &GptRoom, k: u32) -> Option<CgptFault>
    requires known { 1 ≤ room.now.sectors }
    requires valid { IsValidTable room.now.sectors room.now.table }
    requires place { k < 128 }
    ensures { result ≡ spec.refusal_of room.now.table.entries k }
{
    match used_entry(room, k) {
        None => Some(CgptFault::NoEntry),
        Some(entry) => {
            if entry.kind == KERNEL_TYPE {
                None
            } else {
                Some(CgptFault::BadValue)
            }
        }
    }
}

// ---- groups

// The priority of entry `k`, or 0 where it is no kernel.
fn priority_in(room: &GptRoom, k: u32) -> u8
    requires { k < 128 }
    ensures value { result ≡ spec.priority_in room.now.table.entries k }
    ensures most { result ≤ 15 }
{
    let entry = room.entry(k + 1);
    if entry.kind == KERNEL_TYPE {
        priority_of(entry.attributes) as u8
    } else {
        0
    }
}

// Whether entry `k` moves to the top with the entry `moved`.
fn moves_with(friends: bool, room: &GptRoom, moved: u32, k: u32) -> bool
    requires moved { moved < 128 }
    requires place { k < 128 }
    ensures { result ≡ spec.moves_with friends room.now.table.entries moved k }
{
    let group = priority_in(room, moved);
    let here = priority_in(room, k);
    k == moved || (friends && 1 <= group && here == group)
}

// Whether entry `k` moves to the top.
fn is_moved(call: &CgptCall, room: &GptRoom, k: u32) -> bool
    requires place { k < 128 }
    requires range { is_in_range call.now ≡ true }
    ensures { result ≡ spec.is_moved call.now.index call.now.friends room.now.table.entries k }
{
    match call.index {
        Some(index) => moves_with(call.friends, room, index - 1, k),
        None => false,
    }
}

// The group of entry `k`: 16 at the top, and 0 for none.
fn level(call: &CgptCall, room: &GptRoom, k: u32) -> u8
    requires place { k < 128 }
    requires range { is_in_range call.now ≡ true }
    ensures level { result ≡ spec.level call.now room.now.table.entries k }
    ensures most { result ≤ 16 }
{
    if is_moved(call, room, k) {
        TOP
    } else {
        priority_in(room, k)
    }
}

// The groups of all entries.
fn levels_of(call: &CgptCall, room: &GptRoom) -> [u8; 128]
    requires { is_in_range call.now ≡ true }
    ensures { (k : ℕ) → k < 128 → get_or result k 0 ≡ spec.level call.now room.now.table.entries k }
{
    let mut levels = [0; 128];
    for k in 0..128 {
        levels[k as usize] = level(call, room, k);
    }
    levels
}

// ---- ranks

// Whether an entry is in this group.
fn is_group(levels: &[u8; 128], group: u8) -> bool
    ensures { result ≡ spec.is_group (λ k. get_or levels.now k 0) group }
{
    for k in 0..128 {
        if has_level(levels, k, group) {
            return true;
        }
    }
    false
}

fn has_level(levels: &[u8; 128], k: u32, group: u8) -> bool
    requires { k < 128 }
    ensures { result ≡ nat_eq (get_or levels.now k 0) group }
{
    levels[k as usize] == group
}

// How many groups stand above this one.
fn rank(levels: &[u8; 128], group: u8) -> u8
    ensures rank { result ≡ spec.rank (λ k. get_or levels.now k 0) group }
    ensures most { result ≤ 17 }
{
    let mut count = 0;
    for above in 0..17 {
        if is_above(levels, group, above) {
            count += 1;
        }
    }
    count
}

// Whether an entry is in this group, which is above the other.
fn is_above(levels: &[u8; 128], group: u8, above: u8) -> bool
    ensures { result ≡ (nat_lt group above && spec.is_group (λ k. get_or levels.now k 0) above) }
{
    group < above && is_group(levels, above)
}

// The value of the top group.
fn top_value(given: Option<u8>, levels: &[u8; 128]) -> u8
    requires { passes (λ value. nat_le value 15) given ≡ true }
    ensures value { result ≡ spec.top_value given (λ k. get_or levels.now k 0) }
    ensures most { result ≤ 15 }
{
    match given {
        Some(value) => value,
        None => rank(levels, 0).min(15),
    }
}

// The value of a group.
fn value_of(given: Option<u8>, levels: &[u8; 128], group: u8) -> u8
    requires { passes (λ value. nat_le value 15) given ≡ true }
    ensures value { result ≡ spec.value_of given (λ k. get_or levels.now k 0) group }
    ensures most { result ≤ 15 }
{
    top_value(given, levels)
        .saturating_sub(rank(levels, group))
        .max(1)
}

// The attributes of entry `k`, of this group.
fn attributes_at(given: Option<u8>, room: &GptRoom, levels: &[u8; 128], k: u32) -> u64
    requires place { k < 128 }
    requires range { passes (λ value. nat_le value 15) given ≡ true }
    ensures { result ≡ spec.attributes_ranked given (λ k. get_or levels.now k 0) room.now.table.entries k }
{
    let attributes = room.entry(k + 1).attributes;
    let group = levels[k as usize];
    if group == 0 {
        return attributes;
    }
    with_priority(attributes, value_of(given, levels, group))
}

// The attributes of all entries.
fn attributes_ranked(given: Option<u8>, room: &GptRoom, levels: &[u8; 128]) -> [u64; 128]
    requires { passes (λ value. nat_le value 15) given ≡ true }
    ensures { (k : ℕ) → k < 128
        → get_or result k 0 ≡ spec.attributes_ranked given (λ j. get_or levels.now j 0) room.now.table.entries k }
{
    let mut attributes = [0; 128];
    for k in 0..128 {
        attributes[k as usize] = attributes_at(given, room, levels, k);
    }
    attributes
}
