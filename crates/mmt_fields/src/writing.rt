//! Writers of one field at the end of a vector that has room for it.
//!
//! Each appends the field and takes no memory: a writer of a whole format reserves the room for all
//! its fields first, so that want of memory leaves the vector as it was. Numbers are big-endian.

ghost use Rattle.std.specs.Prelude.{◌≡◌, ◌+◌, ◌^◌, ◌<◌, ◌≤◌, ◌++◌, length, vec_len, vec_capacity, take, drop};
ghost use Rattle.std.specs.Int.{w8, w16, w32, w64, w128};
ghost use Rattle.mmt_fields.specs.Reading.{big_endian};

/// Appends the bytes.
pub fn put_bytes(out: &mut Vec<u8>, bytes: &[u8])
    requires { vec_len out.old + length bytes.now ≤ vec_capacity out.old }
    ensures items { out.new.items ≡ out.old.items ++ bytes.now }
    ensures len { vec_len out.new ≡ vec_len out.old + length bytes.now }
    ensures capacity { vec_capacity out.old ≤ vec_capacity out.new }
{
    match out.extend_from_slice(bytes) {
        Ok(()) => {}
        Err(_) => unreachable!(),
    }
}

/// Appends the byte.
#[tactic(auto, unfolding(crate::specs::Reading::big_endian))]
pub fn put_u8(out: &mut Vec<u8>, n: u8)
    requires { vec_len out.old + 1 ≤ vec_capacity out.old }
    ensures items { out.new.items ≡ out.old.items ++ big_endian w8 n }
    ensures fits { n < 2 ^ 8 }
    ensures len { vec_len out.new ≡ vec_len out.old + 1 }
    ensures capacity { vec_capacity out.old ≤ vec_capacity out.new }
{
    put_bytes(out, &n.to_be_bytes());
}

/// Appends the number as two bytes.
#[tactic(auto, unfolding(crate::specs::Reading::big_endian))]
pub fn put_u16(out: &mut Vec<u8>, n: u16)
    requires { vec_len out.old + 2 ≤ vec_capacity out.old }
    ensures items { out.new.items ≡ out.old.items ++ big_endian w16 n }
    ensures fits { n < 2 ^ 16 }
    ensures len { vec_len out.new ≡ vec_len out.old + 2 }
    ensures capacity { vec_capacity out.old ≤ vec_capacity out.new }
{
    put_bytes(out, &n.to_be_bytes());
}

/// Appends the number as four bytes.
#[tactic(auto, unfolding(crate::specs::Reading::big_endian))]
pub fn put_u32(out: &mut Vec<u8>, n: u32)
    requires { vec_len out.old + 4 ≤ vec_capacity out.old }
    ensures items { out.new.items ≡ out.old.items ++ big_endian w32 n }
    ensures fits { n < 2 ^ 32 }
    ensures len { vec_len out.new ≡ vec_len out.old + 4 }
    ensures capacity { vec_capacity out.old ≤ vec_capacity out.new }
{
    put_bytes(out, &n.to_be_bytes());
}

/// Appends the number as eight bytes.
#[tactic(auto, unfolding(crate::specs::Reading::big_endian))]
pub fn put_u64(out: &mut Vec<u8>, n: u64)
    requires { vec_len out.old + 8 ≤ vec_capacity out.old }
    ensures items { out.new.items ≡ out.old.items ++ big_endian w64 n }
    ensures fits { n < 2 ^ 64 }
    ensures len { vec_len out.new ≡ vec_len out.old + 8 }
    ensures capacity { vec_capacity out.old ≤ vec_capacity out.new }
{
    put_bytes(out, &n.to_be_bytes());
}

/// Appends the number as sixteen bytes.
#[tactic(auto, unfolding(crate::specs::Reading::big_endian))]
pub fn put_u128(out: &mut Vec<u8>, n: u128)
    requires { vec_len out.old + 16 ≤ vec_capacity out.old }
    ensures items { out.new.items ≡ out.old.items ++ big_endian w128 n }
    ensures fits { n < 2 ^ 128 }
    ensures len { vec_len out.new ≡ vec_len out.old + 16 }
    ensures capacity { vec_capacity out.old ≤ vec_capacity out.new }
{
    put_bytes(out, &n.to_be_bytes());
}

/// Writes the number over the two bytes at `at`, as a length that is known only once what it counts
/// was appended.
#[tactic(auto, unfolding(crate::specs::Reading::big_endian))]
pub fn patch_u16(out: &mut Vec<u8>, at: usize, n: u16)
    requires { at + 2 ≤ vec_len out.old }
    ensures { out.new.items ≡ take at out.old.items ++ (big_endian w16 n ++ drop (at + 2) out.old.items) }
{
    let end = at + 2;
    out[at..end].copy_from_slice(&n.to_be_bytes());
}
