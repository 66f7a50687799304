// Changes of a vector within the room that it has reserved, which take no memory.
ghost use Rattle.std.specs.Prelude.{◌≡◌, ◌≤◌, ◌+◌, ◌-◌, ◌++◌, length, take, drop, replicate, vec_capacity};
ghost use Rattle.host_model.specs.Images.{overwritten};

/// Replaces the range from `at` on. A gap is filled with zeros.
pub(crate) fn overwrite(read: &mut Vec<u8>, at: usize, bytes: &[u8])
    requires { at + length bytes.now ≤ vec_capacity read.old }
    ensures items { read.new.items ≡ overwritten read.old.items at bytes.now }
    ensures capacity { vec_capacity read.old ≤ vec_capacity read.new }
{
    grow(read, at + bytes.len());
    put(read, at, bytes);
}

// Fills up to a length with zeros.
fn grow(bytes: &mut Vec<u8>, len: usize)
    requires { len ≤ vec_capacity bytes.old }
    ensures items { bytes.new.items ≡ bytes.old.items ++ replicate (len - length bytes.old.items) 0 }
    ensures capacity { vec_capacity bytes.old ≤ vec_capacity bytes.new }
{
    if bytes.len() < len {
        let Ok(()) = bytes.resize(len, 0) else {
            unreachable!()
        };
    }
}

// Replaces the range from `at` on.
fn put(into: &mut [u8], at: usize, bytes: &[u8])
    requires { at + length bytes.now ≤ length into.old }
    ensures { into.new ≡ take at into.old ++ bytes.now ++ drop (at + length bytes.now) into.old }
{
    into[at..at + bytes.len()].copy_from_slice(bytes);
}

/// Puts 255 in each place of a range. A gap is filled with zeros.
pub(crate) fn mark(bytes: &mut Vec<u8>, at: usize, len: usize)
    requires { at + len ≤ vec_capacity bytes.old }
    ensures items { bytes.new.items ≡ overwritten bytes.old.items at (replicate len 255) }
    ensures capacity { vec_capacity bytes.old ≤ vec_capacity bytes.new }
{
    grow(bytes, at + len);
    fill_range(bytes, at, len);
}

// Puts 255 in each place of a range.
fn fill_range(into: &mut [u8], at: usize, len: usize)
    requires { at + len ≤ length into.old }
    ensures { into.new ≡ take at into.old ++ replicate len 255 ++ drop (at + len) into.old }
{
    into[at..at + len].fill(255);
}

/// Puts these bytes in the place of all that is there.
pub(crate) fn replace(bytes: &mut Vec<u8>, by: &[u8])
    requires { length by.now ≤ vec_capacity bytes.old }
    ensures items { bytes.new.items ≡ by.now }
    ensures capacity { vec_capacity bytes.old ≤ vec_capacity bytes.new }
{
    bytes.clear();
    extend(bytes, by);
}

/// Adds these bytes at the end.
pub(crate) fn extend(bytes: &mut Vec<u8>, by: &[u8])
    requires { length bytes.old.items + length by.now ≤ vec_capacity bytes.old }
    ensures items { bytes.new.items ≡ bytes.old.items ++ by.now }
    ensures capacity { vec_capacity bytes.old ≤ vec_capacity bytes.new }
{
    let Ok(()) = bytes.extend_from_slice(by) else {
        unreachable!()
    };
}
