// Bytes written over others.
ghost use Rattle.std.specs.Prelude.{◌≡◌, ◌+◌, ◌-◌, ◌≤◌, ◌++◌, length, take, drop, replicate, vec_capacity};
ghost use Rattle.wat_disk.specs.Bytes.{written};

// Fills up with zeros to a length, if it is shorter, in the room that there is.
fn fill_up(held: &mut Vec<u8>, end: usize)
    requires { end ≤ vec_capacity held.old }
    ensures filled { held.new.items ≡ held.old.items ++ replicate (end - length held.old.items) 0 }
    ensures capacity { vec_capacity held.old ≤ vec_capacity held.new }
{
    if held.len() < end {
        held.resize(end, 0).unwrap();
    }
}

fn paste(held: &mut Vec<u8>, at: usize, bytes: &[u8])
    requires { at + length bytes.now ≤ length held.old.items }
    ensures pasted { held.new.items ≡ take at held.old.items ++ bytes.now ++ drop (at + length bytes.now) held.old.items }
    ensures capacity { vec_capacity held.new ≡ vec_capacity held.old }
{
    held[at..at + bytes.len()].copy_from_slice(bytes);
}

/// Writes at a place in the room that there is; zeros fill a gap before it.
pub fn overwrite(held: &mut Vec<u8>, at: usize, bytes: &[u8])
    requires { at + length bytes.now ≤ vec_capacity held.old }
    ensures written { held.new.items ≡ written held.old.items at bytes.now }
    ensures capacity { vec_capacity held.old ≤ vec_capacity held.new }
{
    fill_up(held, at + bytes.len());
    paste(held, at, bytes);
}
