// Numbers that a line gives as lists of their own.
ghost use Rattle.std.specs.Prelude.{◌≤◌, length};

// The only number of a list.
pub fn only(list: &[u32]) -> Option<u32> {
    match list {
        [only] => Some(*only),
        _ => None,
    }
}

// How much of the list is lent: as much as the line says, or all of it where it has less. It takes the list, so that its contract can speak of it.
pub fn room(wanted: &[u32], list: &[u32]) -> usize
    ensures { result ≤ length list.now }
{
    list.len().min(only(wanted).unwrap_or(0) as usize)
}
