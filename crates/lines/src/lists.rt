// The lists of a line, and the numbers that a list holds before it is lent.
ghost use Rattle.std.specs.Prelude.{◌≡◌, ℕ, ◌+◌, ◌<◌, ◌≤◌, ◌∷◌, length, IfNone, IfSome, slice_index, slice_range};

use crate::fields::{count, cut};
use crate::number;

// No answer writes this number, so that every write is seen.
pub const BEFORE: u32 = 4294967295;

// Does the list hold what it held before, from a place on?
pub fn unchanged(list: &[u32], from: usize) -> bool {
    list.iter().skip(from).all(|number| *number == BEFORE)
}

// What an item of a list stands for: the first number, how many there are, and how much each is below the one before.
#[derive(Drop)]
struct Run {
    first: u32,
    many: u32,
    down: u32,
}

fn counted_down(first: u32, last: u32) -> Option<Run> {
    Some(Run {
        first,
        many: first.checked_sub(last)?.checked_add(1)?,
        down: 1,
    })
}

fn run_of(item: &[u8]) -> Option<Run> {
    if let Some((first, many)) = cut(item, b'*') {
        return Some(Run {
            first: number(first)?,
            many: number(many)?,
            down: 0,
        });
    }
    if let Some((first, last)) = cut(item, b'.') {
        return counted_down(number(first)?, number(last.strip_prefix(b".")?)?);
    }
    Some(Run {
        first: number(item)?,
        many: 1,
        down: 0,
    })
}

// Puts the run's numbers at the room's beginning. How many they are, or none, and nothing is written, where they have no room.
fn fill(room: &mut [u32], run: Run) -> Option<usize>
    ensures many { IfSome result (λ many. many ≤ length room.new) }
    ensures unchanged { IfNone result (room.new ≡ room.old) }
{
    let many = run.many as usize;
    if room.len() < many {
        return None;
    }
    let mut value = run.first;
    for number in &mut room[..many] {
        *number = value;
        value = value.saturating_sub(run.down);
    }
    Some(many)
}

// Puts the list's numbers at the room's beginning. How many they are, or none where it cannot be read or they have no room.
fn read_list(text: &[u8], room: &mut [u32]) -> Option<usize>
    ensures { IfSome result (λ many. many ≤ length room.new) }
{
    let mut many = 0;
    // Two spaces have an empty item between them.
    for item in text
        .split(|byte| *byte == b' ')
        .filter(|item| !item.is_empty())
    {
        many += fill(&mut room[many..], run_of(item)?)?;
    }
    Some(many)
}

// Reads the text's lists one behind another into numbers, and where each ends into ends. How many there are, or none where
// one cannot be read, or where numbers or ends has no room for them.
pub fn read_lists(text: &[u8], numbers: &mut [u32], ends: &mut [usize]) -> Option<usize>
    ensures many { IfSome result (λ lists. lists ≤ length ends.new) }
    ensures room { IfSome result (λ lists. (k : ℕ) → k < lists → slice_index ends.new k ≤ length numbers.new) }
    ensures order { IfSome result (λ lists. (k : ℕ) → k + 1 < lists → slice_index ends.new k ≤ slice_index ends.new (k + 1)) }
{
    let lists = count(text, b'/');
    if ends.len() < lists {
        return None;
    }
    let mut parts = text.split(|byte| *byte == b'/');
    let mut end = 0;
    for list in 0..lists {
        end += read_list(parts.next().unwrap_or(b""), &mut numbers[end..])?;
        ends[list] = end;
    }
    Some(lists)
}

// The list of that number, from 0 on: what stands between the end of the one before it and its own. An empty part where there are fewer.
pub fn part<'a>(numbers: &'a [u32], ends: &[usize], list: usize) -> &'a [u32]
    ensures { list < length ends.now → slice_index ends.now list ≤ length numbers.now →
        result.now ≡ slice_range numbers.now (slice_index (0 ∷ ends.now) list) (slice_index ends.now list) }
{
    let Some(end) = ends.get(list) else {
        return &[];
    };
    let start = if list == 0 { 0 } else { ends[list - 1] };
    numbers.get(start..*end).unwrap_or(&[])
}

#[cfg(test)]
mod tests {
    use super::*;

    // The room is for all lists together, and for just so many numbers.
    #[test]
    fn reads_lists(rt: HostRuntime) {
        let text = b"1 2*3 / / 7..5";
        let mut numbers = [0; 7];
        let mut ends = [0; 3];
        assert_eq!(rt; read_lists(text, &mut numbers, &mut ends), Some(3));
        assert_eq!(rt; part(&numbers, &ends, 0), [1, 2, 2, 2].as_slice());
        assert_eq!(rt; part(&numbers, &ends, 1), [].as_slice());
        assert_eq!(rt; part(&numbers, &ends, 2), [7, 6, 5].as_slice());
        assert_eq!(rt; part(&numbers, &ends, 3), [].as_slice());
        assert_eq!(rt;
            read_lists(text, &mut [0; 6], &mut ends),
            None,
            "less room than the lists have numbers"
        );
        assert_eq!(rt;
            read_lists(text, &mut numbers, &mut [0; 2]),
            None,
            "fewer ends than lists"
        );
    }
}
