// The spellings that are known, found by a hash of their bytes: a chain of places for each bucket. The index is 2,048
// numbers for the buckets, then three for each known spelling: its start, its end, and where its chain goes on.
ghost use Rattle.std.specs.Prelude.{◌≡◌, List, [], ℕ, ◌+◌, ◌-◌, ◌*◌, ◌≤◌, ◌<◌, length, get_or};
ghost use Rattle.meaning.specs.Calls.{Says};
ghost use Rattle.dictionary.specs.Scan.{range};
ghost use Rattle.dictionary.specs.Numbers.{place_of};
ghost use Rattle.dictionary.specs.Index.{name_bucket, MayNumber, Numbered, inserted};

use words::{hash, same};

// The length counts too: of spellings that agree where the hash looks, each length has a bucket of its own.
fn bucket_of(text: &[u8], start: usize, end: usize) -> usize
    requires { (start ≤ end) × (end ≤ length text.now) }
    ensures { result ≡ name_bucket (range text.now start end) }
{
    let length = end - start;
    ((hash(text, start, length) / 67108864 + length as u64) % 2048) as usize
}

// Is the known spelling at `place` that of the document from `start` to `end`?
#[inline(always)]
fn is_at(
    dictionary: &[u8],
    document: &[u8],
    names: usize,
    index: &[u16],
    count: usize,
    place: usize,
    start: usize,
    end: usize,
) -> bool
    requires { ((known : List (List ℕ)) × MayNumber dictionary.now document.now names index.now count start end known) × (place < count) }
    ensures { (known : List (List ℕ)) → MayNumber dictionary.now document.now names index.now count start end known → Says result (get_or known place [] ≡ range document.now start end) }
{
    let at = usize::from(index[2048 + 3 * place]);
    let to = usize::from(index[2049 + 3 * place]);
    if to - at != end - start {
        return false;
    }
    if place < names {
        return same(dictionary, at, document, start, end - start);
    }
    same(document, at, document, start, end - start)
}

// The place of the document's spelling from `start` to `end` among those known, or `count`.
#[inline(always)]
fn seek(
    dictionary: &[u8],
    document: &[u8],
    names: usize,
    index: &[u16],
    count: usize,
    bucket: usize,
    start: usize,
    end: usize,
) -> usize
    requires { ((known : List (List ℕ)) × MayNumber dictionary.now document.now names index.now count start end known) × (bucket ≡ name_bucket (range document.now start end)) }
    ensures { (known : List (List ℕ)) → MayNumber dictionary.now document.now names index.now count start end known → result ≡ place_of known (range document.now start end) }
{
    let mut next = usize::from(index[bucket]);
    while 0 < next {
        let place = next - 1;
        if is_at(dictionary, document, names, index, count, place, start, end) {
            return place;
        }
        next = usize::from(index[2050 + 3 * place]);
    }
    count
}

fn insert(index: &mut [u16], count: usize, bucket: usize, start: usize, end: usize)
    requires { (2051 + 3 * count ≤ length index.old) × (count < 65535) × (bucket < 2048) × (start < 65536) × (end < 65536) }
    ensures { index.new ≡ inserted index.old count bucket start end }
{
    let first = index[bucket];
    index[2048 + 3 * count] = start as u16;
    index[2049 + 3 * count] = end as u16;
    index[2050 + 3 * count] = first;
    index[bucket] = (count + 1) as u16;
}

// The number of the document's spelling from `start` to `end`: its place among the `count` spellings known, of which the
// first `names` stand in the dictionary. A new one gets `count`, and is known from then on. In line, since the rows ask it of each row.
#[inline(always)]
pub fn number_of(
    dictionary: &[u8],
    document: &[u8],
    names: usize,
    index: &mut [u16],
    count: usize,
    start: usize,
    end: usize,
) -> usize
    requires { (known : List (List ℕ)) × MayNumber dictionary.now document.now names index.old count start end known }
    ensures { (known : List (List ℕ)) → MayNumber dictionary.now document.now names index.old count start end known → Numbered dictionary.now document.now names index.old index.new known (range document.now start end) result }
{
    let bucket = bucket_of(document, start, end);
    let place = seek(
        dictionary, document, names, index, count, bucket, start, end,
    );
    if place < count {
        return place;
    }
    insert(index, count, bucket, start, end);
    count
}
