// Bytes that a line writes in short: `\n`, `\t` and `\s` are a line feed, a tab and a space, `\xHH` is the byte of two
// hex digits, and `{N:PIECE}` is the piece N times. In a piece `\0` to `\3` are the ones to the thousands of how many
// times it stands before, and `\4` to `\7` of how many times it still follows, so that many different names can be
// written, and their end tags. Any other byte after `\` is itself.
ghost use Rattle.std.specs.Prelude.{◌<◌, ◌≤◌, length, IfSome};
ghost use Rattle.std.specs.Iterator.{at_most};

use lines::fields::cut;

// The bytes of a piece that stands `pass` times before and `left` times after.
#[derive(Drop)]
struct Piece<'a> {
    rest: &'a [u8],
    pass: u32,
    left: u32,
}

fn hex(digit: u8) -> u8
    ensures { result < 16 }
{
    match digit {
        b'0'..=b'9' => digit - b'0',
        b'a'..=b'f' => digit - b'a' + 10,
        _ => 0,
    }
}

fn digit(number: u32, place: u8) -> u8 {
    let from_place = match place {
        0 => number,
        1 => number / 10,
        2 => number / 100,
        _ => number / 1000,
    };
    b'0' + (from_place % 10) as u8
}

impl Piece<'_> {
    // The byte that a `\` and a letter stand for, but for that of two hex digits.
    fn escaped(&self, letter: u8) -> u8 {
        match letter {
            b'n' => b'\n',
            b't' => b'\t',
            b's' => b' ',
            b'0'..=b'3' => digit(self.pass, letter - b'0'),
            b'4'..=b'7' => digit(self.left, letter - b'4'),
            _ => letter,
        }
    }
}

// A text that ends within an escape is read as if zeros followed.
impl Iterator for Piece<'_> {
    type Item = u8;

    ghost remaining = { λ s. at_most (length s.rest.now) };

    fn next(&mut self) -> Option<u8> {
        let (byte, rest) = match self.rest {
            [] => return None,
            [b'\\', b'x', high, low, rest @ ..] => (hex(*high) * 16 + hex(*low), rest),
            [b'\\', b'x', high] => (hex(*high) * 16, b"".as_slice()),
            [b'\\', b'x'] | [b'\\'] => (0, b"".as_slice()),
            [b'\\', letter, rest @ ..] => (self.escaped(*letter), rest),
            [byte, rest @ ..] => (*byte, rest),
        };
        self.rest = rest;
        Some(byte)
    }
}

// What stands from one `{` to the next: `N:PIECE}` and what follows.
#[derive(Drop)]
struct Braced<'a> {
    many: u32,
    piece: &'a [u8],
    behind: &'a [u8],
}

fn opened(text: &[u8]) -> Option<Braced<'_>> {
    let (inside, behind) = cut(text, b'}')?;
    let (many, piece) = cut(inside, b':')?;
    let many = lines::number(many)?;
    Some(Braced {
        many,
        piece,
        behind,
    })
}

// Writes the piece's bytes at the room's beginning. How many they are, or none where they have no room.
fn write_piece(piece: Piece<'_>, room: &mut [u8]) -> Option<usize>
    ensures { IfSome result (λ many. many ≤ length room.new) }
{
    let mut many = 0;
    for byte in piece {
        if room.len() <= many {
            return None;
        }
        room[many] = byte;
        many += 1;
    }
    Some(many)
}

// Writes the piece so many times at the room's beginning. How many bytes they are, or none where they have no room.
fn write_repeated(piece: &[u8], many: u32, room: &mut [u8]) -> Option<usize>
    ensures { IfSome result (λ end. end ≤ length room.new) }
{
    // An empty piece is nothing, however often it stands.
    if piece.is_empty() {
        return Some(0);
    }
    let mut end = 0;
    for pass in 0..many {
        let left = many - pass - 1;
        end += write_piece(
            Piece {
                rest: piece,
                pass,
                left,
            },
            &mut room[end..],
        )?;
    }
    Some(end)
}

// Writes the bytes that the text stands for at the room's beginning. How many they are, or none where it cannot be read or they have no room.
pub fn expand(text: &[u8], room: &mut [u8]) -> Option<usize>
    ensures { IfSome result (λ end. end ≤ length room.new) }
{
    let mut parts = text.split(|byte| *byte == b'{');
    let mut end = write_repeated(parts.next().unwrap_or(b""), 1, room)?;
    for part in parts {
        let Braced {
            many,
            piece,
            behind,
        } = opened(part)?;
        end += write_repeated(piece, many, &mut room[end..])?;
        end += write_repeated(behind, 1, &mut room[end..])?;
    }
    Some(end)
}
