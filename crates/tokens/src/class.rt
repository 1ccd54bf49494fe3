// The classes of bytes, from one fixed table that is lent to whoever looks at bytes.
ghost use Rattle.std.specs.Prelude.{◌≡◌, get_or, ◌≤◌};
ghost use Rattle.grammar.specs.Classes.{class_number};
ghost use Rattle.tokens.specs.Tokens.{Coded, Spread, Classed, stop_number};

// The classes by name: in no name and no text; `>`, which is text, but not behind `]]`; white space; in a name, not first; in a name. Of
// class 2 is other text.
pub const NONE: u8 = 0;

pub const GREATER: u8 = 1;

pub const WHITE: u8 = 3;

pub const IN_NAME: u8 = 4;

pub const FIRST: u8 = 5;

// The class of each of the 128 ASCII codes.
pub const CLASS: [u8; 128] = [
    0, 0, 0, 0, 0, 0, 0, 0, 0, 3, 3, 0, 0, 0, 0, 0, 0, 0, 0, 0, 0, 0, 0, 0, 0, 0, 0, 0, 0, 0, 0, 0,
    3, 2, 2, 2, 2, 2, 0, 2, 2, 2, 2, 2, 2, 4, 4, 2, 4, 4, 4, 4, 4, 4, 4, 4, 4, 4, 5, 2, 0, 2, 1, 2,
    2, 5, 5, 5, 5, 5, 5, 5, 5, 5, 5, 5, 5, 5, 5, 5, 5, 5, 5, 5, 5, 5, 5, 5, 5, 5, 5, 2, 2, 2, 2, 5,
    2, 5, 5, 5, 5, 5, 5, 5, 5, 5, 5, 5, 5, 5, 5, 5, 5, 5, 5, 5, 5, 5, 5, 5, 5, 5, 5, 2, 2, 2, 2, 2,
];

// A constant array is built anew wherever it is named, so it is named once a document.
fn codes() -> [u8; 128]
    ensures { Coded result }
{
    CLASS
}

// 1 for a class whose bytes stop plain text: the byte is none of a text, or it is `>`, which may not follow `]]`.
fn stop_of(c: u8) -> u8
    ensures { result ≡ stop_number c }
{
    if GREATER < c { 0 } else { 1 }
}

// The class of each of the 256 bytes, which no byte over 127 has, and room for as many numbers more.
fn spread() -> [u8; 512]
    ensures { Spread result }
{
    let mut class = [0u8; 512];
    class[..128].copy_from_slice(&codes());
    class
}

// The table that is lent to whoever looks at bytes: the class of each byte, and then whether the byte stops plain text.
#[derive(Drop)]
pub struct Classes {
    class: [u8; 512],
    ghost classed: { Classed class },
}

impl Classes {
    pub fn new() -> Classes {
        let mut class = spread();
        for k in 0..256 {
            class[256 + k] = stop_of(class[k]);
        }
        Classes::of(class)
    }

    // A caller's own table, if it is one: whoever has the classes of all bytes can lend them.
    pub fn of(class: [u8; 512]) -> Classes
        requires { Classed class }
        ensures { result.class ≡ class }
    {
        Classes { class }
    }

    pub fn class_of(&self, b: u8) -> u8
        ensures { result ≡ class_number b }
    {
        let i = b as usize;
        self.class[i]
    }

    pub fn stops(&self, b: u8) -> u32
        ensures { (result ≡ stop_number (class_number b)) × (result ≤ 1) }
    {
        let i = 256 + b as usize;
        self.class[i] as u32
    }
}

// The byte at k, and behind the end 0, which no document has.
pub fn byte_at(document: &[u8], k: usize) -> u8
    ensures { result ≡ get_or document.now k 0 }
{
    if k < document.len() { document[k] } else { 0 }
}
