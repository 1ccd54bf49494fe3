// Why the reader refuses: 01's codes 1 to 6.
ghost use Rattle.std.specs.Prelude.{◌≡◌, ◌≤◌, Err};
ghost use Rattle.judge.specs.Answer.{number_of_refusal, place_of};

#[derive(Clone, Copy, PartialEq, Eq)]
pub enum Refusal {
    BadDictionary,
    TooLong,
    // Not in the subset: the place from which on no document goes on so.
    Outside(u32),
    TooDeep,
    TooMany,
    NoRoom,
}

impl Refusal {
    // 0 where the refusal names no place.
    pub fn place(self) -> u32
        ensures { result ≡ place_of (Err self) }
    {
        match self {
            Refusal::Outside(place) => place,
            _ => 0,
        }
    }
}

// The code.
impl From<Refusal> for u32 {
    ghost from_gives = { λ refusal code. code ≡ number_of_refusal refusal };

    fn from(refusal: Refusal) -> u32 {
        match refusal {
            Refusal::BadDictionary => 1,
            Refusal::TooLong => 2,
            Refusal::Outside(_) => 3,
            Refusal::TooDeep => 4,
            Refusal::TooMany => 5,
            Refusal::NoRoom => 6,
        }
    }
}

// No place is too large: documents are short.
pub fn outside(place: usize) -> Refusal
    requires { place ≤ 32768 }
    ensures { result ≡ Refusal.Outside place }
{
    Refusal::Outside(place as u32)
}
