// Why the matcher's half refuses a call; the reader's codes stand in `judge`.
ghost use Rattle.std.specs.Prelude.{◌≡◌};

#[derive(Clone, Copy, Debug, PartialEq, Eq)]
pub enum Refusal {
    Tree,
    Pattern,
    Expressions,
    Constraints,
    Record,
    TooLarge,
    NoRoom,
    Forgotten,
    NoMatcher,
    Panel,
}

// 01's and 02's number for it.
impl From<Refusal> for u32 {
    ghost use Rattle.meaning.specs.Refusal.{code};

    ghost from_gives = { λ refusal number. number ≡ code refusal };

    fn from(refusal: Refusal) -> u32 {
        match refusal {
            Refusal::Tree => 11,
            Refusal::Pattern => 12,
            Refusal::Expressions => 13,
            Refusal::Constraints => 14,
            Refusal::Record => 15,
            Refusal::TooLarge => 16,
            Refusal::NoRoom => 17,
            Refusal::Forgotten => 19,
            Refusal::NoMatcher => 20,
            Refusal::Panel => 21,
        }
    }
}
