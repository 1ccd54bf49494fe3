ghost use Rattle.std.specs.Prelude.{◌≡◌};
ghost use Rattle.meaning.specs.Ending.{number};

// How a list ends: all of it, no room for a further matcher, no budget for a further try.
#[derive(Clone, Copy, Debug, PartialEq, Eq)]
pub enum Ending {
    All,
    Room,
    Budget,
}

impl From<Ending> for u32 {
    ghost from_gives = { λ ending n. n ≡ number ending };

    fn from(ending: Ending) -> u32 {
        match ending {
            Ending::All => 0,
            Ending::Room => 1,
            Ending::Budget => 2,
        }
    }
}
