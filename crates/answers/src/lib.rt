// The answers of the public calls: what an accepted call tells, or why it is refused.
#![tactic(auto)]

ghost use Rattle.std.specs.Prelude.{◌≡◌};
ghost use Rattle.answers.specs.Answers.{number};

// Why a call is refused, with the number of docs/FORMATS.md.
#[derive(Clone, Copy, PartialEq, Eq)]
pub enum Refusal {
    SiteTooLong = 1,
    SiteCut = 2,
    SiteHead = 3,
    SiteLayout = 4,
    StateCell = 5,
    Motion = 6,
    BoardLength = 7,
    LightLayout = 8,
    HolderRange = 9,
    OutOfRange = 10,
    GoalRolling = 11,
    HolderStands = 12,
    HolderAbsent = 13,
    AreaShort = 14,
    LastEdition = 15,
    StaleLight = 16,
    Conflict = 17,
    NoPlan = 18,
    TooFar = 19,
    NoPicture = 20,
}

impl From<Refusal> for u8 {
    ghost from_gives = { λ r n. n ≡ number r };

    fn from(r: Refusal) -> u8 {
        r as u8
    }
}

// What a granted route tells: the light's length in bytes, and the arrival.
#[derive(Clone, Copy)]
pub struct Granted {
    pub len: u16,
    pub arrival: u16,
}
