// What a refused call answers: why, where, and in which layer.
ghost use Rattle.std.specs.Prelude.{◌≡◌};
ghost use Rattle.model.specs.Faults.{cause_number, layer_number, fault};

// Why a call was refused, by the number that a refusal line prints.
#[derive(Clone, Copy, PartialEq, Eq, Debug)]
pub enum Cause {
    ShortTable = 10,
    NoForm = 11,
    OutsideLimits = 12,
    PeriodFalls = 13,
    NameUsed = 14,
    TooManyLines = 15,
    NoStageLine = 16,
    CountOutside = 20,
    BadRecord = 21,
    NoRoom = 22,
    NotAlone = 23,
    NoSuchStage = 31,
    NotOpen = 32,
    ShortPage = 41,
}

// The part of the product that refused.
#[derive(Clone, Copy, PartialEq, Eq, Debug)]
pub enum Layer {
    Reading = 1,
    Placing = 2,
    Running = 3,
    Writing = 4,
}

// A fault goes up unchanged through every call between the one that found it and the caller.
// The place is a line, a stage or the number that was given. It is 0, and no Option, where there is none: so
// the refusal line prints it.
#[derive(Clone, Copy, PartialEq, Eq, Debug)]
pub struct Fault {
    pub cause: Cause,
    pub place: usize,
    pub layer: Layer,
}

impl Cause {
    // The fault of this cause at a place, found by a layer.
    pub fn at(self, place: usize, layer: Layer) -> Fault
        ensures { result ≡ fault self place layer }
    {
        Fault {
            cause: self,
            place,
            layer,
        }
    }
}

impl From<Cause> for u8 {
    ghost from_gives = { λ cause number. number ≡ cause_number cause };

    fn from(cause: Cause) -> u8 {
        cause as u8
    }
}

impl From<Layer> for u8 {
    ghost from_gives = { λ layer number. number ≡ layer_number layer };

    fn from(layer: Layer) -> u8 {
        layer as u8
    }
}
