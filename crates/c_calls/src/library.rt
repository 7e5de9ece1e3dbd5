//! The library's version, and the names of the numbers that its calls return.
ghost use Rattle.std.specs.Prelude.{◌≡◌};
ghost use Rattle.c_calls.specs.Library.{name_numbered};

/// Returns the name of a number that a call returned: for 1 to 32 the name that scripts print. A number that no call
/// returns has no name.
pub fn name_of(number: u32) -> &'static str
    ensures { result.now ≡ name_numbered number }
{
    match number {
        0 => "Ok",
        1 => "BadClock",
        2 => "ClockFull",
        3 => "CounterFull",
        4 => "BadKey",
        5 => "BadValue",
        6 => "StaleContext",
        7 => "Crowded",
        8 => "JournalFull",
        9 => "OtherRange",
        10 => "Dirty",
        11 => "Stale",
        12 => "UnknownSession",
        13 => "NotAsked",
        14 => "WrongDigest",
        15 => "NotCanonical",
        16 => "OtherFormat",
        17 => "SessionsFull",
        18 => "NoSlot",
        19 => "ClockBack",
        20 => "UnknownHint",
        21 => "HintsFull",
        22 => "Gone",
        23 => "Behind",
        24 => "Unsettled",
        25 => "Stranger",
        26 => "LinkLost",
        27 => "BadRing",
        28 => "Down",
        29 => "BadLine",
        30 => "RowBroken",
        31 => "BadMessage",
        32 => "NoMemory",
        33 => "Small",
        34 => "Empty",
        35 => "Held",
        36 => "NoVersion",
        37 => "BadPosition",
        38.. => "",
    }
}
