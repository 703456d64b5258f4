// The card that test engineers carry: the least count that reaches 80 % of a full time TC.
ghost use Rattle.std.specs.Prelude.{true, ◌≡◌, ◌+◌, ◌≤◌, length};
ghost use Rattle.basis.specs.Tables.{every_from};
ghost use Rattle.quantities.specs.Limits.{least_time, greatest_time};
ghost use Rattle.power.specs.Power.{reaches};
ghost use Rattle.power.specs.Card.{is_least, least_count, CardDecides};

use crate::component::Trial;
use quantities::{GREATEST_TIME, LEAST_TIME};

// The counts, from TC 4 to TC 96.
const CARD: [u32; 93] = [
    4, // TC 4
    4, // TC 5
    5, // TC 6
    6, // TC 7
    7, // TC 8
    8, // TC 9
    8, // TC 10
    9, // TC 11
    10, // TC 12
    11, // TC 13
    12, // TC 14
    12, // TC 15
    13, // TC 16
    14, // TC 17
    15, // TC 18
    16, // TC 19
    16, // TC 20
    17, // TC 21
    18, // TC 22
    19, // TC 23
    20, // TC 24
    20, // TC 25
    21, // TC 26
    22, // TC 27
    23, // TC 28
    24, // TC 29
    24, // TC 30
    25, // TC 31
    26, // TC 32
    27, // TC 33
    28, // TC 34
    28, // TC 35
    29, // TC 36
    30, // TC 37
    31, // TC 38
    32, // TC 39
    32, // TC 40
    33, // TC 41
    34, // TC 42
    35, // TC 43
    36, // TC 44
    36, // TC 45
    37, // TC 46
    38, // TC 47
    39, // TC 48
    40, // TC 49
    40, // TC 50
    41, // TC 51
    42, // TC 52
    43, // TC 53
    44, // TC 54
    44, // TC 55
    45, // TC 56
    46, // TC 57
    47, // TC 58
    48, // TC 59
    48, // TC 60
    49, // TC 61
    50, // TC 62
    51, // TC 63
    52, // TC 64
    52, // TC 65
    53, // TC 66
    54, // TC 67
    55, // TC 68
    56, // TC 69
    56, // TC 70
    57, // TC 71
    58, // TC 72
    59, // TC 73
    60, // TC 74
    60, // TC 75
    61, // TC 76
    62, // TC 77
    63, // TC 78
    64, // TC 79
    64, // TC 80
    65, // TC 81
    66, // TC 82
    67, // TC 83
    68, // TC 84
    68, // TC 85
    69, // TC 86
    70, // TC 87
    71, // TC 88
    72, // TC 89
    72, // TC 90
    73, // TC 91
    74, // TC 92
    75, // TC 93
    76, // TC 94
    76, // TC 95
    77, // TC 96
];

// The card. Each entry has its rule, by a test over all of them.
fn card() -> [u32; 93]
    ensures { (every_from is_least least_time result ≡ true) × (least_time + length result ≡ greatest_time + 1) }
{
    CARD
}

// The card's count for TC, 0 for a TC that it does not have. No Option: the definition and the theorem CardDecides are over numbers, 0 is no
// count of readings, and both callers, the function for C and `reached`, would unwrap it.
#[tactic(auto, using(basis::proofs::Entries::every_at))]
pub fn least_count(tc: u32) -> u32
    ensures { result ≡ least_count tc }
{
    if tc < LEAST_TIME || GREATEST_TIME < tc {
        return 0;
    }
    // By `as`: a usize has no From from a u32.
    card()[(tc - LEAST_TIME) as usize]
}

// The count of a test reaches 80 % of its TC. No type of a full time in its range: two functions ask for that.
pub(crate) fn reached(trial: Trial) -> bool
    requires { (least_time ≤ trial.tc) × (trial.tc ≤ greatest_time) }
    ensures { result ≡ reaches trial.count trial.tc }
{
    least_count(trial.tc) <= trial.count
}

// A count reaches 80 % of a full time exactly from the card's count on.
pub fn card_decides()
    ensures { CardDecides }
{}
