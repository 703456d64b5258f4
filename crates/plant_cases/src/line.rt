// The lines of the worked examples, in decimal numbers with blanks between. Any bytes are lines.
use plant::{Component, Components, Hours, Kw, Kwh, Minutes, Plant, Trial};
use std::alloc::{AllocError, Global};

// The most numbers of a line: a test with its greatest count and more. Those behind them are passed over.
const MOST: usize = 112;

// The greatest number that another digit may follow, whatever the digit.
const BEFORE_LAST_DIGIT: u32 = 429_496_728;

// The numbers of a line. Each ends at the byte behind it, which may be any but a digit, so that one at the input's end is none.
pub fn numbers_of(alloc: Global, line: &[u8]) -> Result<Vec<u32>, AllocError> {
    let mut numbers = Vec::new(alloc);
    let mut number = 0;
    for byte in line {
        if !byte.is_ascii_digit() {
            if numbers.len() < MOST {
                numbers.push(number)?;
            }
            number = 0;
        } else if number <= BEFORE_LAST_DIGIT {
            number = number * 10 + u32::from(*byte - b'0');
        }
    }
    Ok(numbers)
}

// A component of the unit, by its number: any above 1 stands for the storage.
#[derive(Clone, Copy, Debug, PartialEq, Eq)]
pub enum Part {
    Set,
    Generator,
    Storage,
}

impl From<u32> for Part {
    fn from(number: u32) -> Part {
        match number {
            0 => Part::Set,
            1 => Part::Generator,
            _ => Part::Storage,
        }
    }
}

impl Part {
    pub fn of(self, components: &mut Components) -> &mut Component {
        match self {
            Part::Set => &mut components.set,
            Part::Generator => &mut components.generator,
            Part::Storage => &mut components.storage,
        }
    }
}

// What a line asks for.
#[derive(Clone, Copy, Debug, PartialEq, Eq)]
pub enum Line<'a> {
    // a new unit with its PIC, if given, without an answer
    Unit {
        cap: Option<Kw>,
    },
    // a test of a component: how it went, the bytes of the readings that are lent, and the readings
    Test {
        part: Part,
        trial: Trial,
        length: u32,
        readings: &'a [u32],
    },
    // an availability of a component
    Availability {
        part: Part,
        minutes: Minutes,
    },
    // the firm offer
    Offer {
        plant: Plant,
        hours: Hours,
    },
    // the efficient offers of units, of which flags and offer stand by turns
    Efficient(&'a [u32]),
}

// A number that is not there counts as 0.
impl<'a> From<&'a [u32]> for Line<'a> {
    fn from(numbers: &'a [u32]) -> Line<'a> {
        let number = |place: usize| numbers.get(place).copied().unwrap_or(0);
        match number(0) {
            0 => Line::Unit {
                cap: (number(1) != 0).then_some(Kw(number(2))),
            },
            1 => Line::Test {
                part: Part::from(number(1)),
                trial: Trial {
                    ending: number(2),
                    tc: number(3),
                    count: number(4),
                },
                length: number(5),
                readings: numbers.get(6..).unwrap_or_default(),
            },
            2 => Line::Availability {
                part: Part::from(number(1)),
                minutes: Minutes {
                    hd: number(2),
                    hmp: number(3),
                    hif: number(4),
                    hed: number(5),
                },
            },
            3 => Line::Offer {
                plant: Plant {
                    kind: number(1),
                    report: number(2) != 0,
                    ppr: Kw(number(3)),
                    e1: Kwh(number(4)),
                    e2: Kwh(number(5)),
                    cap: Kwh(number(6)),
                },
                hours: Hours {
                    nhrm: number(7),
                    nhmd: number(8),
                    ndhmd: number(9),
                },
            },
            _ => Line::Efficient(numbers.get(1..).unwrap_or_default()),
        }
    }
}
