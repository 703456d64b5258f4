// What is kept for a component of a plant, and what a test, an availability and an offer are made of.
ghost use Rattle.std.specs.Prelude.{◌≡◌};
ghost use Rattle.power.specs.Power.{fresh, fresh_components};

use crate::quantity::Watts;

// The minutes of an availability: available, planned maintenance, forced outage, equivalent degradation.
#[derive(Clone, Copy, Debug, PartialEq, Eq)]
pub struct Minutes {
    pub hd: u32,
    pub hmp: u32,
    pub hif: u32,
    pub hed: u32,
}

// How a test went: its ending (0 complete, 1 tripped by no doing of the plant, 2 tripped by its doing), its full time TC in quarters, and the
// count of its readings. The ending is a number: test takes any, and refuses those above 2. The readings are lent beside it, since a Trial is
// part of a call, which is a value.
#[derive(Clone, Copy, Debug, PartialEq, Eq)]
pub struct Trial {
    pub ending: u32,
    pub tc: u32,
    pub count: u32,
}

// The hours of the stage of greatest thermal requirement, its hours of maximum demand, and those per day.
#[derive(Clone, Copy, Debug, PartialEq, Eq)]
pub struct Hours {
    pub nhrm: u32,
    pub nhmd: u32,
    pub ndhmd: u32,
}

// A component: its result, if a test gave one, whether its last ending-2 test was void with no result since, its availability, if given.
#[derive(Clone, Copy, Debug, PartialEq, Eq)]
pub struct Component {
    pub result: Option<Watts>,
    pub void_trip: bool,
    pub availability: Option<Minutes>,
}

// The three components of a plant, numbered 0 to 2: all kinds have the set, kind 8 a generator and a storage too.
#[derive(Clone, Copy, Debug, PartialEq, Eq)]
pub struct Components {
    pub set: Component,
    pub generator: Component,
    pub storage: Component,
}

// A component without test or availability.
pub fn fresh_component() -> Component
    ensures { result ≡ fresh }
{
    Component {
        result: None,
        void_trip: false,
        availability: None,
    }
}

// The components of a plant, without test or availability.
pub fn fresh_components() -> Components
    ensures { result ≡ fresh_components }
{
    let component = fresh_component();
    Components {
        set: component,
        generator: component,
        storage: component,
    }
}
