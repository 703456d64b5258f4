// What is told of a consumer.

#[derive(Clone, Copy, Debug, PartialEq, Eq)]
pub enum ConsumerCall {
    Declare { d: u32, a: u32 },
    Meter { dreal: u32 },
    Mean { mean: u32 },
}
