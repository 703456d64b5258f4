// What is done to a contract between a producer and a consumer.

#[derive(Clone, Copy, Debug, PartialEq, Eq)]
pub enum ContractCall {
    Commit { q: u32 },
    Release { q: u32 },
}
