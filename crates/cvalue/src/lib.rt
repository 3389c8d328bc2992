// Sessions as C has them: values with numbers for states, directions and the open table, made of sessions and taken for them.
//   records    records of the ledger
//   holdings   what is held
//   tables     the open table
//   sessions   the session of a value, and what it counts as
//   answers    the answers of calls
#![tactic(auto)]

pub mod answers;
mod holdings;
mod records;
pub mod sessions;
mod tables;

use array::Word;

// A record: direction 0 is forward, 1 back.
#[repr(C)]
#[derive(Clone, Copy)]
pub struct RecordValue {
    pub direction: u32,
    pub residues: u32,
}

// What is held: state 0 is empty, 1 loaded (p, n, T1, T2), 2 paired (also S, R).
#[repr(C)]
#[derive(Clone, Copy)]
pub struct HeldValue {
    pub state: u32,
    pub p: u32,
    pub n: u32,
    pub t1: [Word; 16],
    pub t2: [Word; 16],
    pub s: [Word; 16],
    pub r: [Word; 16],
}

// A session: what it holds; the ledger, of which the first `records` count; the table, 0 none, 1 open forward, 2 open back, with the residues fed to it
// so far; and what the waiting session holds. C's header has the fields of `held` as fields of its own, which lie in the same places, and calls the
// table `open`, which is a word of antt.
#[repr(C)]
#[derive(Clone, Copy)]
pub struct SessionValue {
    pub held: HeldValue,
    pub records: u32,
    pub ledger: [RecordValue; 512],
    pub table: u32,
    pub fed: u32,
    pub waiting: HeldValue,
}

// A session call's answer: the number and the next session; refused, the session that was taken.
#[repr(C)]
#[derive(Clone, Copy)]
pub struct StepValue {
    pub number: u32,
    pub session: SessionValue,
}
