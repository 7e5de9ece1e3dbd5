//! A range, its sessions, the messages of its partners and the slots of its workers, by the definitions: the plain
//! program that `random_nodes` compares the libraries with. It shares no code with them, only the types of their
//! results.
#![tactic(auto)]

pub mod catch_ups;
pub mod draws;
pub mod leaves;
pub mod messages;
pub mod patches;
pub mod plain;
pub mod random;
pub mod slots;
pub mod trees;
pub mod trouble;
pub mod walks;
