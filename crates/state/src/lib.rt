// The parts of the machine's state in code: cells with marks, PSW, operations on words, the map and memory.
#![tactic(auto)]

pub mod cells;
pub mod map;
pub mod map_check;
pub mod memory;
mod operations;
pub mod psw;
pub mod regions;
