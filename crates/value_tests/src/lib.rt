//! Tests of values and of what is made of them: spellings and their faults, a map and its frozen
//! copy, a copy that someone else spells, chains and picks of operators, lanes and states.
#![tactic(auto)]

#[cfg(test)]
mod chains;
#[cfg(test)]
mod codec;
#[cfg(test)]
mod copies;
#[cfg(test)]
mod maps;
