//! Tests of an output writer and its readers: that calls which may be refused are served.
#![tactic(auto)]

#[cfg(test)]
mod readers;
