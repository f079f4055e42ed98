// Tests of the comparison by its public call: what is told of two stations, and calls that hand in others' parts.
#![tactic(auto)]

#[cfg(test)]
mod reports;
