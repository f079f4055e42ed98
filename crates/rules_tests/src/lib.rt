// Tests of kinds of label and of policies by their public calls.
//
// A crate with tests is proved twice, with them and without: in a crate of their own they leave
// `labels` and `rules` to be proved once.
#![tactic(auto)]

#[cfg(test)]
mod kinds;
#[cfg(test)]
mod policies;
