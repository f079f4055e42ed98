// Tests of the station by its public calls. A crate with tests is proved twice, with them and without: in a
// crate of their own they leave the station to be proved once.
#![tactic(auto)]

#[cfg(test)]
mod edges;
#[cfg(test)]
mod fixture;
#[cfg(test)]
mod kinds;
#[cfg(test)]
mod stops;
#[cfg(test)]
mod worked;
