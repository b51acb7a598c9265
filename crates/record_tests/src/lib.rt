// Tests of the record bytes by example: numbers and their forms, whole files, their listings and lines, and refused writes.
#![tactic(auto)]

#[cfg(test)]
mod files;
#[cfg(test)]
mod listings;
#[cfg(test)]
mod numbers;
#[cfg(test)]
mod writes;
