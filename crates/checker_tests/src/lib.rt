// Tests of the checker, by example.
#![tactic(auto)]

#[cfg(test)]
mod files;
#[cfg(test)]
mod long;
