// Examples that are run: the compiled code against numbers that were worked out by hand.
#![tactic(auto)]

#[cfg(test)]
mod any_numbers;
#[cfg(test)]
mod benches;
#[cfg(test)]
mod line_numbers;
#[cfg(test)]
mod refusals;
