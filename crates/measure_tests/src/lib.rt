// Tests of the measures on whole cycles: worked examples, and both sides of every limit.
#![tactic(auto)]

#[cfg(test)]
mod arrivals_figures;
#[cfg(test)]
mod cases;
#[cfg(test)]
mod chattering_loops;
#[cfg(test)]
mod red_light_figures;
#[cfg(test)]
mod split_figures;
#[cfg(test)]
mod what_measures_take;
