// Tests of the oracles, of the explainer and of the report: tables with known answers, and exhaustive search.
#![tactic(auto)]

#[cfg(test)]
mod agreed;
#[cfg(test)]
mod asked;
#[cfg(test)]
mod calls;
#[cfg(test)]
mod crowds;
#[cfg(test)]
mod garbage;
#[cfg(test)]
mod generated;
#[cfg(test)]
mod kinds;
#[cfg(test)]
mod labels;
#[cfg(test)]
mod layered;
mod made;
#[cfg(test)]
mod nested;
#[cfg(test)]
mod played;
#[cfg(test)]
mod printed;
mod probe;
#[cfg(test)]
mod reports;
#[cfg(test)]
mod runs;
mod search;
#[cfg(test)]
mod tables;
#[cfg(test)]
mod texts;
#[cfg(test)]
mod watched;
mod wild;
