// Tests of the way from a reader to a writer: readers that are slow, fail or never end, and writers
// that take little or fail.
#![tactic(auto)]

#[cfg(test)]
mod readers;
#[cfg(test)]
mod streamed;
#[cfg(test)]
mod writers;
