#![tactic(auto)]
//! Tests of the commands over files in memory: words, assembling, listing, generating.

#[cfg(test)]
mod calls;
#[cfg(test)]
mod generated;
#[cfg(test)]
mod translated;
#[cfg(test)]
mod words;
