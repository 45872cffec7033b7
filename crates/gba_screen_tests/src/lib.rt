#![tactic(auto)]
//! Tests of the screen: scenes that change what lines are drawn of, against lines that are mixed where they are drawn.

#[cfg(test)]
mod player;
#[cfg(test)]
mod replacing;
#[cfg(test)]
mod scenes;
