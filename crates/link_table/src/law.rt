//! The table's rule, and what each step on it tells. The words stand in `link_rule`.

use crate::key::Key;
use atomic_table::{Join, Play, Split, TableRule};
use link_node::Node;
use link_rule::View;
use std::marker::PhantomData;

/// The rule over the script of the key's cut.
pub(crate) struct Law<N: Node> {
    marker: PhantomData<N>,
}

impl<N: Node> TableRule<(), View<Key<N>>, Key<N>> for Law<N> {
    ghost use Rattle.link_order.specs.NodeKind.{kind_of};
    ghost use Rattle.link_rule.specs.Rule as rule;
    ghost use Rattle.link_table.specs.Text.{script_of};

    ghost holds = { rule.holds (script_of (kind_of N.clock N.was N.next) N.plain) };

    ghost first = { rule.first_view (script_of (kind_of N.clock N.was N.next) N.plain) };
}

/// Loading a clock word.
pub(crate) struct Looking<N: Node> {
    marker: PhantomData<N>,
}

impl<N: Node> Play<(), View<Key<N>>> for Looking<N> {
    ghost use Rattle.link_order.specs.NodeKind.{kind_of};
    ghost use Rattle.link_rule.specs.Steps.{looks};
    ghost use Rattle.link_table.specs.Text.{script_of};

    ghost then = { looks (script_of (kind_of N.clock N.was N.next) N.plain) };
}

/// Loading the first word of a signal.
pub(crate) struct ReadingHead<N: Node> {
    marker: PhantomData<N>,
}

impl<N: Node> Play<(), View<Key<N>>> for ReadingHead<N> {
    ghost use Rattle.link_order.specs.NodeKind.{kind_of};
    ghost use Rattle.link_rule.specs.Steps.{reads_head};
    ghost use Rattle.link_table.specs.Text.{script_of};

    ghost then = { reads_head (script_of (kind_of N.clock N.was N.next) N.plain) };
}

/// Loading the second word of a signal, which fetches it.
pub(crate) struct ReadingBody<N: Node> {
    marker: PhantomData<N>,
}

impl<N: Node> Play<(), View<Key<N>>> for ReadingBody<N> {
    ghost use Rattle.link_order.specs.NodeKind.{kind_of};
    ghost use Rattle.link_rule.specs.Steps.{reads_body};
    ghost use Rattle.link_table.specs.Text.{script_of};

    ghost then = { reads_body (script_of (kind_of N.clock N.was N.next) N.plain) };
}

/// Storing a word of the next step's signal.
pub(crate) struct Putting;

impl<N: Node> Play<(), View<Key<N>>> for Putting {
    ghost use Rattle.link_rule.specs.Steps.{puts};

    ghost then = { puts };
}

/// Storing the clock word.
pub(crate) struct Publishing<N: Node> {
    marker: PhantomData<N>,
}

impl<N: Node> Play<(), View<Key<N>>> for Publishing<N> {
    ghost use Rattle.link_order.specs.NodeKind.{kind_of};
    ghost use Rattle.link_rule.specs.Steps.{publishes};
    ghost use Rattle.link_table.specs.Text.{script_of};

    ghost then = { publishes (script_of (kind_of N.clock N.was N.next) N.plain) };
}

/// Loading any word by a seat of all players.
pub(crate) struct Resting<N: Node> {
    marker: PhantomData<N>,
}

impl<N: Node> Play<(), View<Key<N>>> for Resting<N> {
    ghost use Rattle.link_order.specs.NodeKind.{kind_of};
    ghost use Rattle.link_rule.specs.Steps.{rests};
    ghost use Rattle.link_table.specs.Text.{script_of};

    ghost then = { rests (script_of (kind_of N.clock N.was N.next) N.plain) };
}

/// A seat keeps its first player, and a new seat has the others.
pub(crate) struct OnePlayer;

impl<K> Split<View<K>> for OnePlayer {
    ghost use Rattle.link_rule.specs.Rule.{first_of, others_of};

    ghost left = { first_of };

    ghost right = { others_of };
}

/// A seat takes in the players of another, and the other is spent.
pub(crate) struct AllPlayers;

impl<K> Join<View<K>> for AllPlayers {
    ghost use Rattle.link_rule.specs.Rule.{joined, spent_view};

    ghost both = { joined };

    ghost spent = { spent_view };
}
