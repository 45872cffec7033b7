//! The delays between the players, as the lines of a job say them.

ghost use Rattle.std.specs.Prelude.{◌≡◌};
ghost use Rattle.gba_joblog.specs.Cable.{delay_of as delay_of_pair, delays_of as delays_said, is_joined as is_joined_of, is_link_of as is_link_of_pair, link_for as link_for_pair, players_for as players_for_consoles, row_of as row_of_sender};

use link_node::Delays;

/// The delay in cycles of a pair that the cable doesn't join, and where no line says one.
pub(crate) const USUAL_DELAY: u64 = 512;

/// One player as the sender and another as the receiver.
#[derive(Clone, Copy, Debug, PartialEq, Eq)]
pub struct Pair {
    /// From 0 to 3.
    pub sender: usize,
    /// From 0 to 3.
    pub receiver: usize,
}

/// The delay that a line says for one pair.
#[derive(Clone, Copy, Debug, PartialEq, Eq)]
pub(crate) struct Link {
    pub(crate) pair: Pair,
    /// In cycles, from 1 to 1,024.
    pub(crate) delay: u64,
}

/// Every pair of two players, by sender and then by receiver: lines of logs stand in this order.
pub const PAIRS: [Pair; 12] = [
    Pair {
        sender: 0,
        receiver: 1,
    },
    Pair {
        sender: 0,
        receiver: 2,
    },
    Pair {
        sender: 0,
        receiver: 3,
    },
    Pair {
        sender: 1,
        receiver: 0,
    },
    Pair {
        sender: 1,
        receiver: 2,
    },
    Pair {
        sender: 1,
        receiver: 3,
    },
    Pair {
        sender: 2,
        receiver: 0,
    },
    Pair {
        sender: 2,
        receiver: 1,
    },
    Pair {
        sender: 2,
        receiver: 3,
    },
    Pair {
        sender: 3,
        receiver: 0,
    },
    Pair {
        sender: 3,
        receiver: 1,
    },
    Pair {
        sender: 3,
        receiver: 2,
    },
];

/// How many players the cable of so many consoles has. Beside a console that is alone it has a second one, since the
/// two delays between them decide where the console's Normal transfers end.
pub fn players_for(consoles: usize) -> usize
    ensures { result ≡ players_for_consoles consoles }
{
    if consoles < 2 { 2 } else { consoles }
}

impl Pair {
    /// Whether a cable of so many players joins this pair: two players of it.
    pub fn is_joined(self, players: usize) -> bool
        ensures { result ≡ is_joined_of players self }
    {
        self.sender < players && self.receiver < players && self.sender != self.receiver
    }
}

/// Whether this is the link of a pair.
fn is_link_of(pair: Pair, link: &Link) -> bool
    ensures { result ≡ is_link_of_pair pair link.now }
{
    link.pair.sender == pair.sender && link.pair.receiver == pair.receiver
}

/// The link of a pair, if it is among these.
pub(crate) fn link_for(pair: Pair, links: &[Link]) -> Option<Link>
    ensures { result ≡ link_for_pair pair links.now }
{
    for link in links {
        if is_link_of(pair, link) {
            return Some(*link);
        }
    }
    None
}

/// The delay of a pair: its link's or else `every` where the cable joins it, and the usual one elsewhere.
fn delay_of(every: u64, links: &[Link], players: usize, pair: Pair) -> u64
    ensures { result ≡ delay_of_pair every links.now players pair }
{
    if !pair.is_joined(players) {
        return USUAL_DELAY;
    }
    match link_for(pair, links) {
        Some(link) => link.delay,
        None => every,
    }
}

/// The delays of a sender to each receiver.
fn row_of(every: u64, links: &[Link], players: usize, sender: usize) -> [u64; 4]
    ensures { result ≡ row_of_sender (delay_of_pair every links.now players) sender }
{
    [
        delay_of(
            every,
            links,
            players,
            Pair {
                sender,
                receiver: 0,
            },
        ),
        delay_of(
            every,
            links,
            players,
            Pair {
                sender,
                receiver: 1,
            },
        ),
        delay_of(
            every,
            links,
            players,
            Pair {
                sender,
                receiver: 2,
            },
        ),
        delay_of(
            every,
            links,
            players,
            Pair {
                sender,
                receiver: 3,
            },
        ),
    ]
}

/// The delays of a cable of so many players.
#[tactic(auto, unfolding(crate::specs::Cable::delays_of, crate::specs::Cable::table_of))]
pub(crate) fn delays_of(every: u64, links: &[Link], players: usize) -> Delays
    ensures { result ≡ delays_said every links.now players }
{
    Delays {
        rows: [
            row_of(every, links, players, 0),
            row_of(every, links, players, 1),
            row_of(every, links, players, 2),
            row_of(every, links, players, 3),
        ],
    }
}
