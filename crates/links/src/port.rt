//! Which number a link has among all of a world.
ghost use Rattle.std.specs.Prelude.{◌≡◌, ◌+◌, ◌≤◌, ◌*◌};
ghost use Rattle.links.specs.Queues.{port_at, port_in, port_of, row_count};

use crate::links::Links;
use crate::name::LinkName;

/// The link that an event takes from, if it takes from one, as it was found: by name, and by its number among all of a world. The
/// number of no link is as great as their count.
#[derive(Clone, Copy, Drop)]
pub struct Port {
    pub link: Option<LinkName>,
    pub number: usize,
}

impl Links {
    /// Where the link stands that an event takes from, which stays so as long as the links are there.
    pub fn port(&self, takes: Option<LinkName>) -> Port
        ensures { result ≡ record { link = takes; number = port_at self.now takes } }
    {
        let number = match takes {
            Some(link) => self.port_of(link),
            None => self.count(),
        };
        Port {
            link: takes,
            number,
        }
    }

    /// The number of a link.
    #[tactic(auto, unfolding(crate::specs::Queues::port_of))]
    pub(crate) fn port_of(&self, link: LinkName) -> usize
        ensures { result ≡ port_of self.now link }
    {
        match link {
            LinkName::Forward {
                topic,
                source,
                target,
            } => self.port_in(0, self.brokers, self.node(topic, source), target),
            LinkName::Back {
                topic,
                source,
                target,
            } => self.port_in(self.brokers, self.brokers, self.node(topic, source), target),
            LinkName::ToBroker { client, cluster } => self.port_in(
                self.brokers + self.brokers,
                self.clients,
                client as usize,
                cluster,
            ),
            LinkName::ToClient { client, cluster } => self.port_in(
                self.brokers + (self.brokers + self.clients),
                self.clients,
                client as usize,
                cluster,
            ),
        }
    }

    /// The link of a row and a column of a table that has so many rows, and stands after so many.
    #[tactic(auto, using(crate::proofs::Ports::place_fits))]
    fn port_in(&self, before: usize, rows: usize, row: usize, column: u32) -> usize
        requires { before + rows ≤ row_count self.now.brokers self.now.clients }
        ensures { result ≡ port_in self.now before rows row column }
    {
        let column = column as usize;
        if row < rows && column < self.clusters {
            (before + row) * self.clusters + column
        } else {
            self.count()
        }
    }

    /// The number of the broker of a topic at a cluster, among all.
    #[tactic(auto, using(crate::proofs::Ports::node_fits))]
    fn node(&self, topic: u32, cluster: u32) -> usize
        ensures { result ≡ topic * self.now.clusters + cluster }
    {
        topic as usize * self.clusters + cluster as usize
    }
}
