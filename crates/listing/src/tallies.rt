//! How many sections a listing has, and of what kind.

ghost use Rattle.std.specs.Prelude.{◌≡◌};
ghost use Rattle.listing.specs.Tallies.{empty_tally, one_more, counted, summary_of};

use crate::parts::{Part, put};
use section::Kind;
use stream::columns::Line;

// Raises a count by one, unless it is at the top.
fn raise(count: &mut u64)
    ensures { count.new ≡ one_more count.old }
{
    *count = count.saturating_add(1);
}

/// How many sections were listed, and how many of each kind.
#[derive(Clone, Copy, Default, PartialEq, Eq, Debug)]
pub struct Tally {
    sections: u64,
    datagrams: u64,
    checks: u64,
    refused: u64,
}

impl Tally {
    /// The tally of no section.
    pub fn new() -> Tally
        ensures { result ≡ empty_tally }
    {
        Tally::default()
    }

    /// Counts one section more, by its kind, or as one that is turned away. A count that is at the top stays there.
    pub fn count(&mut self, kind: Option<Kind>)
        ensures { self.new ≡ counted kind self.old }
    {
        raise(&mut self.sections);
        match kind {
            Some(Kind::Datagram) => raise(&mut self.datagrams),
            Some(Kind::Check) => raise(&mut self.checks),
            None => raise(&mut self.refused),
        }
    }

    /// The last line of a listing.
    pub fn summary(&self) -> Line
        ensures { result ≡ summary_of self.now }
    {
        let mut line = Line::new();
        put(
            &mut line,
            &[
                Part::word("sections ", 0),
                Part::number(self.sections, 0),
                Part::word(" datagram ", 0),
                Part::number(self.datagrams, 0),
                Part::word(" check ", 0),
                Part::number(self.checks, 0),
                Part::word(" refused ", 0),
                Part::number(self.refused, 0),
            ],
        );
        line
    }
}
