//! From where states come to a point.

use crate::describing::{Numbers, write_more};
use crate::explored_program::{ExploredProgram, Landmark};
use crate::stepping::{StepOutcome, outcome_at};
use std::alloc::AllocError;
use std::fmt;
use tt_abs::State;
use tt_family::PointKey;

/// How many of the ways that come to a place are printed.
const SHOWN_WAYS: usize = 8;

/// The point at which a program starts.
pub(crate) const START: PointKey = (0, 0);

/// A way from one point to another.
#[derive(Clone, Copy)]
pub(crate) struct Edge {
    pub from: PointKey,
    pub to: PointKey,
    /// How deep the stack is that it brings.
    pub depth: usize,
}

/// Adds the ways that lead from a point. What is known after its instruction is then `next`.
fn push_edges(
    edges: &mut Vec<Edge>,
    subject: &ExploredProgram<'_>,
    from: PointKey,
    state: &State,
    next: &mut State,
) -> Result<(), AllocError> {
    let StepOutcome::Goes(moves) = outcome_at(subject, from, state, next)? else {
        return Ok(());
    };
    let depth = next.depth();
    for index in 0..2 {
        let Some(way) = moves.get(index) else {
            break;
        };
        if let Some(to) = subject.landing(from.0, way) {
            edges.push(Edge { from, to, depth })?;
        }
    }
    Ok(())
}

/// Adds all ways from point to point that the search has found.
///
/// # Errors
/// If memory runs out.
pub(crate) fn add_edges(
    edges: &mut Vec<Edge>,
    subject: &ExploredProgram<'_>,
    next: &mut State,
) -> Result<(), AllocError> {
    let mut states = subject.certificate.states();
    for _ in 0..subject.certificate.points() {
        let Some((context, offset, state)) = states.take_first() else {
            break;
        };
        push_edges(edges, subject, (context, offset), state, next)?;
    }
    Ok(())
}

/// The ways of a program that was searched.
#[derive(Clone, Copy)]
pub(crate) struct Ways<'a> {
    pub subject: &'a ExploredProgram<'a>,
    /// The ways, which ascend by the points from which they lead.
    pub edges: &'a [Edge],
}

/// How a stack comes to a place: from which instruction, and how deep it is.
#[derive(Clone, Copy)]
pub(crate) struct Arrival {
    /// The point from where it comes.
    pub point: PointKey,
    /// The place of this point: `None` for the program's start.
    from: Option<Landmark>,
    depth: usize,
}

/// The program's start, as an arrival at the program's first point.
const BEGINNING: Arrival = Arrival {
    point: START,
    from: None,
    depth: 0,
};

impl Ways<'_> {
    /// Returns a way as an arrival at the point to which it leads.
    fn arrival(&self, edge: &Edge) -> Arrival {
        Arrival {
            point: edge.from,
            from: Some(self.subject.landmark(edge.from)),
            depth: edge.depth,
        }
    }

    /// Writes the first ways that come to a point, and how many more there are.
    fn write_to<W: fmt::Write>(&self, point: PointKey, f: &mut fmt::Formatter<W>) -> fmt::Result {
        let mut count: usize = 0;
        for edge in self.edges {
            if edge.to == point {
                if count < SHOWN_WAYS {
                    write!(f, "\n    {}", self.arrival(edge))?;
                }
                count = count.saturating_add(1);
            }
        }
        write_more("\n    ", count, SHOWN_WAYS, f)
    }

    /// Returns an arrival that brings a stack of the one depth to a point, and one that brings one of
    /// the other depth, if there are two such ways.
    pub(crate) fn meeting(
        &self,
        point: PointKey,
        depth: usize,
        other_depth: usize,
    ) -> Option<(Arrival, Arrival)> {
        let one = self.way_with(point, depth)?;
        let other = self.way_with(point, other_depth)?;
        Some((one, other))
    }

    /// Returns an arrival that brings a stack of this depth to a point.
    fn way_with(&self, point: PointKey, depth: usize) -> Option<Arrival> {
        if point == START && depth == 0 {
            return Some(BEGINNING);
        }
        for edge in self.edges {
            if edge.to == point && edge.depth == depth {
                return Some(self.arrival(edge));
            }
        }
        None
    }
}

impl fmt::Display for Arrival {
    fn fmt<W: fmt::Write>(&self, f: &mut fmt::Formatter<W>) -> fmt::Result {
        match self.from {
            Some(place) => write!(f, "from {place}")?,
            None => f.write_str("from the program's start")?,
        }
        write!(f, ", with {} on the stack", Numbers(self.depth))
    }
}

/// The ways that come to a point.
#[derive(Clone, Copy)]
pub(crate) struct WaysTo<'a>(pub Ways<'a>, pub PointKey);

impl fmt::Display for WaysTo<'_> {
    fn fmt<W: fmt::Write>(&self, f: &mut fmt::Formatter<W>) -> fmt::Result {
        let WaysTo(ways, point) = *self;
        f.write_str("Ways that come here:")?;
        if point == START {
            write!(f, "\n    {BEGINNING}")?;
        }
        ways.write_to(point, f)
    }
}
