//! One route from a program's start to a point: ways that follow one another.

use crate::arrivals::{Edge, START, Ways};
use std::alloc::{AllocError, Global};
use std::collections::BTreeMap;
use std::fmt;
use tt_family::PointKey;

/// How many branches of a route are printed.
const SHOWN_BRANCHES: usize = 12;

/// Returns the index of the first way that leads from a point, or from one after it.
fn first_from(edges: &[Edge], point: PointKey) -> usize {
    edges.partition_point(|edge| edge.from < point)
}

/// Notes each new point to which a way leads from this one, with that way.
fn reach(
    reached: &mut BTreeMap<PointKey, Edge>,
    queue: &mut Vec<PointKey>,
    edges: &[Edge],
    point: PointKey,
) -> Result<(), AllocError> {
    let first = first_from(edges, point);
    for more in 0..2 {
        let Some(edge) = edges.get(first.saturating_add(more)) else {
            break;
        };
        if edge.from == point && edge.to != START && reached.get(&edge.to).is_none() {
            reached.insert(edge.to, *edge)?;
            queue.push(edge.to)?;
        }
    }
    Ok(())
}

/// Notes the points that can be reached, each with the last way of a shortest route.
fn reach_all(
    alloc: Global,
    reached: &mut BTreeMap<PointKey, Edge>,
    edges: &[Edge],
) -> Result<(), AllocError> {
    let mut queue = Vec::new(alloc);
    queue.push(START)?;
    for index in 0..edges.len().saturating_add(1) {
        let Some(point) = queue.get(index).copied() else {
            break;
        };
        reach(reached, &mut queue, edges, point)?;
    }
    Ok(())
}

/// Whether a way does more than go on to the next instruction, or isn't the only one from its point.
fn is_branch(ways: Ways<'_>, edge: &Edge) -> bool {
    let Some(instruction) = ways.subject.instruction_at(edge.from) else {
        return true;
    };
    let next = edge.from.1.saturating_add(instruction.len());
    if edge.to != (edge.from.0, next) {
        return true;
    }
    let second = first_from(ways.edges, edge.from).saturating_add(1);
    match ways.edges.get(second) {
        Some(other) => other.from == edge.from,
        None => false,
    }
}

/// Adds the branches of one route from the program's start to a point, the last one first.
///
/// # Errors
/// If memory runs out.
fn add_branches(
    branches: &mut Vec<Edge>,
    ways: Ways<'_>,
    reached: &BTreeMap<PointKey, Edge>,
    point: PointKey,
) -> Result<(), AllocError> {
    let mut to = point;
    for _ in 0..ways.edges.len() {
        let Some(edge) = reached.get(&to) else {
            break;
        };
        if is_branch(ways, edge) {
            branches.push(*edge)?;
        }
        to = edge.from;
    }
    Ok(())
}

/// Adds the branches of one route from the program's start to a point, the last one first.
///
/// # Errors
/// If memory runs out.
pub(crate) fn add_route(
    branches: &mut Vec<Edge>,
    ways: Ways<'_>,
    point: PointKey,
) -> Result<(), AllocError> {
    let alloc = ways.subject.alloc;
    let mut reached = BTreeMap::new(alloc);
    reach_all(alloc, &mut reached, ways.edges)?;
    add_branches(branches, ways, &reached, point)
}

/// One route to a point, by its branches, of which the last one is first.
#[derive(Clone, Copy)]
pub(crate) struct Route<'a> {
    pub ways: Ways<'a>,
    pub point: PointKey,
    pub branches: &'a [Edge],
}

impl fmt::Display for Route<'_> {
    fn fmt<W: fmt::Write>(&self, f: &mut fmt::Formatter<W>) -> fmt::Result {
        let subject = self.ways.subject;
        let place = subject.place(self.point);
        let count = self.branches.len();
        if count == 0 {
            return write!(
                f,
                "From its start the program goes on to {place} without a branch."
            );
        }
        write!(
            f,
            "One way from the program's start to {place} branches so:"
        )?;
        let before = count.saturating_sub(SHOWN_BRANCHES);
        if before > 0 {
            write!(f, "\n    {before} branches before")?;
        }
        for edge in self.branches.iter().rev().skip(before) {
            let to = subject.place(edge.to);
            write!(f, "\n    {} leads to {to}", subject.landmark(edge.from))?;
        }
        Ok(())
    }
}
