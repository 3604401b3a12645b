//! Which nodes of a graph lead to each other, by Tarjan's algorithm. What comes out is checked
//! where it is used, so nothing is promised of it here.

use std::alloc::{AllocError, Global};

/// The number at a place of a list, or 0 past its end.
fn number_at(list: &[usize], at: usize) -> usize {
    list.get(at).copied().unwrap_or(0)
}

fn put(list: &mut [usize], at: usize, number: usize) {
    if let Some(place) = list.get_mut(at) {
        *place = number;
    }
}

fn put_least(list: &mut [usize], at: usize, number: usize) {
    if number_at(list, at) > number {
        put(list, at, number);
    }
}

/// A walk over all nodes.
#[derive(Drop)]
struct Walk<'a> {
    rows: &'a [Vec<usize>],
    /// For each node the turn in which it was visited, from 1, or 0.
    met: Vec<usize>,
    /// For each node the least turn of a node that it is known to lead to.
    low: Vec<usize>,
    /// For each node the number of its component, from 1, or 0.
    ranks: Vec<usize>,
    /// The nodes that were visited and have no component yet.
    pending: Vec<usize>,
    /// The nodes that lead to the one in hand, each with how many of its edges were followed.
    path: Vec<(usize, usize)>,
    turns: usize,
    components: usize,
}

impl Walk<'_> {
    fn meet(&mut self, node: usize) -> Result<(), AllocError> {
        self.turns = self.turns.saturating_add(1);
        let turn = self.turns;
        put(&mut self.met, node, turn);
        put(&mut self.low, node, turn);
        self.pending.push(node)?;
        Ok(())
    }

    fn follow(&mut self, node: usize, next: usize) -> Result<(), AllocError> {
        let met = number_at(&self.met, next);
        if met == 0 {
            self.path.push((next, 0))?;
        } else if number_at(&self.ranks, next) == 0 {
            put_least(&mut self.low, node, met);
        }
        Ok(())
    }

    /// Makes a component of the pending nodes from this one on.
    fn close(&mut self, node: usize) {
        self.components = self.components.saturating_add(1);
        let component = self.components;
        while let Some(last) = self.pending.pop() {
            put(&mut self.ranks, last, component);
            if last == node {
                break;
            }
        }
    }

    fn leave(&mut self, node: usize) {
        let low = number_at(&self.low, node);
        if low == number_at(&self.met, node) {
            self.close(node);
        }
        if let Some((above, _)) = self.path.last() {
            let above = *above;
            put_least(&mut self.low, above, low);
        }
    }

    /// Follows one edge, or leaves a node. Answers whether there was one.
    fn step(&mut self) -> Result<bool, AllocError> {
        let Some((node, edge)) = self.path.pop() else {
            return Ok(false);
        };
        if edge == 0 {
            self.meet(node)?;
        }
        match self.rows.get(node).and_then(|row| row.get(edge).copied()) {
            Some(next) => {
                self.path.push((node, edge.saturating_add(1)))?;
                self.follow(node, next)?;
            }
            None => self.leave(node),
        }
        Ok(true)
    }

    /// Takes so many steps at most.
    fn run(&mut self, steps: usize) -> Result<(), AllocError> {
        for _step in 0..steps {
            if !self.step()? {
                break;
            }
        }
        Ok(())
    }
}

/// For each node the number of its component, from 1: nodes have the same number where they lead to
/// each other, and no edge of the rows leads from a number to a greater one. It takes time linear
/// in the rows, which have so many edges.
pub fn components(
    alloc: Global,
    rows: &[Vec<usize>],
    edges: usize,
) -> Result<Vec<usize>, AllocError> {
    let nodes = rows.len();
    let mut walk = Walk {
        rows,
        met: Vec::from_elem(alloc, 0, nodes)?,
        low: Vec::from_elem(alloc, 0, nodes)?,
        ranks: Vec::from_elem(alloc, 0, nodes)?,
        pending: Vec::new(alloc),
        path: Vec::new(alloc),
        turns: 0,
        components: 0,
    };
    for node in 0..nodes {
        if number_at(&walk.met, node) == 0 {
            walk.path.push((node, 0))?;
            walk.run(nodes.saturating_add(edges))?;
        }
    }
    Ok(walk.ranks)
}
