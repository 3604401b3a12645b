//! A walk that places nodes behind those that they need.

ghost use Rattle.std.specs.Prelude.{◌≡◌, ◌+◌, ◌<◌, OnOk, false, length, slice_index_or};
ghost use Rattle.std.specs.List.{All};
ghost use Rattle.cm_wit_graph.specs.Walks.{AreMet, AreSameNodes, Goes, IsSettled, IsThrough};
ghost use Rattle.cm_wit_graph.specs.Walks.{Stands};
ghost use Rattle.cm_wit_graph.specs.Walks.{standing};

use crate::waiting::{open_need, release, wait_for};
use std::alloc::{AllocError, Global};

/// The nodes that are placed, and those that wait for one that they need.
#[derive(Drop)]
pub struct Walk<'a> {
    pub rows: &'a [Vec<usize>],
    /// For each node whether it is placed.
    pub placed: Vec<bool>,
    /// For each node those that wait for it, each with the place from which on its needs have to
    /// be looked at.
    pub waiting: Vec<Vec<(usize, usize)>>,
    pub order: Vec<usize>,
}

impl<'a> Walk<'a> {
    /// Places a node that is not placed, and whose needs are.
    fn place(&mut self, node: usize) -> Result<(), AllocError>
        requires stands { Stands (standing self.old) }
        requires node { node < length self.old.rows.now }
        requires met { AreMet (standing self.old) (node, length ((standing self.old).needs node)) }
        requires unplaced { slice_index_or self.old.placed.items node false ≡ false }
        ensures stands { OnOk result (Stands (standing self.new)) }
        ensures goes { OnOk result (Goes (standing self.old) (standing self.new)) }
        ensures settled { OnOk result (IsSettled (standing self.new) node) }
    {
        self.placed[node] = true;
        self.order.push(node)?;
        Ok(())
    }

    /// Places a node, or lets it wait for the first of its needs, from a place on, that is not
    /// placed.
    fn settle(&mut self, node: usize, from: usize) -> Result<(), AllocError>
        requires stands { Stands (standing self.old) }
        requires node { node < length self.old.rows.now }
        requires met { AreMet (standing self.old) (node, from) }
        ensures stands { OnOk result (Stands (standing self.new)) }
        ensures goes { OnOk result (Goes (standing self.old) (standing self.new)) }
        ensures settled { OnOk result (IsSettled (standing self.new) node) }
    {
        if self.placed[node] {
            return Ok(());
        }
        match open_need(&self.rows[node], from, &self.placed) {
            Some((place, need)) => wait_for(&mut self.waiting, need, (node, place + 1))?,
            None => self.place(node)?,
        }
        Ok(())
    }

    /// Settles these nodes, each from its place on.
    pub fn settle_all(&mut self, entries: &[(usize, usize)]) -> Result<(), AllocError>
        requires stands { Stands (standing self.old) }
        requires nodes { All (λ e. e.0 < length self.old.rows.now) entries.now }
        requires met { All (AreMet (standing self.old)) entries.now }
        ensures stands { OnOk result (Stands (standing self.new)) }
        ensures goes { OnOk result (Goes (standing self.old) (standing self.new)) }
        ensures settled { OnOk result (All (λ e. IsSettled (standing self.new) e.0) entries.now) }
    {
        for (node, from) in entries {
            self.settle(*node, *from)?;
        }
        Ok(())
    }

    /// Settles the nodes that wait for the node at a place of the order.
    fn go_on(&mut self, alloc: Global, head: usize, node: usize) -> Result<(), AllocError>
        requires through { IsThrough (standing self.old) head }
        requires head { head < length self.old.order.items }
        requires node { slice_index_or self.old.order.items head 0 ≡ node }
        ensures through { OnOk result (IsThrough (standing self.new) (head + 1)) }
        ensures nodes { OnOk result (AreSameNodes (standing self.old) (standing self.new)) }
    {
        let entries = release(alloc, &mut self.waiting, node);
        self.settle_all(&entries)?;
        Ok(())
    }

    /// Settles the nodes that wait for those of the order, in turn.
    pub fn go_through(&mut self, alloc: Global) -> Result<(), AllocError>
        requires { IsThrough (standing self.old) 0 }
        ensures through { OnOk result
            (IsThrough (standing self.new) (length self.new.order.items)) }
        ensures nodes { OnOk result (AreSameNodes (standing self.old) (standing self.new)) }
    {
        for head in 0..self.rows.len() {
            if head < self.order.len() {
                let node = self.order[head];
                self.go_on(alloc, head, node)?;
            }
        }
        Ok(())
    }
}
