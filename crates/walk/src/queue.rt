// The nodes that wait for their turn in a walk.
ghost use Rattle.std.specs.Prelude.{◌≡◌, ◌+◌, ◌<◌, ◌≤◌, set, length};
ghost use Rattle.sheet.specs.Limits.{max_nodes};
ghost use Rattle.paths.specs.Reached.{Waiting};

use super::ROWS;

// The nodes that got a number, in that order: the first `len` of the array. No node comes twice, so that there is room for all.
#[derive(Drop)]
pub(crate) struct Queue {
    pub(crate) nodes: [u32; ROWS],
    pub(crate) len: usize,
    pub ghost long: { length nodes ≡ max_nodes },
}

impl Queue {
    // Puts a node behind the others.
    pub(crate) fn push(&mut self, node: u32)
        requires { self.old.len < max_nodes }
        ensures { (self.new.nodes ≡ set self.old.nodes self.old.len node) × (self.new.len ≡ self.old.len + 1) }
    {
        self.nodes[self.len] = node;
        self.len += 1;
    }

    // Puts the nodes numbered 1 into an empty queue.
    pub(crate) fn gather(&mut self, d: &[u32], nodes: u32)
        requires { (nodes ≤ length d.now) × (length d.now ≤ max_nodes) × (self.old.len ≡ 0) }
        ensures { Waiting nodes 1 d.now self.new.nodes 0 self.new.len }
    {
        for node in 0..nodes {
            if d[node as usize] == 1 {
                self.push(node);
            }
        }
    }
}
