//! Strips, and how many positions and how many cells a slice has.
ghost use Rattle.std.specs.Prelude.{◌≡◌, ◌≤◌};
ghost use Rattle.dd_strip.specs.Strips.{IsSized, cells, positions};

/// A strip: the cells whose `y` is at least 0 and less than the period along y, and whose `z` is at least 0 and less than the
/// period along z. It has no end along x. A slice consists of the strip's cells with one value of `x`. Each position has one
/// cell for each node. The methods need periods from 1 to 64, and from 1 to 4 nodes.
#[derive(Debug, Clone, Copy)]
pub struct Strip {
    /// The period along y.
    pub y: u32,
    /// The period along z.
    pub z: u32,
    /// The number of nodes at each position.
    pub nodes: u32,
}

impl Strip {
    /// The number of positions in a slice.
    pub fn positions(&self) -> u32
        requires { IsSized self.now }
        ensures value { result ≡ positions self.now }
        ensures few { result ≤ 4096 }
    {
        self.y * self.z
    }

    /// The number of cells in a slice.
    pub fn cells(&self) -> u32
        requires { IsSized self.now }
        ensures value { result ≡ cells self.now }
        ensures few { result ≤ 16384 }
    {
        self.nodes * self.positions()
    }
}
