//! Transfer graphs: which windows are edges, and the weight of each slice. A window is a state followed by one more slice.
ghost use Rattle.std.specs.Prelude.{◌≡◌, ◌<◌, ◌*◌, length};
ghost use Rattle.dd_transfer.specs.Graphs.{transfer, IsTransfer, next_of, target, weight_at, window_of};

use std::marker::Model;

/// The transfer graph of a rule over a strip. A slice lies at one value of x, and gives a symbol to each cell there. A state
/// consists of consecutive slices. Both are numbered: the digits of a slice's number are its symbols, and the digits of a
/// state's number are its slices. The first digit is the most significant. An edge by a slice leads from a state to the state
/// that results if the first slice is dropped and this slice is appended.
#[derive(Debug, Drop)]
pub struct Graph {
    states: u32,
    slices: u32,
    windows: Vec<bool>,
    weights: Vec<u64>,
}

impl Model for Graph {
    ghost use Rattle.dd_transfer.specs.Graphs.{Transfer, IsTransfer, transfer};

    ghost Value = { Transfer };

    ghost view = { λ g. transfer g.states g.slices g.windows.items g.weights.items };

    ghost invariant = { λ g. IsTransfer (transfer g.states g.slices g.windows.items g.weights.items) };
}

impl Graph {
    /// The graph with these parts. `windows` has one entry for each window, and `weights` has one for each slice.
    pub(crate) fn new(states: u32, slices: u32, windows: Vec<bool>, weights: Vec<u64>) -> Graph
        requires { IsTransfer (transfer states slices windows.items weights.items) }
        ensures { result ≡ transfer states slices windows.items weights.items }
    {
        Graph {
            states,
            slices,
            windows,
            weights,
        }
    }

    /// The number of states, from 1 to 4,096.
    pub fn states(&self) -> u32
        ensures value { result ≡ self.now.states }
        ensures kept { IsTransfer self.now }
    {
        self.states
    }

    /// The number of different slices, at least 1. Its product with the number of states is at most 131,072.
    pub fn slices(&self) -> u32
        ensures value { result ≡ self.now.slices }
        ensures kept { IsTransfer self.now }
    {
        self.slices
    }

    /// The state to which a window leads, or `None` if the window is not an edge.
    fn target(&self, window: u32) -> Option<u32>
        requires { window < self.now.states * self.now.slices }
        ensures { result ≡ target self.now window }
    {
        if self.windows[window as usize] {
            Some(window % self.states)
        } else {
            None
        }
    }

    /// The state to which the edge from `state` by `slice` leads. `None` exactly when there is no such edge.
    pub fn next(&self, state: u32, slice: u32) -> Option<u32>
        ensures value { result ≡ next_of self.now state slice }
        ensures kept { IsTransfer self.now }
    {
        if state >= self.states || slice >= self.slices {
            return None;
        }
        self.target(state * self.slices + slice)
    }

    /// The weight of a slice.
    pub fn slice_weight(&self, slice: u32) -> u64
        requires { slice < self.now.slices }
        ensures value { result ≡ weight_at self.now slice }
        ensures kept { IsTransfer self.now }
    {
        self.weights[slice as usize]
    }
}
