//! Balls of the built-in topologies, drawn by hand; topologies made from edges; and which symbols a node allows. A position has
//! one or more nodes. A cell is a position and the number of one of its nodes. A topology has labelled edges between cells, and
//! a move by a label follows an edge with this label. The ball of radius r around a cell consists of the cells that a path of
//! at most r edges joins to it, where edges may be taken in either direction.
ghost use Rattle.std.specs.Prelude.{◌≡◌, pos};
ghost use Rattle.dd_lattice.specs.Place.{place};
ghost use Rattle.dd_topology.specs.Builtin.{link};

use dd_lattice::{Cell, Position};
use dd_topology::{Edge, Kind, NameFault, Names, Sets, Topology, TopologyFault};
use std::alloc::{AllocError, Global};
use std::test::Fail;

const ORIGIN: Position = Position { x: 0, y: 0, z: 0 };

/// The cells' texts, each after a space: the coordinates, and then the node after a `/`.
fn text_of(alloc: Global, cells: &[Cell]) -> Result<String, AllocError> {
    let mut text = String::new(alloc);
    for cell in cells {
        let p = &cell.position;
        let part = format!(in alloc; " {},{},{}/{}", p.x, p.y, p.z, cell.node)?;
        text.push_str(&part)?;
    }
    Ok(text)
}

/// The ball of this radius around the cell of this node at the origin, in the topology of this kind.
fn ball_of(alloc: Global, kind: Kind, node: u32, radius: u32) -> Result<Vec<Cell>, Fail> {
    let topology = Topology::builtin(alloc, kind)?;
    let position = ORIGIN;
    Ok(topology.ball(alloc, &Cell { position, node }, radius)?)
}

/// A kind, the node of the centre, a radius, and the cells of the ball.
const DRAWN: &[(Kind, u32, u32, &str)] = &[
    (
        Kind::Line,
        0,
        2,
        " -2,0,0/0 -1,0,0/0 0,0,0/0 1,0,0/0 2,0,0/0",
    ),
    (
        Kind::Square,
        0,
        1,
        " 0,-1,0/0 -1,0,0/0 0,0,0/0 1,0,0/0 0,1,0/0",
    ),
    (
        Kind::King,
        0,
        1,
        " -1,-1,0/0 0,-1,0/0 1,-1,0/0 -1,0,0/0 0,0,0/0 1,0,0/0 -1,1,0/0 0,1,0/0 1,1,0/0",
    ),
    (
        Kind::Triangle,
        0,
        1,
        " -1,-1,0/0 0,-1,0/0 -1,0,0/0 0,0,0/0 1,0,0/0 0,1,0/0 1,1,0/0",
    ),
    (Kind::Hex, 0, 1, " 0,-1,0/1 -1,0,0/1 0,0,0/0 0,0,0/1"),
    (Kind::Hex, 1, 1, " 0,0,0/0 0,0,0/1 1,0,0/0 0,1,0/0"),
    (
        Kind::Cube,
        0,
        1,
        " 0,0,-1/0 0,-1,0/0 -1,0,0/0 0,0,0/0 1,0,0/0 0,1,0/0 0,0,1/0",
    ),
];

#[test]
fn balls_are_those_drawn_by_hand(rt: HostRuntime) -> Result<(), Fail> {
    let alloc = rt.alloc();
    for (kind, node, radius, cells) in DRAWN {
        let text = text_of(alloc, &ball_of(alloc, *kind, *node, *radius)?)?;
        assert_eq!(rt; text.as_str(), *cells);
    }
    Ok(())
}

/// A kind, a radius, and the number of cells of the ball around a cell of node 0.
const COUNTS: &[(Kind, u32, usize)] = &[
    (Kind::King, 3, 49),
    (Kind::Triangle, 3, 37),
    (Kind::Hex, 3, 19),
    (Kind::Cube, 3, 63),
    (Kind::Square, 60, 7321),
];

#[test]
fn balls_have_the_known_numbers_of_cells(rt: HostRuntime) -> Result<(), Fail> {
    for (kind, radius, count) in COUNTS {
        assert_eq!(rt; ball_of(rt.alloc(), *kind, 0, *radius)?.len(), *count);
    }
    Ok(())
}

/// The edge with this label from each cell to the one four positions to its right.
fn along(label: u32) -> Edge
    ensures { result ≡ link label (place (pos 4) (pos 0) (pos 0)) }
{
    Edge {
        label,
        from: 0,
        offset: Position { x: 4, y: 0, z: 0 },
        to: 0,
    }
}

#[test]
fn topologies_of_edges(rt: HostRuntime) -> Result<(), Fail> {
    let alloc = rt.alloc();
    let mut labels = Names::new(alloc);
    labels.add(String::from_str(alloc, "x")?)?;
    if let Err(NameFault::Twice(back)) = labels.add(String::from_str(alloc, "x")?) {
        assert_eq!(rt; back.as_str(), "x");
    }
    let twice = vec![in alloc; along(0), along(0)]?;
    let refused = Topology::from_edges(alloc, 1, 1, labels, twice);
    assert!(rt; matches!(refused, Err(TopologyFault::Twice(0))));
    Ok(())
}

#[test]
fn a_move_is_missing_where_no_edge_leaves(rt: HostRuntime) -> Result<(), Fail> {
    let alloc = rt.alloc();
    let mut labels = Names::new(alloc);
    labels.add(String::from_str(alloc, "x")?)?;
    let edges = vec![in alloc;
        Edge {
            label: 0,
            from: 0,
            offset: Position { x: 0, y: 0, z: 0 },
            to: 1,
        },
    ]?;
    let topology = Topology::from_edges(alloc, 1, 2, labels, edges)?;
    let position = ORIGIN;
    let [a, b] = [Cell { position, node: 0 }, Cell { position, node: 1 }];
    assert_eq!(rt;
        (topology.step(&a, 0), topology.step(&b, 0)),
        (Some(b), None)
    );
    assert_eq!(rt; (topology.label("x"), topology.label("y")), (Some(0), None));
    // The ball is complete long before this radius.
    let ball = topology.ball(alloc, &b, 4_000_000_000)?;
    assert_eq!(rt; ball.as_slice(), [a, b].as_slice());
    Ok(())
}

/// A node, a symbol, and whether the node allows it. The second node is restricted to the symbols 2 and 0.
const ALLOWED: &[(u32, u32, bool)] = &[
    (0, 0, true),
    (0, 1, true),
    (0, 2, true),
    (1, 0, true),
    (1, 1, false),
    (1, 2, true),
    (1, 3, false),
];

#[test]
fn a_node_allows_the_symbols_to_which_it_is_restricted(rt: HostRuntime) -> Result<(), Fail> {
    let mut sets = Sets::new(rt.alloc(), 2, 3)?;
    sets.restrict(1, &[2, 0]);
    let copy = sets.copy(rt.alloc())?;
    for (node, symbol, allowed) in ALLOWED {
        assert!(rt; *node < 2);
        assert_eq!(rt; copy.allows(*node, *symbol), *allowed);
    }
    Ok(())
}
