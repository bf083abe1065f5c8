//! A bench of traces over edges in memory. `SHAPE N` makes N edges of a shape, traces forward from where they begin, and
//! prints how many nodes the trace has; the shapes are `chain`, `fan` and `mesh`. Without arguments each shape is traced over
//! a few edges.
#![tactic(auto)]

ghost use Rattle.std.specs.Prelude.{◌≡◌, List, length, IfOk};
ghost use Rattle.plant_trace.specs.Reach.{IsReached, Lists};
ghost use Rattle.plant_trace.specs.declared.direction.Direction.TheVariants.{Forward};
ghost use Rattle.plant_trace.specs.{Node};

use plant_base::Id;
use plant_trace::{Direction, Indexed, Node, closure};
use std::alloc::{AllocError, Global};
use std::process::ExitCode;
use std::{env, io};

/// How many edges are traced without arguments.
const FEW: u64 = 100;

/// The exit status where nothing was traced.
const FAILED: u8 = 3;

/// How edges follow each other.
#[derive(Clone, Copy, Debug, PartialEq, Eq)]
enum Shape {
    /// Each leads on from where the one before ends.
    Chain,
    /// All lead from one node.
    Fan,
    /// Each of ten nodes leads to each of the next ten.
    Mesh,
}

impl Shape {
    /// The numbers of the two nodes of an edge.
    fn ends(self, edge: u64) -> (u64, u64) {
        let layer = edge / 100;
        match self {
            Shape::Chain => (edge, edge.wrapping_add(1)),
            Shape::Fan => (0, edge.wrapping_add(1)),
            Shape::Mesh => (layer * 10 + edge % 100 / 10, layer * 10 + 10 + edge % 10),
        }
    }
}

/// The lot of a number, of which six digits count.
fn node(number: u64) -> Option<Node> {
    let mut name = *b"N000000";
    let mut rest = number;
    for place in [6, 5, 4, 3, 2, 1] {
        name[place] = b'0' + (rest % 10) as u8;
        rest /= 10;
    }
    Some(Node::Lot(Id::read(&name)?))
}

/// So many edges of a shape.
fn edges(alloc: Global, shape: Shape, count: u64) -> Result<Vec<(Node, Node)>, AllocError> {
    let mut pairs = Vec::new(alloc);
    for edge in 0..count {
        let (from, to) = shape.ends(edge);
        if let (Some(from), Some(to)) = (node(from), node(to)) {
            pairs.push((from, to))?;
        }
    }
    Ok(pairs)
}

/// The number of nodes that the pairs lead to from the start.
fn traced(alloc: Global, pairs: &[(Node, Node)], start: Node) -> Result<usize, AllocError>
    ensures { IfOk result (λ n. (nodes : List Node)
        × Lists (IsReached Forward pairs.now start) nodes × (n ≡ length nodes)) }
{
    let mut source = Indexed::new(alloc, pairs)?;
    match closure(alloc, &mut source, start, Direction::Forward) {
        Ok(nodes) => Ok(nodes.len()),
        Err(_) => Err(AllocError),
    }
}

/// Makes the edges and traces them.
fn run(alloc: Global, shape: Shape, count: u64) -> Result<usize, AllocError> {
    let pairs = edges(alloc, shape, count)?;
    match node(0) {
        Some(start) => traced(alloc, &pairs, start),
        None => Ok(0),
    }
}

fn shape_of(word: &str) -> Option<Shape> {
    if word == "chain" {
        Some(Shape::Chain)
    } else if word == "fan" {
        Some(Shape::Fan)
    } else if word == "mesh" {
        Some(Shape::Mesh)
    } else {
        None
    }
}

/// The arguments of the command line, the program's name first.
fn words(rt: &HostRuntime) -> io::Result<Vec<String>> {
    let mut words = Vec::new(rt.alloc());
    for word in env::args(rt)? {
        words.push(word)?;
    }
    Ok(words)
}

fn print_shape(rt: &HostRuntime, shape: Shape, count: u64) -> bool {
    match run(rt.alloc(), shape, count) {
        Ok(nodes) => {
            let _ = println!(rt; "{count} edges: {nodes} nodes");
            true
        }
        Err(_) => false,
    }
}

fn main(rt: HostRuntime) -> ExitCode {
    let Ok(words) = words(&rt) else {
        return ExitCode::from(FAILED);
    };
    let reported = match words.as_slice() {
        [_, word, count] => match shape_of(word.as_str()) {
            Some(shape) => print_shape(&rt, shape, count.as_str().parse::<u64>().unwrap_or(FEW)),
            None => false,
        },
        _ => {
            print_shape(&rt, Shape::Chain, FEW)
                && print_shape(&rt, Shape::Fan, FEW)
                && print_shape(&rt, Shape::Mesh, FEW)
        }
    };
    ExitCode::from(if reported { 0 } else { FAILED })
}
