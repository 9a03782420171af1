// The way in: the search for its steps, what is held at its end, and its writing to lent lists.

#![tactic(auto, using(crate::proofs::Searches::search_answers))]

ghost use Rattle.std.specs.Prelude.{◌≡◌, length};
ghost use Rattle.successors.specs.Inner.{Successors};
ghost use Rattle.ways.specs.Inner.{Searching, SearchBegun, SearchStepped, WayFollowed, WayRoom, Written};

use setup::Graph;
use vertex_set::VertexSet;

// How far the search for the next step is: what is held, the vertices that are known to be ready (not
// held, and with a complete colour), and those that may have become ready and are still to be looked
// at.
#[derive(Drop)]
struct Search {
    held: VertexSet,
    ready: VertexSet,
    left: u64,
}

impl Search {
    // Begins a search: no vertex is known to be ready yet, and only one that needs a vertex of the
    // set can be.
    fn begin(list: &[u64; 64], set: VertexSet) -> Search
        ensures { SearchBegun list.now set.0 result.held.0 result.ready.0 result.left }
    {
        Search {
            held: set,
            ready: VertexSet(0),
            left: closures::to_look_at(list, VertexSet(0), set),
        }
    }

    // Takes the lowest ready vertex into what is held; there is none where nothing more can be opened.
    // Of the vertices that were not ready, only those that need it can be ready then.
    fn step(&mut self, graph: &Graph, list: &[u64; 64]) -> Option<usize>
        requires list { Successors graph.now list.now }
        requires search { Searching graph.now self.old.held.0 self.old.ready.0 self.old.left }
        ensures { SearchStepped graph.now self.old.held.0 result self.new.held.0 self.new.ready.0 self.new.left }
    {
        let more = closures::admitted(false, graph, self.held, self.left);
        let mut ready = successors::vertices_of(self.ready.0 | more.0);
        let v = ready.next()?;
        self.held = self.held.insert(v);
        self.ready = VertexSet(ready.left);
        self.left = list[v] & !(self.held.0 | ready.left);
        Some(v)
    }
}

// Where the way in ends: how many steps lead to the target, if there is a way, and what is held then;
// else what is held where nothing more can be opened.
#[derive(Drop)]
pub struct WayEnd {
    pub steps: Option<usize>,
    pub held: VertexSet,
}

// Takes the steps of the way in. Graph, target and set are no struct: `access` and `quick_yes` have them
// one by one, and hand them on once.
pub fn follow_way(graph: Graph, target: usize, set: VertexSet) -> WayEnd
    ensures { WayFollowed graph target set.0 result.steps result.held.0 }
{
    if set.has(target) {
        return WayEnd {
            steps: Some(0),
            held: set,
        };
    }
    let mut list = [0u64; 64];
    successors::fill(graph, &mut list);
    let mut search = Search::begin(&list, set);
    let mut count = 0;
    while let Some(v) = search.step(&graph, &list) {
        count += 1;
        if v == target {
            return WayEnd {
                steps: Some(count),
                held: search.held,
            };
        }
    }
    WayEnd {
        steps: None,
        held: search.held,
    }
}

// Writes the way in, its vertices to one list and its colours to the other. The steps were counted
// before, so that lists which are too short can stay as they were. Both lists are written by the
// number of the step: of what an `iter_mut` under a `zip` writes no proof knows anything.
pub fn write_way(
    graph: Graph,
    target: usize,
    set: VertexSet,
    vertices: &mut [u8],
    colours: &mut [u8],
)
    requires { WayRoom graph target set.0 vertices.old colours.old }
    ensures { Written graph target set.0 vertices.old vertices.new colours.old colours.new }
{
    if set.has(target) {
        return;
    }
    let mut list = [0u64; 64];
    successors::fill(graph, &mut list);
    let mut search = Search::begin(&list, set);
    let mut held = set;
    let mut i = 0;
    while let Some(v) = search.step(&graph, &list) {
        // v was ready, so it has a complete colour.
        let colour = closures::lowest_colour(graph.rows[v], held).unwrap_or(0);
        vertices[i] = v as u8;
        colours[i] = colour as u8;
        if v == target {
            return;
        }
        held = search.held;
        i += 1;
    }
}
