// A setup that lives (document 02, point 8): calls that take a vertex into the held set or out of it,
// and that add an edge or remove one. Each takes the setup and hands back the one that it becomes; a
// refused call leaves the setup as it is.
//
// A function copies what it is given by value, and a setup has 11 KB. So question 12 is asked in the
// calls themselves, and its answer is handed on; where an edge changes, the rows of one vertex are
// handed on to the functions that change them, and not the graph.

#![tactic(auto)]

ghost use Rattle.std.specs.Prelude.{◌≡◌, ◌≤◌};
ghost use Rattle.vertex_set.specs.Set.{Decides};
ghost use Rattle.setup.specs.Setup.{Edge, edge_count};
ghost use Rattle.questions.specs.Inner.{FirstRefusal};
ghost use Rattle.living.specs.Calls.{handed_back, TakeIn, TakeOut, AddEdge, RemoveEdge, CallOf};
ghost use Rattle.living.specs.Inner.{LetGo, EdgePlace, WithHeld, Drawn, place_questions, RowsWithEdge, RowsWithoutEdge, RowsMarked, EdgeAdded, EdgeRemoved};

use questions::Refusal;
use setup::{Graph, Rows, Setup};
use vertex_set::VertexSet;

// The set without the vertex v, which need not be in it.
fn let_go(s: VertexSet, v: usize) -> VertexSet
    ensures { LetGo s.0 v result.0 }
{
    if s.has(v) {
        return VertexSet(successors::without(s.0, v));
    }
    s
}

// An edge that a call names: both ends and the colour are places of a graph.
#[derive(Clone, Copy)]
struct Named {
    from: usize,
    to: usize,
    colour: usize,
    ghost place: { EdgePlace from to colour },
}

impl Named {
    fn is_in(self, graph: Graph) -> bool
        ensures { Decides (Edge graph self.from self.to self.colour) result }
    {
        VertexSet(graph.rows[self.to].needs[self.colour]).has(self.from)
    }

    // The rows of its second end with the edge.
    fn with(self, rows: Rows) -> Rows
        ensures { RowsWithEdge rows self.from self.colour result }
    {
        let mut r = rows;
        r.needs[self.colour] = VertexSet(rows.needs[self.colour]).insert(self.from).0;
        r
    }

    // The rows of its second end without the edge, which need not be there.
    fn without(self, rows: Rows) -> Rows
        ensures { RowsWithoutEdge rows self.from self.colour result }
    {
        let mut r = rows;
        r.needs[self.colour] = let_go(VertexSet(rows.needs[self.colour]), self.from).0;
        r
    }

    // The recovery edges of its second end, with the edge where the mark is a yes.
    fn mark(self, marks: Rows, rec: bool) -> Rows
        ensures { RowsMarked marks self.from self.colour rec result }
    {
        if rec {
            return self.with(marks);
        }
        marks
    }

    // Accepts: the setup with the edge, and with its mark.
    fn draw(self, s: Setup, rec: bool) -> Setup
        ensures { EdgeAdded s self.from self.to self.colour rec result }
    {
        let mut graph = s.graph;
        graph.rows[self.to] = self.with(graph.rows[self.to]);
        let mut recovery = s.recovery;
        recovery.rows[self.to] = self.mark(recovery.rows[self.to], rec);
        redraw(s, graph, recovery)
    }

    // Accepts: the setup without the edge, and without its mark.
    fn erase(self, s: Setup) -> Setup
        ensures { EdgeRemoved s self.from self.to self.colour result }
    {
        let mut graph = s.graph;
        graph.rows[self.to] = self.without(graph.rows[self.to]);
        let mut recovery = s.recovery;
        recovery.rows[self.to] = self.without(recovery.rows[self.to]);
        redraw(s, graph, recovery)
    }
}

fn edge_count(graph: Graph) -> u32
    ensures { (result ≡ edge_count graph) × (result ≤ 32768) }
{
    let mut edges: u32 = 0;
    for rows in &graph.rows {
        edges += formed::row_sizes(*rows);
    }
    edges
}

// Accepts: the setup with this held set; its opened set is what `start` opens.
fn hold(s: Setup, held: VertexSet, start: VertexSet) -> Setup
    ensures { WithHeld s held.0 start.0 result }
{
    let closed = closures::closure(false, s.graph, start);
    let mut setup = s;
    setup.held = held;
    setup.opened = closed.set;
    setup
}

// Takes a vertex into the held set. What is open stays open, so that the passes go on from there.
pub fn take_in(s: Setup, v: usize) -> Result<Setup, Refusal>
    ensures { CallOf (TakeIn v) s (handed_back s result) }
{
    let formed = formed::well_formed(s);
    questions::ask_target(formed, s.count, v)?;
    let held = s.held.insert(v);
    let start = s.opened.insert(v);
    Ok(hold(s, held, start))
}

// Takes a vertex out of the held set. It may still be open, by what else is held: the passes start
// from what is held.
pub fn take_out(s: Setup, v: usize) -> Result<Setup, Refusal>
    ensures { CallOf (TakeOut v) s (handed_back s result) }
{
    let formed = formed::well_formed(s);
    questions::ask_target(formed, s.count, v)?;
    let held = let_go(s.held, v);
    Ok(hold(s, held, held))
}

// Questions 12, 13 of both ends, and 18, which come first where an edge is named. `formed` is the
// answer to question 12. From, to and colour come one by one, as the offered calls have them: places of a
// graph they are where these questions are answered with yes.
#[tactic(auto, unfolding(questions::specs::Asks::Asks))]
fn ask_place(
    formed: bool,
    count: usize,
    from: usize,
    to: usize,
    colour: usize,
) -> Result<(), Refusal>
    ensures { FirstRefusal (place_questions formed count from to colour) result }
{
    questions::ask_target(formed, count, from)?;
    if count <= to {
        return Err(Refusal::NoItem);
    }
    if setup::MAX_COLOUR < colour {
        return Err(Refusal::NoColour);
    }
    Ok(())
}

// Accepts: the setup with these graphs. An edge more can shut what was open, and an edge less can open
// more: the passes start from what is held.
fn redraw(s: Setup, graph: Graph, recovery: Graph) -> Setup
    ensures { Drawn s graph recovery result }
{
    let closed = closures::closure(false, graph, s.held);
    let mut setup = s;
    setup.graph = graph;
    setup.recovery = recovery;
    setup.opened = closed.set;
    setup
}

// Adds an edge. A yes for `rec` marks it as a recovery edge, which stands in both graphs.
pub fn add_edge(
    s: Setup,
    from: usize,
    to: usize,
    colour: usize,
    rec: bool,
) -> Result<Setup, Refusal>
    ensures { CallOf (AddEdge from to colour rec) s (handed_back s result) }
{
    let formed = formed::well_formed(s);
    ask_place(formed, s.count, from, to, colour)?;
    let edge = Named { from, to, colour };
    if edge.is_in(s.graph) {
        return Err(Refusal::EdgeThere);
    }
    if setup::MAX_EDGES as u32 <= edge_count(s.graph) {
        return Err(Refusal::Bound);
    }
    Ok(edge.draw(s, rec))
}

// Removes an edge from both graphs, whatever its mark.
pub fn remove_edge(s: Setup, from: usize, to: usize, colour: usize) -> Result<Setup, Refusal>
    ensures { CallOf (RemoveEdge from to colour) s (handed_back s result) }
{
    let formed = formed::well_formed(s);
    ask_place(formed, s.count, from, to, colour)?;
    let edge = Named { from, to, colour };
    if !edge.is_in(s.graph) {
        return Err(Refusal::NoEdge);
    }
    Ok(edge.erase(s))
}
