// What a set of vertices opens, what a loss takes away, and the way in.

#![tactic(auto)]

ghost use Rattle.std.specs.Prelude.{[], ◌∷◌};
ghost use Rattle.questions.specs.Contract.{ends, Fulfils};
ghost use Rattle.access.specs.Answers.{closure_reply, closure_call, lost_reply, lost_call, way_reply, way_call};

use questions::Refusal;
use setup::Setup;
use vertex_set::VertexSet;

// The vertices that a set opens, and the number of passes.
#[derive(Drop)]
pub struct Opened {
    pub vertices: VertexSet,
    pub passes: usize,
}

// What the set opens (document 01: its closure), and the number of passes (document 02, point 4).
pub fn access_from(s: Setup, set: VertexSet) -> Result<Opened, Refusal>
    ensures { Fulfils (closure_call s set.0) (ends (closure_reply result) []) }
{
    let formed = formed::well_formed(s);
    questions::ask_set(formed, s.count, set)?;
    let closed = closures::closure(false, s.graph, set);
    Ok(Opened {
        vertices: closed.set,
        passes: closed.passes,
    })
}

// What the loss of the set takes away (document 01: its lost set).
pub fn lockout_from(s: Setup, set: VertexSet) -> Result<VertexSet, Refusal>
    ensures { Fulfils (lost_call s set.0) (ends (lost_reply result) []) }
{
    let formed = formed::well_formed(s);
    questions::ask_set(formed, s.count, set)?;
    let lost = closures::closure(true, s.graph, set);
    Ok(lost.set)
}

// The way in (document 003: a derivation by definition 3), and how many steps it has; none where the
// target is shut. The lists are the caller's: the steps' vertices go to the one, their colours to the
// other. Setup, target and set are no struct: the call is offered with them, and so is that of
// `quick_yes`.
pub fn access_derivation(
    s: Setup,
    target: usize,
    set: VertexSet,
    vertices: &mut [u8],
    colours: &mut [u8],
) -> Result<Option<usize>, Refusal>
    ensures { Fulfils (way_call s target set.0 vertices.old colours.old) (ends (way_reply result) (vertices.new ∷ colours.new ∷ [])) }
{
    let formed = formed::well_formed(s);
    questions::ask_way(formed, s.count, target, set)?;
    let way = ways::follow_way(s.graph, target, set);
    let Some(count) = way.steps else {
        return Ok(None);
    };
    let vertex_room = vertices.len();
    let colour_room = colours.len();
    if vertex_room < count || colour_room < count {
        return Err(Refusal::Short);
    }
    ways::write_way(s.graph, target, set, vertices, colours);
    Ok(Some(count))
}
