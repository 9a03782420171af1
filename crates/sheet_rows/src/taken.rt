// What is taken of an edge row. It stands in a file of its own: the definitions that the contracts of
// rows cite name it.
ghost use Rattle.std.specs.Prelude.{◌<◌};

// `from` and `to` are item numbers.
#[derive(Clone, Copy)]
pub struct TakenEdge {
    pub from: usize,
    pub to: usize,
    pub colour: usize,
    pub rec: bool,
    ghost inside: { (from < 64) × (to < 64) × (colour < 8) },
}
