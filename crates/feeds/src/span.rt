/// Some ticks of a plant: the first of them, and how many.
#[derive(Clone, Copy)]
pub(crate) struct Span {
    pub first: u32,
    pub ticks: u32,
}
